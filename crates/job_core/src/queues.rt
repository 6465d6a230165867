//! The queue of jobs (games to count), as a reader and its workers call it, each by an endpoint of
//! its own.
ghost use Rattle.std.specs.Prelude.{◌≡◌, ◌-◌, ◌<◌, ◌≤◌, ℕ, false, [], IfOk, IfErr};
ghost use Rattle.std.specs.Prelude.{MatchOption, MatchResult};
ghost use Rattle.crossbeam_queue.specs.Passes.{view, IsPassOf, IsSamePass, ruled_capacity};
ghost use Rattle.tally_core.specs.declared.faults.TallyFault.TheVariants as fault;
ghost use Rattle.job_core.specs.Which.{id_of};
ghost use Rattle.job_core.specs.Rule.{all_parts, blank, reader, spent, worker};
ghost use Rattle.job_core.specs.Rule.{putting, drawing, taking_up, Draws, MayPut};
ghost use Rattle.job_core.specs.Queue.{all_drawn};
ghost use Rattle.job_core.specs.Times.{times_of};

use crate::items::Item;
use crate::knowledge::{Cut, Input, Jobs, Joined, Names, Puts, Seat, Settles, Takes};
use std::alloc::Global;
use std::marker::{Brand, Model};
use std::sync::Wait;
use tally_core::TallyFault;

/// Makes a queue with a capacity of `places` items, above 0, and its first pass: the right of one
/// thread to call it. It takes memory for these items.
///
/// # Errors
///
/// `Memory` if memory was refused.
pub fn new_queue<'a>(alloc: Global, places: usize) -> Result<(Jobs<'a>, Seat<'a>), TallyFault>
    requires places { 0 < places }
    ensures pass { IfOk result (λ new. IsPassOf new.0 new.1 × (view new.1 ≡ blank)) }
    ensures places { IfOk result (λ new. ruled_capacity new.0 ≡ places) }
    ensures fault { IfErr result (λ found. found ≡ fault.Memory) }
{
    Ok(Jobs::ruled(alloc, places)?)
}

/// For contracts: binds the first `pass` (a thread's right to call the queue) to this `queue` and
/// to the input `bytes`. Returns the pass that is split off, which has no part and is of no use.
fn name<'a, B: Input>(queue: &Jobs<'a>, pass: &mut Seat<'a>, bytes: &[u8]) -> Seat<'a>
    requires queue { id_of queue.now ≡ B.queue }
    requires bytes { bytes.now ≡ B.bytes }
    requires pass { IsPassOf queue.now pass.old × (view pass.old ≡ blank) }
    ensures queue { IsSamePass pass.old pass.new × IsPassOf queue.now result }
    ensures views { (view pass.new ≡ reader (id_of queue.now) bytes.now [])
        × (view result ≡ spent) }
{
    queue.another::<Names<B>>(pass)
}

/// For contracts: makes the first `pass` (a thread's right to call the queue) of a new `queue` the
/// reader's, for the input `bytes`. The pass that is split off is dropped; it has no part, so no
/// part is lost.
fn open<'a>(queue: &Jobs<'a>, pass: &mut Seat<'a>, bytes: &[u8])
    requires pass { IsPassOf queue.now pass.old × (view pass.old ≡ blank) }
    ensures queue { IsSamePass pass.old pass.new }
    ensures view { view pass.new ≡ reader (id_of queue.now) bytes.now [] }
{
    let _spent = name::<Brand>(queue, pass, bytes);
}

/// One thread's access to a queue of jobs. It has a pass, which is the right of one thread to add
/// items to the queue or to take them from it.
///
/// Contracts see at which `queue` it is, and what the pass has seen: its `parts`, the `bytes` of
/// the input, whether it may add items (`writes`), the games that it added (`put`), those that it
/// took (`drawn`), those that were taken at endpoints that `take_up` merged into it (`taken`), and
/// how many ends (signs that no job is left) it added and all these took, `ends_put` and
/// `ends_drawn`.
///
/// The endpoints of a queue have 1024 parts together, a number for contracts alone, and each has
/// one at least. The parts of an endpoint that is dropped are lost, so an endpoint has all 1024
/// only if each that was made from it came back by `take_up`.
#[derive(Drop)]
pub struct Endpoint<'q, 'a> {
    queue: &'q Jobs<'a>,
    pass: Seat<'a>,
}

impl<'q, 'a> Model for Endpoint<'q, 'a> {
    ghost use Rattle.job_core.specs.declared.knowledge.Knowledge.{Knowledge};
    ghost use Rattle.job_core.specs.Inner.Rule.{knowledge_of, IsAtEndpoint};

    ghost Value = { Knowledge };

    ghost view = { λ endpoint. knowledge_of endpoint.pass };

    ghost invariant = { λ endpoint. IsAtEndpoint endpoint.queue.now endpoint.pass };
}

impl<'q, 'a> Endpoint<'q, 'a> {
    /// Makes the reader's endpoint at a new `queue`, for the jobs of the input `bytes`. It takes no
    /// memory. In contracts it has all 1024 parts of the queue, of which `another` gives some away.
    ///
    /// `pass` must be the one that `new_queue` returned with the queue, and unused.
    pub fn open(queue: &'q Jobs<'a>, pass: Seat<'a>, bytes: &'a [u8]) -> Endpoint<'q, 'a>
        requires { IsPassOf queue.now pass × (view pass ≡ blank) }
        ensures { result ≡ reader (id_of queue.now) bytes.now [] }
    {
        let mut pass = pass;
        open(queue, &mut pass, bytes);
        Endpoint { queue, pass }
    }

    /// Makes a worker's endpoint at the queue of `self`, for another thread. It gets one of the
    /// parts of `self`, which must have two at least: in contracts, the endpoints of a queue have
    /// 1024 parts together. It takes no memory.
    pub fn another(&mut self) -> Endpoint<'q, 'a>
        requires { 1 < self.old.parts }
        ensures lent { self.new ≡ record self.old { parts = self.old.parts - 1 } }
        ensures theirs { result ≡ worker self.old.queue self.old.bytes [] }
    {
        let pass = self.queue.another::<Cut>(&mut self.pass);
        Endpoint {
            queue: self.queue,
            pass,
        }
    }

    /// Merges a worker's endpoint `theirs`, at the same queue, into `self`. For contracts `self`
    /// then has the parts of both, and has seen what was taken from the queue at both. It takes no
    /// memory.
    pub fn take_up(&mut self, theirs: Endpoint<'q, 'a>)
        requires queue { theirs.queue ≡ self.old.queue }
        requires draws { theirs.writes ≡ false }
        ensures { self.new ≡ taking_up self.old theirs.entry }
    {
        let Endpoint { queue: _, pass } = theirs;
        self.queue.absorb::<Joined>(&mut self.pass, pass);
    }

    /// Adds an item to the queue. It takes no memory, and may wait for a thread that is in the
    /// middle of a call.
    ///
    /// The reader's endpoint alone may add items. A job must be of the queue's input, the number of
    /// its game above those of all jobs added before, and no end (sign that no job is left) may
    /// have been added before it.
    ///
    /// # Errors
    ///
    /// The item itself, if the queue is full. The endpoint is then as it was.
    pub fn put<R: Wait>(&mut self, rt: &R, item: Item<'a>) -> Result<(), Item<'a>>
        requires { MayPut self.old item }
        ensures { MatchResult result (λ _. self.new ≡ putting self.old item.entry)
            (λ x. (x ≡ item.entry) × (self.new ≡ self.old)) }
    {
        self.queue.push_as::<Puts, R>(rt, &mut self.pass, item)
    }

    /// Takes an item from the queue, or returns None if it finds the queue empty. A job that it
    /// returns is of the queue's input, and the number of its game is above those of all jobs that
    /// this endpoint took before. The items come first in, first out, which the contract does not
    /// state. It takes no memory, and may wait for a thread that is in the middle of a call.
    pub fn draw<R: Wait>(&mut self, rt: &R) -> Option<Item<'a>>
        ensures { MatchOption result (self.new ≡ self.old)
            (λ x. (self.new ≡ drawing self.old x) × Draws self.old x) }
    {
        self.queue.pop_as::<Takes, R>(rt, &mut self.pass)
    }

    /// For proofs: its contract says what holds of the whole queue. This endpoint must have all
    /// 1024 parts (see `Endpoint`). No game was taken more often than it was added. If an end (the
    /// item that says that no job is left) was taken from the queue, each game was taken as often
    /// as it was added. The call changes nothing, and takes no memory.
    pub fn settle(&mut self)
        requires { self.old.parts ≡ all_parts }
        ensures same { self.new ≡ self.old }
        ensures all { 0 < self.old.ends_drawn → (game : ℕ)
            → times_of self.old.put game ≡ times_of (all_drawn self.old) game }
        ensures no_more { (game : ℕ)
            → times_of (all_drawn self.old) game ≤ times_of self.old.put game }
        ensures ends { self.old.ends_drawn ≤ self.old.ends_put }
        ensures none { self.old.put ≡ [] → all_drawn self.old ≡ [] }
    {
        self.queue.learn_as::<Settles>(&mut self.pass);
    }
}
