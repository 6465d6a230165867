//! The table that gives numbers (indices of slots) to keys, with its calls for threads. The least
//! game of a number is the least of the games (by their numbers) that were marked there.
ghost use Rattle.std.specs.Prelude.{◌≡◌, ◌-◌, ◌*◌, ◌^◌, ◌<◌, [], ◌∷◌, IfOk, None, true, length};
ghost use Rattle.std.specs.Prelude.{slice_index_or};
ghost use Rattle.std.specs.List.{repeat};
ghost use Rattle.probe_core.specs.declared.calls.Call.TheVariants as call;
ghost use Rattle.probe_core.specs.declared.calls.Answer.TheVariants as answer;
ghost use Rattle.probe_core.specs.Machine.{key_of};
ghost use Rattle.slot_table.specs.Batches.{IsTold};
ghost use Rattle.slot_table.specs.declared.entries.Happened.TheVariants as entry;
ghost use Rattle.slot_table.specs.History.{content_of, least_at, Tells, TellsAt, IsAtMost};
ghost use Rattle.slot_table.specs.Passes.{IsPassOf, IsLater, IsAlone, calls_of, Saw, Made, Met};
ghost use Rattle.slot_table.specs.Stakes.{halved, half_of};
ghost use Rattle.slot_table.specs.Telling.{PassedOthers, entries_of};
ghost use Rattle.slot_table.specs.Inner.Batches.{followed, IsLooked, rest_of, IsAnswerOf};

use crate::batches::Look;
use crate::faults::SlotFault;
use crate::passes::Pass;
use crate::steps;
use crate::views::Words;
use atomic_table::Table;
use probe_core::{Answer, Call, Capacity, Key, Probe, ProbeOrder, Turn};
use std::alloc::{AllocError, Global};
use std::marker::{Brand, Model};

/// A hash table, shared by threads, that gives a number (the index of a slot) to each key that is
/// entered, and keeps the least game that was marked at each number (noted there by `mark`). This
/// table is the project's own design.
///
/// Each key gets a number when it is first entered, and keeps it for ever. The word of a number's
/// key and that of its least game lie side by side, so mostly in one cache line. Contracts see
/// which table it is, its order, and how many slots it has.
#[derive(Drop)]
pub struct SlotTable<O: ProbeOrder> {
    words: Words<O>,
    order: O,
}

impl<O: ProbeOrder> Model for SlotTable<O> {
    ghost use Rattle.std.specs.Prelude.{◌≡◌, ◌*◌, ◌^◌, ◌≤◌};
    ghost use Rattle.slot_table.specs.Passes.{Numbers};

    ghost Value = { Numbers O };

    ghost view = { λ t. record {
      table = t.words.shared.table_id;
      order = t.order;
      slots = 2 ^ O.exponent t.order;
    } };

    ghost invariant = { λ t. (t.words.shared.key ≡ t.order)
        × (t.words.shared.table_id.words ≡ 2 * 2 ^ O.exponent t.order)
        × (2 ^ O.exponent t.order ≤ 2 ^ 22) };
}

/// The words of this many slots are made one by one, and those of all others are copied from them.
const COPIED_SLOTS: usize = 1024;

/// Returns the words of a table with `slots` slots in which no slot is taken and no game is marked.
/// The two words of a slot lie side by side: that of its key, and then that of its least game.
/// `AllocError` if memory was refused.
fn free_words(alloc: Global, slots: usize) -> Result<Vec<u64>, AllocError>
    ensures length { IfOk result (λ v. length v.items ≡ 2 * slots) }
    ensures items { IfOk result (λ v. v.items ≡ repeat slots (0 ∷ 0xFFFF_FFFF_FFFF_FFFF ∷ [])) }
{
    let free = [0, u64::MAX];
    let run = free.repeat(alloc, COPIED_SLOTS)?;
    let mut words = run.as_slice().repeat(alloc, slots / COPIED_SLOTS)?;
    let mut rest = free.repeat(alloc, slots % COPIED_SLOTS)?;
    words.append(&mut rest)?;
    Ok(words)
}

impl<O: ProbeOrder> SlotTable<O> {
    /// Makes a table in which no number is taken, and its first pass, which is the whole right to
    /// call the table. `order` says how many slots it has, and in which order they are probed.
    ///
    /// It takes 16 bytes a number, and for a moment twice as much.
    ///
    /// # Errors
    ///
    /// `Memory` if memory was refused; then nothing is kept.
    pub fn new(alloc: Global, order: O) -> Result<(SlotTable<O>, Pass<O>), SlotFault>
        ensures order { IfOk result (λ r. r.0.order ≡ order) }
        ensures slots { IfOk result (λ r. r.0.slots ≡ 2 ^ O.exponent order) }
        ensures pass { IfOk result (λ r. IsPassOf r.0 r.1) }
        ensures seen { IfOk result (λ r. r.1.seen ≡ []) }
        ensures mine { IfOk result (λ r. r.1.mine ≡ []) }
        ensures calls { IfOk result (λ r. calls_of r.1 ≡ []) }
        ensures stake { IfOk result (λ r. r.1.stake ≡ 0 ∷ []) }
    {
        let slots = order.capacity().slots();
        let free = free_words(alloc, slots)?;
        let (words, seat) = Table::of_words(alloc, free.as_slice(), &order)?;
        Ok((SlotTable { words, order }, Pass { seat }))
    }

    /// Returns the number of slots, and so of numbers. It takes no pass and no memory.
    pub fn capacity(&self) -> Capacity
        ensures order { result ≡ O.exponent self.now.order }
        ensures slots { 2 ^ result ≡ self.now.slots }
    {
        self.order.capacity()
    }

    /// Splits a new pass off `pass` (a caller's right to call the table), for another thread. For
    /// proofs the new pass has seen the calls that `pass` has seen, and has made no call. It takes
    /// no memory.
    ///
    /// The stake of `pass` (how much of the whole right it is) is a list of pieces, each 1/2^e of
    /// that right for some e. The new pass has a half of its first piece, and `pass` keeps the
    /// rest. Only `meet` and `absorb` give the half back, with the calls that were made by the new
    /// pass.
    ///
    /// The pass must be of this table.
    pub fn split(&self, pass: &mut Pass<O>) -> Pass<O>
        requires { IsPassOf self.now pass.old }
        ensures same { pass.new ≡ record pass.old { stake = halved pass.old.stake } }
        ensures still { IsPassOf self.now pass.new }
        ensures pass { IsPassOf self.now result }
        ensures seen { result.seen ≡ pass.old.seen }
        ensures mine { result.mine ≡ [] }
        ensures calls { calls_of result ≡ [] }
        ensures stake { result.stake ≡ half_of pass.old.stake }
    {
        Pass {
            seat: steps::split(&self.words.shared, &mut pass.seat),
        }
    }

    /// Makes a call (enters or looks up a key), takes all its steps and returns the answer. `pass`,
    /// the right to call the table, must be of this table.
    fn ask(&self, pass: &mut Pass<O>, call: Call) -> Answer
        requires pass { IsPassOf self.now pass.old }
        requires small { key_of call < 2 ^ 51 }
        ensures pass { IsPassOf self.now pass.new }
        ensures made { Made self.now.slots pass.old (entry.Asked call result) pass.new }
        ensures later { IsLater self.now.slots pass.old (entry.Asked call result ∷ []) pass.new }
        ensures alone { IsAlone pass.new }
        ensures told { Tells self.now.slots pass.new.seen call result }
    {
        steps::asked(&self.words.shared, &mut pass.seat, &self.order, call)
    }

    /// Returns the key's number (the index of its slot). If the key has none, it gets a free number
    /// and keeps it; if none is free, the answer is `Full`. It takes no memory and waits for no
    /// other thread.
    ///
    /// The pass (the right to call the table) must be of this table.
    pub fn enter(&self, pass: &mut Pass<O>, key: Key) -> Answer
        requires { IsPassOf self.now pass.old }
        ensures pass { IsPassOf self.now pass.new }
        ensures made { Made self.now.slots pass.old (entry.Asked (call.Enter key) result) pass.new }
        ensures later { IsLater self.now.slots pass.old (entry.Asked (call.Enter key) result ∷ [])
            pass.new }
        ensures alone { IsAlone pass.new }
        ensures told { Tells self.now.slots pass.new.seen (call.Enter key) result }
    {
        self.ask(pass, Call::Enter(key))
    }

    /// Returns the key's number (the index of its slot), and changes nothing. If the key has none,
    /// the answer is `Absent` if some number is free, else `Full`. It takes no memory and waits for
    /// no other thread.
    ///
    /// The pass (the right to call the table) must be of this table.
    pub fn look_up(&self, pass: &mut Pass<O>, key: Key) -> Answer
        requires { IsPassOf self.now pass.old }
        ensures pass { IsPassOf self.now pass.new }
        ensures made { Made self.now.slots pass.old (entry.Asked (call.LookUp key) result)
            pass.new }
        ensures later { IsLater self.now.slots pass.old (entry.Asked (call.LookUp key) result ∷ [])
            pass.new }
        ensures alone { IsAlone pass.new }
        ensures told { Tells self.now.slots pass.new.seen (call.LookUp key) result }
    {
        self.ask(pass, Call::LookUp(key))
    }

    /// Loads the slot at this `index` of the key's probe order, as a step of the key's `enter`, and
    /// returns the index with the word found there. The slots at lesser indices must have other
    /// keys.
    pub(crate) fn look(&self, pass: &mut Pass<O>, key: Key, index: usize) -> Look
        requires pass { IsPassOf self.now pass.old }
        requires index { index < self.now.slots }
        requires passed { PassedOthers (O.place_of self.now.order key)
            (content_of self.now.slots pass.old.seen) key index }
        ensures pass { IsPassOf self.now pass.new }
        ensures later { IsLater self.now.slots pass.old
            (entries_of (call.Enter key) (followed self.now.slots
            (O.place_of self.now.order) key result)) pass.new }
        ensures alone { IsAlone pass.new }
        ensures looked { IsLooked self.now.slots (O.place_of self.now.order)
            pass.new.seen key result }
    {
        let word = steps::look::<Brand, O>(
            &self.words.shared,
            &mut pass.seat,
            &self.order,
            key,
            index,
        );
        Look { index, word }
    }

    /// Finishes the key's `enter` from `look`, its last load, and returns its answer. If that load
    /// gives no answer, and `full` says that no number was free for an earlier key, the answer is
    /// `Absent`, and nothing is entered.
    pub(crate) fn go_on(&self, pass: &mut Pass<O>, key: Key, look: Look, full: bool) -> Answer
        requires pass { IsPassOf self.now pass.old }
        requires looked { IsLooked self.now.slots (O.place_of self.now.order)
            pass.old.seen key look }
        ensures pass { IsPassOf self.now pass.new }
        ensures later { IsLater self.now.slots pass.old
            (rest_of key (followed self.now.slots (O.place_of self.now.order)
            key look) result) pass.new }
        ensures answer { IsAnswerOf (followed self.now.slots
            (O.place_of self.now.order) key look) result }
        ensures told { IsTold self.now.slots pass.new.seen key result }
        ensures left { result ≡ answer.Absent → full ≡ true }
    {
        let probe = Probe::at(&self.order, Call::Enter(key), look.index);
        match probe.told(look.word) {
            Turn::On(_) if full => Answer::Absent,
            Turn::On(next) => steps::run(&self.words.shared, &mut pass.seat, next),
            Turn::Done(answer) => answer,
        }
    }

    /// Returns the key that has this number, or None if the number is free, by one load. It takes
    /// no memory and waits for no other thread.
    ///
    /// The pass (the right to call the table) must be of this table, and the number below the
    /// number of slots.
    pub fn word_at(&self, pass: &mut Pass<O>, number: usize) -> Option<Key>
        requires pass { IsPassOf self.now pass.old }
        requires number { number < self.now.slots }
        ensures pass { IsPassOf self.now pass.new }
        ensures saw { Saw self.now.slots pass.old pass.new }
        ensures later { IsLater self.now.slots pass.old [] pass.new }
        ensures alone { IsAlone pass.new }
        ensures key { result ≡
            slice_index_or (content_of self.now.slots pass.new.seen) number None }
        ensures told { TellsAt self.now.slots pass.new.seen number result }
    {
        steps::word_at(&self.words.shared, &mut pass.seat, number)
    }

    /// Merges two passes (rights to call the table) into one. For proofs it has seen the calls that
    /// both have seen, its own calls are those of both, and its stake (how much of the whole right
    /// it is) is both stakes. It takes no memory and waits for no other thread.
    ///
    /// The passes must be of this table.
    pub fn meet(&self, one: Pass<O>, other: Pass<O>) -> Pass<O>
        requires one { IsPassOf self.now one }
        requires other { IsPassOf self.now other }
        ensures pass { IsPassOf self.now result }
        ensures met { Met self.now.slots one other result }
        ensures alone { IsAlone result }
    {
        let mut both = one;
        self.absorb(&mut both, other);
        both
    }

    /// Merges the pass `other` (a right to call the table) into `pass`. For proofs `pass` then has
    /// seen the calls that both have seen, its own calls are those of both, and its stake (how much
    /// of the whole right it is) is both stakes. It takes no memory and waits for no other thread.
    ///
    /// The passes must be of this table.
    pub fn absorb(&self, pass: &mut Pass<O>, other: Pass<O>)
        requires pass { IsPassOf self.now pass.old }
        requires other { IsPassOf self.now other }
        ensures pass { IsPassOf self.now pass.new }
        ensures met { Met self.now.slots pass.old other pass.new }
        ensures alone { IsAlone pass.new }
    {
        let Pass { seat: other } = other;
        steps::meet(&self.words.shared, &mut pass.seat, other);
    }

    /// Marks a game at a number (a slot), by one atomic step: the number's least game becomes
    /// `game` if it had none or a greater one. It takes no memory and waits for no other thread.
    ///
    /// The pass (the right to call the table) must be of this table, the number below the number of
    /// slots, and the game not 2^64 - 1. The number need not be taken.
    pub fn mark(&self, pass: &mut Pass<O>, number: usize, game: u64)
        requires pass { IsPassOf self.now pass.old }
        requires number { number < self.now.slots }
        requires game { game < 2 ^ 64 - 1 }
        ensures pass { IsPassOf self.now pass.new }
        ensures made { Made self.now.slots pass.old (entry.Marked number game) pass.new }
        ensures later { IsLater self.now.slots pass.old (entry.Marked number game ∷ []) pass.new }
        ensures alone { IsAlone pass.new }
        ensures least { IsAtMost (least_at number pass.new.seen) game }
    {
        steps::mark(&self.words.shared, &mut pass.seat, number, game);
    }

    /// Returns the least game that was marked at the number (a slot) by `mark`, or None if none
    /// was, by one load. It takes no memory and waits for no other thread.
    ///
    /// The pass (the right to call the table) must be of this table, and the number below the
    /// number of slots. The number need not be taken.
    pub fn first(&self, pass: &mut Pass<O>, number: usize) -> Option<u64>
        requires pass { IsPassOf self.now pass.old }
        requires number { number < self.now.slots }
        ensures pass { IsPassOf self.now pass.new }
        ensures made { Made self.now.slots pass.old (entry.First number result) pass.new }
        ensures later { IsLater self.now.slots pass.old (entry.First number result ∷ []) pass.new }
        ensures alone { IsAlone pass.new }
        ensures least { result ≡ least_at number pass.new.seen }
    {
        steps::first(&self.words.shared, &mut pass.seat, number)
    }
}
