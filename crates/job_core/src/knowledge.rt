//! For contracts: what each pass (a thread's right to call the queue) has seen, and the queue's
//! rule. In proofs a queue has 1024 parts, and each of them belongs to one pass at most.
ghost use Rattle.std.specs.Prelude.{◌≡◌, ⊤};

use crate::items::Item;
use crossbeam_queue::protocol::{Join, Lesson, Outcome, Protocol, Split};
use crossbeam_queue::{Pass, RuledArrayQueue};
use std::collections::LinkedList;
use std::marker::{Brand, Model, PhantomData};

/// Tells one queue of jobs from every other in contracts: no two queues have the same value. Used
/// in contracts only; no code makes one.
pub struct QueueName;

impl Model for QueueName {
    ghost use Rattle.atomic_table.specs.Seated.{TableId, table_id_coded};
    ghost use Rattle.job_core.specs.Which.{nowhere};

    ghost Value = { TableId };

    ghost coded = { table_id_coded };

    ghost view = { λ _. nowhere };
}

/// What a pass (a thread's right to call the queue) has seen of the queue's calls. Used in
/// contracts only; no code makes one. It has the `queue` and the input's `bytes`, once these are
/// `named`, and whether it may add items (`writes`). It has the games that it added (`put`), those
/// that it took from the queue (`drawn`), and those that other passes took, appended when these
/// passes were merged into it (`taken`). It has how many ends (signs that no job is left) it added
/// (`ends_put`), and how many it and these passes took (`ends_drawn`). `parts` is how many of the
/// queue's 1024 parts it has; only a pass with all of them is known to have seen all that was added
/// and taken.
pub struct Knowledge {
    pub queue: QueueName,
    pub parts: u64,
    pub named: bool,
    pub writes: bool,
    pub bytes: LinkedList<u8>,
    pub put: LinkedList<u64>,
    pub drawn: LinkedList<u64>,
    pub taken: LinkedList<u64>,
    pub ends_put: u64,
    pub ends_drawn: u64,
}

/// The rule of the queue. Used in contracts only; no code makes one. All passes (rights to call the
/// queue) are for one input, and each queued job is of it. The numbers of the queued games rise;
/// each is above every game that was taken, and none is above the last that was added. Nothing is
/// lost: what all passes together added was taken or is queued. No job comes after an end, the sign
/// that no job is left.
pub struct InTurn;

impl<'a> Protocol<Item<'a>, Knowledge> for InTurn {
    ghost use Rattle.job_core.specs.Rule.{blank};
    ghost use Rattle.job_core.specs.Queue.{Holds};

    ghost holds = { Holds };

    ghost first = { blank };
}

/// A queue of jobs, which threads share.
pub type Jobs<'a> = RuledArrayQueue<Item<'a>, Knowledge, InTurn>;

/// A pass of a queue of jobs: the right of one thread to call it.
pub type Seat<'a> = Pass<Item<'a>, Knowledge>;

/// The rule by which what a pass (a thread's right to call the queue) has seen changes when it adds
/// an item. Used in contracts only; no code makes one.
pub(crate) struct Puts;

impl<'a> Outcome<Item<'a>, Knowledge> for Puts {
    ghost use Rattle.std.specs.Prelude.{◌≡◌};
    ghost use Rattle.job_core.specs.Rule.{putting};

    ghost then = { λ v x w. w ≡ putting v x };
}

impl<'a> Lesson<Item<'a>, Knowledge> for Puts {
    ghost fact = { λ v items. ⊤ };
}

/// The rule by which what a pass (a thread's right to call the queue) has seen changes when it
/// takes an item from the queue. Used in contracts only; no code makes one.
pub(crate) struct Takes;

impl<'a> Outcome<Item<'a>, Knowledge> for Takes {
    ghost use Rattle.std.specs.Prelude.{◌≡◌};
    ghost use Rattle.job_core.specs.Rule.{drawing, Draws};

    ghost then = { λ v x w. (w ≡ drawing v x) × Draws v x };
}

impl<'a> Lesson<Item<'a>, Knowledge> for Takes {
    ghost fact = { λ v items. ⊤ };
}

/// The rule by which a pass (a thread's right to call the queue) learns, in proofs, what holds of
/// the whole queue, for example that no game was taken more often than it was added. It asks for
/// all 1024 parts of the queue's endpoints: then no other endpoint is left. Used in contracts only;
/// no code makes one.
pub(crate) struct Settles;

impl<'a> Lesson<Item<'a>, Knowledge> for Settles {
    ghost use Rattle.job_core.specs.Inner.Rule.{IsSettled};

    ghost fact = { λ v items. IsSettled v };
}

/// A type that stands for a queue and an input. Used in contracts only.
pub(crate) trait Input {
    ghost use Rattle.std.specs.Prelude.{ℕ, List};
    ghost use Rattle.atomic_table.specs.Seated.{TableId};

    ghost queue: { TableId };

    ghost bytes: { List ℕ };
}

impl Input for Brand {
    ghost use Rattle.std.specs.Prelude.{[]};
    ghost use Rattle.job_core.specs.Which.{nowhere};

    ghost queue = { nowhere };

    ghost bytes = { [] };
}

/// The rule for the split of a queue's first pass (a thread's right to call the queue) in two: one
/// becomes the reader's, with the queue and the input that `B` stands for, and the other has no
/// part of the queue. Used in contracts only; no code makes one.
pub(crate) struct Names<B> {
    input: PhantomData<B>,
}

impl<B: Input> Split<Knowledge> for Names<B> {
    ghost use Rattle.std.specs.Prelude.{[]};
    ghost use Rattle.job_core.specs.Rule.{reader, spent};

    ghost left = { λ v. reader B.queue B.bytes [] };

    ghost right = { λ v. spent };
}

/// The split of a pass (a thread's right to call the queue) in which one of its parts goes to a new
/// pass, a worker's. Used in contracts only; no code makes one.
pub(crate) struct Cut;

impl Split<Knowledge> for Cut {
    ghost use Rattle.std.specs.Prelude.{[]};
    ghost use Rattle.job_core.specs.Rule.{lending, worker};

    ghost left = { lending };

    ghost right = { λ v. worker v.queue v.bytes [] };
}

/// The rule by which a pass (a thread's right to call the queue) takes over another one's parts of
/// the queue, and knows from then on what that one took from it. Used in contracts only; no code
/// makes one.
pub(crate) struct Joined;

impl Join<Knowledge> for Joined {
    ghost use Rattle.job_core.specs.Rule.{taking_up, spent};

    ghost both = { taking_up };

    ghost spent = { spent };
}
