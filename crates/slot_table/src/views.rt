//! For proofs: what each seat at the table (a thread's right to step on its words) has seen, the
//! rule that ties that to the words, and what each step adds to it.
use crate::entries::Happened;
use atomic_table::{Join, Play, Seat, Shared, Split, Table, TableRule};
use probe_core::ProbeOrder;
use std::alloc::Global;
use std::collections::LinkedList;
use std::marker::{Brand, PhantomData};

/// What a seat (a thread's right to step on the table's words) has seen of the table. Used in
/// contracts only; no code makes one.
pub struct View<O> {
    /// The order in which slots are probed; None once this view was merged into another.
    pub order: Option<O>,
    /// A history of the table (its calls with their answers), as far as the seat has seen it.
    pub seen: LinkedList<Happened>,
    /// The indices, in `seen`, of the seat's own calls.
    pub mine: LinkedList<usize>,
    /// The history that another seat had seen, if it was merged into this one since this one's last
    /// step; else empty.
    pub met: LinkedList<Happened>,
    /// The seat's stake: pieces of the whole right to call the table, e for the part 1/2^e.
    pub stake: LinkedList<usize>,
}

/// The invariant of a table, for proofs: there is one history of calls that agrees with its words
/// and with what all seats (threads' rights to step on them) have seen.
pub(crate) struct OneHistory;

impl<O: ProbeOrder> TableRule<(), View<O>, O> for OneHistory {
    ghost use Rattle.std.specs.Prelude.{◌^◌, []};
    ghost use Rattle.slot_table.specs.Rule.{Kept, newcomer};

    ghost holds = { λ order s.
        Kept (2 ^ O.exponent order) (O.place_of order) order s.words s.views };

    ghost first = { λ order. newcomer order [] };
}

/// The table's words, two a slot, with the memory that they are in, as the table owns them.
pub(crate) type Words<O> = Table<(), View<O>, O, OneHistory, Global>;

/// The table's words as threads share them.
pub(crate) type Shown<O> = Shared<(), View<O>, O, OneHistory>;

/// A thread's seat at a table: its right to load and change the words, one atomic
/// step at a time. What it has seen by them is there for proofs.
pub(crate) type Place<O> = Seat<(), View<O>>;

/// Names the call of which a step is taken, and how far it is (`machine`). Used in contracts only.
pub(crate) trait Ask {
    ghost use Rattle.probe_core.specs.Machine.{Machine};

    ghost machine: { Machine };
}

impl Ask for Brand {
    ghost use Rattle.probe_core.specs.Machine.{begun};
    ghost use Rattle.probe_core.specs.declared.calls.Call.TheVariants.{LookUp};

    ghost machine = { begun (LookUp 0) };
}

/// In proofs, a step of an `enter` or `look_up`: from the word that it found, the call ends
/// or goes on. `A` is the step.
pub(crate) struct Told<A> {
    asked: PhantomData<A>,
}

impl<O: ProbeOrder, A: Ask> Play<(), View<O>> for Told<A> {
    ghost use Rattle.slot_table.specs.Telling.{told};

    ghost then = { told O.exponent A.machine };
}

/// In proofs, a load that is part of no call in the table's history.
pub(crate) struct Looked;

impl<O: ProbeOrder> Play<(), View<O>> for Looked {
    ghost use Rattle.slot_table.specs.Telling.{looked};

    ghost then = { looked O.exponent };
}

/// In proofs, a step that lowers a slot's least game.
pub(crate) struct Marked;

impl<O: ProbeOrder> Play<(), View<O>> for Marked {
    ghost use Rattle.slot_table.specs.Telling.{marked};

    ghost then = { marked O.exponent };
}

/// In proofs, a load of a slot's least game.
pub(crate) struct First;

impl<O: ProbeOrder> Play<(), View<O>> for First {
    ghost use Rattle.slot_table.specs.Telling.{first_told};

    ghost then = { first_told O.exponent };
}

/// How a seat's view is split, for proofs: the old seat keeps it, except for a half of the first
/// piece of its stake (its part of the right to call the table). The new seat has seen the same
/// calls, has made none, and has that half.
pub(crate) struct Cut;

impl<O> Split<View<O>> for Cut {
    ghost use Rattle.slot_table.specs.Rule.{cut_off, parted};

    ghost left = { parted };

    ghost right = { cut_off };
}

/// How the views of two seats are merged, for proofs: the first gets what both have, and the second
/// has nothing left.
pub(crate) struct Glue;

impl<O> Join<View<O>> for Glue {
    ghost use Rattle.slot_table.specs.Rule.{joined, spent};

    ghost both = { joined };

    ghost spent = { spent };
}
