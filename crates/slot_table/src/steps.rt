//! The steps (atomic operations) that calls take on the words of a shared table, `shared`. Slot n
//! has the words 2n and 2n + 1: the first is 0 if the slot is free, else its key plus 1; the second
//! is its mark, the least game noted there, or 2^64 - 1 if there is none.
ghost use Rattle.std.specs.Prelude.{◌≡◌, ◌-◌, ◌^◌, ◌<◌, [], None, slice_index_or};
ghost use Rattle.probe_core.specs.Machine.{key_of, left_of};
ghost use Rattle.probe_core.specs.Turn.{HasFewer};
ghost use Rattle.slot_table.specs.declared.entries.Happened.TheVariants as entry;
ghost use Rattle.slot_table.specs.History.{content_of, least_at, Tells, IsAtMost};
ghost use Rattle.slot_table.specs.Rule.{parted};
ghost use Rattle.slot_table.specs.Stakes.{half_of};
ghost use Rattle.slot_table.specs.Telling.{IsSeatAt, IsSearch, Stepped, Turned, Grown, Called};
ghost use Rattle.slot_table.specs.Telling.{Joined};
ghost use Rattle.slot_table.specs.Inner.Batches.{loads_at};

use crate::views::{Ask, Cut, First, Glue, Looked, Marked, Place, Shown, Told};
use probe_core::{Answer, Call, Key, Probe, ProbeOrder, Turn, Want};
use std::marker::Brand;

/// Takes the next step of a probe (a call under way) on the shared words, and returns the probe
/// after it, or the call's answer. `seat` is the thread's right to load and change the words. `A`
/// names the call, for proofs alone.
fn turn<A: Ask, O: ProbeOrder>(shared: &Shown<O>, seat: &mut Place<O>, probe: Probe<O>) -> Turn<O>
    requires seat { IsSeatAt O.exponent shared.now seat.old }
    requires probe { (probe.order ≡ shared.now.key) × (probe.machine ≡ A.machine) }
    requires search { IsSearch (2 ^ O.exponent shared.now.key) (O.place_of shared.now.key)
        probe.machine seat.old.me.0.seen }
    ensures seat { IsSeatAt O.exponent shared.now seat.new }
    ensures turned { Turned (2 ^ O.exponent shared.now.key) (O.place_of shared.now.key)
        shared.now.key probe.machine seat.old.me.0 result seat.new.me.0 }
    ensures fewer { HasFewer (2 ^ O.exponent shared.now.key)
        (left_of (2 ^ O.exponent shared.now.key) probe.machine) result }
{
    let found = match probe.wants() {
        Want::Load(place) => shared.load::<Told<A>>(seat, 2 * place),
        Want::Swap { place, value } => {
            shared.compare_exchange::<Told<A>>(seat, 2 * place, 0, value)
        }
    };
    probe.told(found)
}

/// Takes the steps of a probe (a call under way) until the call ends, and returns the answer.
/// `seat` is the thread's right to load and change the words.
pub(crate) fn run<O: ProbeOrder>(shared: &Shown<O>, seat: &mut Place<O>, probe: Probe<O>) -> Answer
    requires seat { IsSeatAt O.exponent shared.now seat.old }
    requires order { probe.order ≡ shared.now.key }
    requires search { IsSearch (2 ^ O.exponent shared.now.key) (O.place_of shared.now.key)
        probe.machine seat.old.me.0.seen }
    ensures seat { IsSeatAt O.exponent shared.now seat.new }
    ensures called { Called (2 ^ O.exponent shared.now.key) seat.old.me.0
        (entry.Asked probe.machine.call result) seat.new.me.0 }
    ensures told { Tells (2 ^ O.exponent shared.now.key) seat.new.me.0.seen probe.machine.call
        result }
{
    let mut probe = probe;
    loop {
        match turn::<Brand, O>(shared, seat, probe) {
            Turn::On(next) => probe = next,
            Turn::Done(answer) => return answer,
        }
    }
}

/// Makes a call (enters or looks up a key), takes all its steps and returns the answer. Slots are
/// probed in the table's `order`. `seat` is the thread's right to load and change the words.
pub(crate) fn asked<O: ProbeOrder>(
    shared: &Shown<O>,
    seat: &mut Place<O>,
    order: &O,
    call: Call,
) -> Answer
    requires seat { IsSeatAt O.exponent shared.now seat.old }
    requires order { order.now ≡ shared.now.key }
    requires small { key_of call < 2 ^ 51 }
    ensures seat { IsSeatAt O.exponent shared.now seat.new }
    ensures called { Called (2 ^ O.exponent shared.now.key) seat.old.me.0 (entry.Asked call result)
        seat.new.me.0 }
    ensures told { Tells (2 ^ O.exponent shared.now.key) seat.new.me.0.seen call result }
{
    run(shared, seat, Probe::begin(order, call))
}

/// Loads the first word of the slot at this `index` of the key's probe order, and returns it: 0 if
/// the slot is free, else its key plus 1. In proofs the load is a step of a call that enters `key`,
/// which `A` stands for (see `Ask`). `seat` is the thread's right to load and change the words.
pub(crate) fn look<A: Ask, O: ProbeOrder>(
    shared: &Shown<O>,
    seat: &mut Place<O>,
    order: &O,
    key: Key,
    index: usize,
) -> u64
    requires seat { IsSeatAt O.exponent shared.now seat.old }
    requires order { order.now ≡ shared.now.key }
    requires machine { A.machine ≡ loads_at key index }
    requires search { IsSearch (2 ^ O.exponent shared.now.key) (O.place_of shared.now.key)
        (loads_at key index) seat.old.me.0.seen }
    ensures seat { IsSeatAt O.exponent shared.now seat.new }
    ensures stepped { Stepped (2 ^ O.exponent shared.now.key) (loads_at key index)
        (O.place_of shared.now.key key index) result seat.old.me.0 seat.new.me.0 }
{
    shared.load::<Told<A>>(seat, 2 * order.place(key, index))
}

/// Loads the word of the slot `number`, as part of no call, and returns its key, or None if the
/// slot is free. `seat` is the thread's right to load and change the words.
pub(crate) fn word_at<O: ProbeOrder>(
    shared: &Shown<O>,
    seat: &mut Place<O>,
    number: usize,
) -> Option<Key>
    requires seat { IsSeatAt O.exponent shared.now seat.old }
    requires number { number < 2 ^ O.exponent shared.now.key }
    ensures seat { IsSeatAt O.exponent shared.now seat.new }
    ensures seen { (longest : _) × Grown (2 ^ O.exponent shared.now.key) seat.old.me.0 longest []
        seat.new.me.0 }
    ensures key { result ≡ slice_index_or (content_of (2 ^ O.exponent shared.now.key)
        seat.new.me.0.seen) number None }
{
    let found = shared.load::<Looked>(seat, 2 * number);
    if found == 0 {
        None
    } else {
        Key::new(found - 1)
    }
}

/// Splits a thread's seat (its right to load and change the words), and returns the new one. For
/// proofs it has seen the same calls, and gets half of the first piece of the stake (the seat's
/// part of the right to call the table).
pub(crate) fn split<O: ProbeOrder>(shared: &Shown<O>, seat: &mut Place<O>) -> Place<O>
    requires { IsSeatAt O.exponent shared.now seat.old }
    ensures same { (seat.new.table_id ≡ seat.old.table_id)
        × (seat.new.me ≡ (parted seat.old.me.0, seat.old.me.1)) }
    ensures seat { IsSeatAt O.exponent shared.now result }
    ensures view { (result.me.0.seen ≡ seat.old.me.0.seen) × (result.me.0.mine ≡ []) }
    ensures stake { result.me.0.stake ≡ half_of seat.old.me.0.stake }
{
    shared.split_seat::<Cut>(seat)
}

/// Merges the seat `other` (a right to load and change the words) into `seat`: for proofs, also the
/// calls that it has seen or made, and its stake (its part of the right to call the table).
pub(crate) fn meet<O: ProbeOrder>(shared: &Shown<O>, seat: &mut Place<O>, other: Place<O>)
    requires seat { IsSeatAt O.exponent shared.now seat.old }
    requires other { IsSeatAt O.exponent shared.now other }
    ensures seat { IsSeatAt O.exponent shared.now seat.new }
    ensures joined { Joined (2 ^ O.exponent shared.now.key) seat.old.me.0 other.me.0 seat.new.me.0 }
{
    shared.join_seat::<Glue>(seat, other);
    // For the proof: at its next step, this load, the seat takes over what the other one has seen.
    shared.load::<Looked>(seat, 0);
}

/// Notes a game in the slot `number`: the slot's mark word becomes `game` if that is less. `seat`
/// is the thread's right to load and change the words.
pub(crate) fn mark<O: ProbeOrder>(shared: &Shown<O>, seat: &mut Place<O>, number: usize, game: u64)
    requires seat { IsSeatAt O.exponent shared.now seat.old }
    requires number { number < 2 ^ O.exponent shared.now.key }
    requires game { game < 2 ^ 64 - 1 }
    ensures seat { IsSeatAt O.exponent shared.now seat.new }
    ensures called { Called (2 ^ O.exponent shared.now.key) seat.old.me.0
        (entry.Marked number game) seat.new.me.0 }
    ensures least { IsAtMost (least_at number seat.new.me.0.seen) game }
{
    shared.fetch_min::<Marked>(seat, 2 * number + 1, game);
}

/// Returns the least game that was marked in the slot `number`, or None if none was. `seat` is the
/// thread's right to load and change the words.
pub(crate) fn first<O: ProbeOrder>(
    shared: &Shown<O>,
    seat: &mut Place<O>,
    number: usize,
) -> Option<u64>
    requires seat { IsSeatAt O.exponent shared.now seat.old }
    requires number { number < 2 ^ O.exponent shared.now.key }
    ensures seat { IsSeatAt O.exponent shared.now seat.new }
    ensures called { Called (2 ^ O.exponent shared.now.key) seat.old.me.0
        (entry.First number result) seat.new.me.0 }
    ensures least { result ≡ least_at number seat.new.me.0.seen }
{
    let found = shared.load::<First>(seat, 2 * number + 1);
    if found == u64::MAX { None } else { Some(found) }
}
