//! Steps on a table's words (one a slot): a load or a compare-exchange, and what follows it.
ghost use Rattle.std.specs.Prelude.{◌≡◌, ◌<◌, ◌≤◌, ◌^◌, length, slice_index};
ghost use Rattle.probe_core.specs.Machine.{place_wanted, follows, place_in, left_of};
ghost use Rattle.probe_core.specs.Inner.Machine.{words_wanted};
ghost use Rattle.probe_core.specs.Turn.{turn_of, HasFewer};
ghost use Rattle.probe_core.specs.World.{words_after};

use crate::calls::Want;
use crate::orders::ProbeOrder;
use crate::probes::{Probe, Turn};

/// Takes the step `want` on the words, and returns what the slot's word held before it. A
/// compare-exchange stores its value only if that was 0.
fn take_step(words: &mut [u64], want: Want) -> u64
    requires { place_wanted want < length words.old }
    ensures held { result ≡ slice_index words.old (place_wanted want) }
    ensures words { words.new ≡ words_wanted words.old want }
{
    match want {
        Want::Load(place) => words[place],
        Want::Swap { place, value } => {
            let held = words[place];
            if held == 0 {
                words[place] = value;
            }
            held
        }
    }
}

/// Takes the next step of a probe (a call under way) on the words, and returns the probe after it,
/// or the call's answer. There must be a word for each slot.
pub(crate) fn advance<O: ProbeOrder>(words: &mut [u64], probe: Probe<O>) -> Turn<O>
    requires { 2 ^ O.exponent probe.order ≤ length words.old }
    ensures words { words.new ≡ words_after words.old probe.machine
        (place_in (O.place_of probe.order) probe.machine) }
    ensures turn { let place = place_in (O.place_of probe.order) probe.machine
        in result ≡ turn_of probe.order (follows (2 ^ O.exponent probe.order) probe.machine place
        (slice_index words.old place)) }
    ensures fewer { HasFewer (2 ^ O.exponent probe.order)
        (left_of (2 ^ O.exponent probe.order) probe.machine) result }
{
    let held = take_step(words, probe.wants());
    probe.told(held)
}

/// Takes the next step of a probe (a call under way) without changing the words: it only reads the
/// slot's word. Returns the probe after it, or the call's answer. There must be a word for each
/// slot.
pub(crate) fn look<O: ProbeOrder>(words: &[u64], probe: Probe<O>) -> Turn<O>
    requires { 2 ^ O.exponent probe.order ≤ length words.now }
    ensures turn { let place = place_in (O.place_of probe.order) probe.machine
        in result ≡ turn_of probe.order (follows (2 ^ O.exponent probe.order) probe.machine place
        (slice_index words.now place)) }
    ensures fewer { HasFewer (2 ^ O.exponent probe.order)
        (left_of (2 ^ O.exponent probe.order) probe.machine) result }
{
    let place = wanted_place(probe.wants());
    probe.told(words[place])
}

/// Returns the index of the slot on which a step is taken.
fn wanted_place(want: Want) -> usize
    ensures { result ≡ place_wanted want }
{
    match want {
        Want::Load(place) | Want::Swap { place, .. } => place,
    }
}
