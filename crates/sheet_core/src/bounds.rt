//! The lower bound of a pattern's ratio of plays: how often it was played, divided by how often it
//! was there.
ghost use Rattle.std.specs.Prelude.{◌≡◌, ◌<◌, ◌≤◌, ◌^◌, IsTrue};
ghost use Rattle.sheet_core.specs.Bounds.{is_enough, is_reached, stepped, bound_from, bound_of};

use shape_dict::Entry;

/// How many parts a ratio of 1 has: bounds are whole numbers of parts.
const PARTS: u64 = 1 << 20;

/// How many steps of bisection find a bound: the first step is half of 1, and each later one half
/// of the step before.
const STEPS: u64 = 20;

/// An excess with which `is_enough` is true whatever the bound; the square of a lesser one can't
/// overflow.
const GREAT: u128 = 1 << 57;

/// Whether `excess` is great enough for Wilson's interval (95 %) to begin at `bound` parts or
/// later, for a pattern that was there `times` times. `excess` is the plays times `PARTS` less
/// `times` times `bound`; its square is compared.
fn is_enough(excess: u128, times: u64, bound: u64) -> bool
    requires bound { bound < 2 ^ 20 }
    ensures { result ≡ is_enough times bound excess }
{
    if excess >= GREAT {
        return true;
    }
    let spread = bound * (PARTS - bound);
    let needed = u128::from(times) * u128::from(spread);
    // For 95 % the interval reaches 49 / 25 = 1.96 standard deviations. Both sides are squared.
    2401 * needed <= 625 * (excess * excess)
}

/// Whether Wilson's interval (95 %) for the ratio `plays` / `times` begins at `bound` parts or
/// later. False if `bound` is a ratio of 1 or more.
#[tactic(auto, unfolding(crate::specs::Bounds::is_reached))]
fn is_reached(times: u64, plays: u64, bound: u64) -> bool
    ensures value { result ≡ is_reached times plays bound }
    ensures small { IsTrue result → bound < 2 ^ 20 }
{
    if bound >= PARTS {
        return false;
    }
    let least = u128::from(times) * u128::from(bound);
    let most = u128::from(plays) * u128::from(PARTS);
    if most < least {
        return false;
    }
    is_enough(most - least, times, bound)
}

/// Returns `bound + step` if Wilson's interval for `plays` / `times` begins there or later, else
/// `bound`.
fn stepped(times: u64, plays: u64, step: u64, bound: u64) -> u64
    requires step { step ≤ 2 ^ 19 }
    requires bound { bound < 2 ^ 20 }
    ensures value { result ≡ stepped times plays step bound }
    ensures small { result < 2 ^ 20 }
{
    let more = bound + step;
    if is_reached(times, plays, more) {
        more
    } else {
        bound
    }
}

/// Returns where Wilson's interval for the ratio `plays` / `times` begins, in parts, rounded down.
/// It is found by bisection.
fn bound_for(times: u64, plays: u64) -> u64
    ensures { result ≡ bound_from 20 times plays (2 ^ 19) 0 }
{
    let mut step: u64 = PARTS / 2;
    let mut bound: u64 = 0;
    for _done in 0..STEPS {
        bound = stepped(times, plays, step, bound);
        step /= 2;
    }
    bound
}

/// Returns the lower bound of an entry's ratio of plays, in parts, rounded down: where Wilson's
/// interval for a chance of 95 % begins. Takes no memory.
#[tactic(auto, unfolding(crate::specs::Bounds::bound_of))]
pub(crate) fn bound_of(entry: &Entry) -> u64
    ensures { result ≡ bound_of entry.now }
{
    bound_for(entry.there.max(1), entry.played)
}
