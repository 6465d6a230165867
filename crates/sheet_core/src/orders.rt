//! The orders in which patterns are chosen.
ghost use Rattle.std.specs.Prelude.{◌≡◌};
ghost use Rattle.std.specs.Ordering.{is_lt};
ghost use Rattle.sheet_core.specs.Orders.{worth_of, scale_of};
ghost use Rattle.sheet_core.specs.Inner.Orders.{goes_before};

use crate::bounds::bound_of;
use shape_dict::Entry;
use std::cmp::Ordering;

/// The order of a sheet's patterns: what the first of them have most of.
#[derive(Clone, Copy, Debug, PartialEq, Eq)]
pub enum Order {
    /// Plays: times that the pattern was played.
    Played,
    /// Plays for each time that the pattern was there.
    Urgency,
    /// Times that the pattern was there.
    There,
    /// The lower bound of plays for each time that the pattern was there, for a chance of 95 %.
    Bound,
}

/// Returns the number that `order` compares, as a numerator and a denominator, which is not 0.
fn fraction(order: Order, entry: &Entry) -> (u64, u64)
    ensures worth { result.0 ≡ worth_of order entry.now }
    ensures scale { result.1 ≡ scale_of order entry.now }
{
    match order {
        Order::Played => (entry.played, 1),
        Order::Urgency => (entry.played, entry.there.max(1)),
        Order::There => (entry.there, 1),
        Order::Bound => (bound_of(entry), 1),
    }
}

/// Returns `Less` if the left pattern stands before the right one: if its number by `order` is
/// greater, or is equal and its word is less. Exact fractions are compared. Takes no memory.
pub(crate) fn compare(order: Order, left: &Entry, right: &Entry) -> Ordering
    ensures { is_lt result ≡ goes_before order left.now right.now }
{
    let (worth, scale) = fraction(order, left);
    let (other_worth, other_scale) = fraction(order, right);
    let more = u128::from(worth) * u128::from(other_scale);
    let other_more = u128::from(other_worth) * u128::from(scale);
    let (word, other_word) = (left.shape.word().bits(), right.shape.word().bits());
    other_more.cmp(&more).then(word.cmp(&other_word))
}
