//! The canonical word of a word: the key of its pattern.
ghost use Rattle.std.specs.Prelude.{◌≡◌, ◌<◌, ◌≤◌, ◌^◌, None, Some};
ghost use Rattle.go_board.specs.declared.points.Colour.{Colour as Mover};
ghost use Rattle.shape_core.specs.Symmetry.{canonical_of};
ghost use Rattle.shape_keys.specs.Mover.{mover_of};
ghost use Rattle.shape_keys.specs.Status.{number_of};
ghost use Rattle.shape_keys.specs.declared.statuses.Status.TheVariants as status;

use crate::colours::mover_of;
use crate::statuses::Status;
use shape_core::{Word, canonical};

/// Writes to `shape` the canonical word of `word` for the player `mover`, 1 Black or 2 White. It is
/// the key of a pattern: it is the same however the pattern is turned or mirrored, and with the
/// colours exchanged for the other mover. Takes no memory.
///
/// Returns `Done` and writes the canonical word. Returns `BadWord` exactly if `word` is 2^51 or
/// more, and else `BadMover` exactly if `mover` is neither 1 nor 2; `shape` stays as it was then.
#[unsafe(no_mangle)]
pub extern "C" fn shapes_canonical(word: u64, mover: u32, shape: &mut u64) -> u32
    ensures done { (colour : Mover) → word < 2 ^ 51 → mover_of mover ≡ Some colour
        → (result ≡ number_of status.Done) × (shape.new ≡ canonical_of word colour)
        × (shape.new < 2 ^ 51) }
    ensures word { 2 ^ 51 ≤ word → (result ≡ number_of status.BadWord)
        × (shape.new ≡ shape.old) }
    ensures mover { word < 2 ^ 51 → mover_of mover ≡ None
        → (result ≡ number_of status.BadMover) × (shape.new ≡ shape.old) }
{
    let Some(known) = Word::new(word) else {
        return Status::BadWord.number();
    };
    let Some(colour) = mover_of(mover) else {
        return Status::BadMover.number();
    };
    *shape = canonical(known, colour).word().bits();
    Status::Done.number()
}
