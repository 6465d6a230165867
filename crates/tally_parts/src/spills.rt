//! Spills: a store for texts of dictionaries until they are joined.
use merge_core::Sources;
use std::io;
use std::thread::Threads;

/// A store of texts of dictionaries, which are added one after another, and then read as often as
/// is asked for.
pub trait Spills: Sources {
    ghost use Rattle.std.specs.Prelude.{◌≡◌, ◌+◌, ◌<◌, ℕ, OnOk, IfErr};
    ghost use Rattle.std.specs.Thread.{IsSync};
    ghost use Rattle.shape_dict.specs.Parts.{joined};
    ghost use Rattle.tally_parts.specs.Spills.{HasBytesIfKnown};

    /// Adds the text that `parts` are, one after another, to the store, as the last of its texts.
    /// A store may write the parts side by side in threads; it waits for all of them.
    ///
    /// # Errors
    ///
    /// An error of the system, if the text can't be stored, or `OutOfMemory` if memory was refused.
    /// The text isn't in the store then. The other texts are always as they were.
    fn keep<R: Threads + Sync>(&mut self, rt: &R, parts: &[Vec<u8>]) -> io::Result<()>
        requires sync { IsSync R.row }
        ensures number { OnOk result (Self.number self.new ≡ Self.number self.old + 1) }
        ensures refused { IfErr result (λ _. Self.number self.new ≡ Self.number self.old) }
        ensures others { (n : ℕ) → n < Self.number self.old
            → Self.bytes self.new n ≡ Self.bytes self.old n }
        ensures last { OnOk result
            (HasBytesIfKnown (Self.bytes self.new (Self.number self.old)) (joined parts.now)) };
}
