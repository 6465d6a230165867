//! Where texts of games come from.
use game_core::{GamesFault, Report};
use std::alloc::AllocError;

/// Texts of games, each of which is read once, whole.
pub trait Texts {
    ghost use Rattle.std.specs.Prelude.{◌≡◌, ◌<◌, ℕ, List, Option, Some, [], true, ◌↔◌, IfOk, IsTrue};

    /// How many texts there are.
    ghost number: { Self → ℕ };

    /// The bytes of each text, by its number from 0; None if contracts can't say them.
    ghost bytes: { Self → ℕ → Option (List ℕ) };

    /// What `is_wanted` says of the texts that were checked so far.
    ghost IsWanted: { Self → Type 0 };

    /// How many texts there are.
    fn count(&self) -> usize
        ensures { result ≡ number self.now };

    /// Reads text `n`, counted from 0, into `room`, which must be empty. Returns whether it could
    /// be read. A text that can't be read is left out of the count.
    ///
    /// # Errors
    ///
    /// `AllocError` if memory was refused.
    fn read(&mut self, n: usize, room: &mut Vec<u8>) -> Result<bool, AllocError>
        requires within { n < number self.old }
        requires empty { room.old.items ≡ [] }
        ensures number { number self.new ≡ number self.old }
        ensures bytes { bytes self.new ≡ bytes self.old }
        ensures read { (text : List ℕ) → bytes self.old n ≡ Some text
            → IfOk result (λ found. (found ≡ true) × (room.new.items ≡ text)) };

    /// Notes what was found in text `n`, counted from 0: the report on its trees, or the fault for
    /// which the text is left out of the count. It is called once for each text that could be read,
    /// in their order.
    fn judged(&mut self, n: usize, found: Result<Report, GamesFault>)
        ensures number { number self.new ≡ number self.old }
        ensures bytes { bytes self.new ≡ bytes self.old };

    /// Whether a dictionary is to be written. It is called once all texts were read and checked.
    fn is_wanted(&self) -> bool
        ensures { IsTrue result ↔ IsWanted self.now };
}
