//! Where the texts of the dictionaries to join come from.
use std::io;
use std::io::Read;

/// Texts of dictionaries, each of which can be read any number of times.
pub trait Sources {
    ghost use Rattle.std.specs.Prelude.{◌≡◌, ◌<◌, ℕ, List, Option, Some, IfOk, drop};

    /// The reader of one text's bytes.
    type Reader: Read + Drop + Send;

    /// How many texts there are.
    ghost number: { Self → ℕ };

    /// For contracts: the bytes of text `n`, counted from 0, or None if nothing can be proved of
    /// them, such as those of a file.
    ghost bytes: { Self → ℕ → Option (List ℕ) };

    /// How many texts there are.
    fn count(&self) -> usize
        ensures { result ≡ number self.now };

    /// Opens text `n`, counted from 0, and returns a reader at its first byte.
    ///
    /// # Errors
    ///
    /// An error of the system, if it can't be opened.
    fn open(&self, n: usize) -> io::Result<Self::Reader>
        requires { n < number self.now }
        ensures { IfOk result (λ reader. Self.Reader.remaining reader ≡ bytes self.now n) };

    /// Returns how many bytes text `n`, counted from 0, has. If the size is wrong, or an error,
    /// joining takes longer, and its result is the same.
    ///
    /// # Errors
    ///
    /// An error of the system, if it can't find the size.
    fn size(&self, n: usize) -> io::Result<usize>
        requires { n < number self.now };

    /// Opens text `n`, counted from 0, and returns a reader at byte index `place`. No byte is left
    /// to read if that is at the text's end or after it.
    ///
    /// # Errors
    ///
    /// An error of the system, if it can't be opened there.
    fn open_at(&self, n: usize, place: usize) -> io::Result<Self::Reader>
        requires { n < number self.now }
        ensures { (text : List ℕ) → bytes self.now n ≡ Some text
            → IfOk result (λ reader. Self.Reader.remaining reader ≡ Some (drop place text)) };
}
