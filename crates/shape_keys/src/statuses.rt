//! How a call went, as the number that it returns.
ghost use Rattle.std.specs.Prelude.{◌≡◌};
ghost use Rattle.shape_keys.specs.Status.{number_of, number_of_fault};

use shape_dict::DictFault;

/// How a call went.
#[derive(Clone, Copy)]
pub enum Status {
    /// What was asked for is written.
    Done,
    /// No entry has the shape.
    Absent,
    /// A code is over 3.
    BadCode,
    /// The number is no word: it is 2^51 or more.
    BadWord,
    /// The mover is neither 1 nor 2.
    BadMover,
    /// There are not 25 glyphs.
    BadLength,
    /// A byte is no glyph.
    BadGlyph,
    /// There is not room for all entries.
    NoRoom,
    /// The board has no such point.
    BadPoint,
    /// A text of a dictionary has this fault.
    BadText(DictFault),
}

impl Status {
    ghost use Rattle.std.specs.Prelude.{◌≡◌};
    ghost use Rattle.shape_keys.specs.Status.{number_of};

    /// Returns the number that a call returns for this status: 0 for `Done`, 1 to 8 for the others
    /// in their order, and 11 to 19 for the faults X1 (`BadHeader`) to X9 (`MixedKinds`) of a
    /// dictionary's text.
    pub fn number(self) -> u32
        ensures { result ≡ number_of self }
    {
        match self {
            Status::Done => 0,
            Status::Absent => 1,
            Status::BadCode => 2,
            Status::BadWord => 3,
            Status::BadMover => 4,
            Status::BadLength => 5,
            Status::BadGlyph => 6,
            Status::NoRoom => 7,
            Status::BadPoint => 8,
            Status::BadText(fault) => number_of_fault(fault),
        }
    }
}

/// Returns the number for a fault of a dictionary's text: 11 to 19 for the faults that are printed
/// as X1 to X9, in that order.
fn number_of_fault(fault: DictFault) -> u32
    ensures { result ≡ number_of_fault fault }
{
    match fault {
        DictFault::BadHeader => 11,
        DictFault::BadLine(_) => 12,
        DictFault::NotRising(_) => 13,
        DictFault::NotCanonical(_) => 14,
        DictFault::WrongTotals => 15,
        DictFault::Memory => 16,
        DictFault::Overflow => 17,
        DictFault::TooLarge => 18,
        DictFault::MixedKinds => 19,
    }
}
