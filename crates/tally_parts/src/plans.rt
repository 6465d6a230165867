//! How collections are counted.
ghost use Rattle.std.specs.Prelude.{◌≡◌};
ghost use Rattle.tally_parts.specs.Parts.{kinds_for};

use shape_core::Kinds;
use shape_dict::Text;

/// How collections are counted, and which text of their dictionary is written.
#[derive(Clone, Copy, Debug, PartialEq, Eq)]
pub struct Plan {
    /// Which text of the dictionary is written.
    pub text: Text,
    /// How many workers count.
    pub workers: u8,
    /// Texts are counted together while they have fewer bytes than this. A larger text is counted
    /// alone.
    pub most: usize,
}

/// Returns the kinds of pattern that this text of a dictionary has: text 1 has squares alone, and
/// the others have diamonds too.
pub(crate) fn kinds_for(text: Text) -> Kinds
    ensures { result ≡ kinds_for text }
{
    match text {
        Text::One => Kinds::Squares,
        Text::Two | Text::Three => Kinds::Both,
    }
}
