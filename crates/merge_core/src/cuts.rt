//! Cuts: at which word (the number of a pattern; lines are in the order of their words), and at
//! which byte index in each dictionary, one range of words ends and the next begins.
ghost use Rattle.std.specs.Prelude.{◌≡◌, Some, IfSome, slice_get};

use shape_dict::Header;

/// A word at which one range of words ends and the next begins. `places` has for each dictionary
/// the byte index of the first line whose word isn't below `word`.
#[derive(Drop)]
pub(crate) struct Cut {
    pub(crate) word: u64,
    pub(crate) places: Vec<usize>,
}

/// How the lines of dictionaries are divided into ranges of words: the first cut (a word, and a
/// byte index in each dictionary) is where the lines begin, and the last is their end. `headers`
/// are those of the dictionaries. If `least` is a number, the join keeps only squares that were
/// there at least that often.
#[derive(Drop)]
pub(crate) struct Plan {
    pub(crate) headers: Vec<Header>,
    pub(crate) cuts: Vec<Cut>,
    pub(crate) least: Option<u64>,
}

/// Returns the byte index that `cut` has for dictionary `n`, counted from 0, or None if it has
/// none.
pub(crate) fn place_at(cut: &Cut, n: usize) -> Option<usize>
    ensures { IfSome result (λ place. slice_get cut.now.places.items n ≡ Some place) }
{
    if n < cut.places.len() {
        return Some(cut.places[n]);
    }
    None
}

/// Returns the header of dictionary `n`, counted from 0, or None if there are fewer.
pub(crate) fn header_at(headers: &[Header], n: usize) -> Option<Header>
    ensures { IfSome result (λ header. slice_get headers.now n ≡ Some header) }
{
    if n < headers.len() {
        return Some(headers[n]);
    }
    None
}

/// Returns cut `n`, counted from 0, or None if there are fewer.
pub(crate) fn cut_at(cuts: &[Cut], n: usize) -> Option<&Cut>
    ensures { IfSome result (λ cut. slice_get cuts.now n ≡ Some cut.now) }
{
    if n < cuts.len() {
        return Some(&cuts[n]);
    }
    None
}
