//! Reads a property: an identifier (letters) and its values (bytes in brackets).
ghost use Rattle.std.specs.Prelude.{◌≡◌, ◌<◌, ◌++◌, ◌∷◌, [], IfOk, IfErr, IfSome, IsTrue, map, true};
ghost use Rattle.std.specs.Prelude.{length, slice_index};
ghost use Rattle.sgf_core.specs.Bytes.{is_letter};
ghost use Rattle.sgf_core.specs.Inner.Pieces.{ReadsMark, MarkFault};
ghost use Rattle.sgf_core.specs.Tree.{Property};
ghost use Rattle.sgf_core.specs.Values.{value_of};

use crate::faults::SgfFault;
use crate::marks::{Expects, Mark, Prop, Value};
use crate::scan::{letters_end, value_end, white_end};
use smallvec::SmallVec;
use std::alloc::Global;

/// Appends `value` to `values` if `kept` says that all values before it are there. Returns whether
/// all are there now: false if `kept` is false or memory was refused.
fn keep_value<'a>(values: &mut SmallVec<Value<'a>, 1>, value: Value<'a>, kept: bool) -> bool
    ensures { result ≡ true → (kept ≡ true) × (map value_of values.new.items
        ≡ map value_of values.old.items ++ value_of value.entry ∷ []) }
{
    if !kept {
        return false;
    }
    match values.push(value) {
        Ok(()) => true,
        Err(_) => false,
    }
}

/// Reads the property whose identifier begins at `from`, in the tree that begins at `at`. Both are
/// byte indices. Returns the property with the byte index after its values and the white space
/// after them. The property is None if memory was refused for a value: the other values are read
/// all the same, since a fault of syntax (`Truncated` or `NoValue`) is returned rather than out of
/// memory.
pub(crate) fn read_property<'a>(
    alloc: Global,
    bytes: &'a [u8],
    at: usize,
    from: usize,
) -> Result<(Option<Prop<'a>>, usize), SgfFault>
    requires within { from < length bytes.now }
    requires letter { IsTrue (is_letter (slice_index bytes.now from)) }
    ensures read { IfOk result (λ found. (property : Property)
        × ReadsMark bytes.now Expects.Any from found.1 (Mark.Prop property)
        × IfSome found.0 (λ kept. kept ≡ property)) }
    ensures fault { IfErr result (MarkFault bytes.now at Expects.Any from) }
{
    let identifier_end = letters_end(bytes, from);
    let mut values = SmallVec::new(alloc);
    let mut kept = true;
    let mut some = false;
    let mut place = white_end(bytes, identifier_end);
    while place < bytes.len() && bytes[place] == b'[' {
        let first = place + 1;
        let Some(end) = value_end(bytes, first) else {
            return Err(SgfFault::Truncated(at));
        };
        let value = Value {
            at: first,
            bytes: &bytes[first..end],
        };
        kept = keep_value(&mut values, value, kept);
        some = true;
        place = white_end(bytes, end + 1);
    }
    if some {
        if !kept {
            return Ok((None, place));
        }
        let property = Prop {
            identifier: &bytes[from..identifier_end],
            values,
        };
        return Ok((Some(property), place));
    }
    if place == bytes.len() {
        return Err(SgfFault::Truncated(at));
    }
    Err(SgfFault::NoValue(place))
}
