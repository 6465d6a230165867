//! Steps in the reading of a text: its header, its next line, its end.
ghost use Rattle.std.specs.Prelude.{◌≡◌, ◌≢◌, ◌≤◌, ◌+◌, ◌^◌, List, ℕ, length, IfOk, IfErr, IfSome};
ghost use Rattle.std.specs.Prelude.{OnOk, IsErr};
ghost use Rattle.std.specs.Io.KnownBytes.{Consumes};
ghost use Rattle.shape_core.specs.Symmetry.{least_image};
ghost use Rattle.shape_dict.specs.Text.{header_text, line_text};
ghost use Rattle.shape_dict.specs.Reading.{IsHeader, IsLine, IsAbove, IsLineFault, IsTextOf};
ghost use Rattle.shape_dict.specs.Reading.{lines_after};
ghost use Rattle.shape_dict.specs.declared.entries.Entry.{Entry as Item};
ghost use Rattle.stream_core.specs.Faults.{IsOpenFault, IsWholeFault};
ghost use Rattle.stream_core.specs.Streams.{Stands, contents_of, given_after, standing_of};
ghost use Rattle.stream_core.specs.Inner.Blocks.{HasEnough, bytes_of};
ghost use Rattle.stream_core.specs.Inner.Counting.{CountedTo};
ghost use Rattle.stream_core.specs.Inner.Steps.{IsAt};
ghost use Rattle.stream_core.specs.declared.faults.StreamFault.TheVariants as fault;

use crate::blocks::Block;
use crate::faults::StreamFault;
use crate::progress::Progress;
use shape_dict::{DictFault, Entry, Header, count_lines, read_entry, read_header};
use std::io::Read;

/// Reads the header at the front of a block, passes over it, and returns it. `Dict` with
/// `BadHeader` if the bytes don't begin with a header, `Read` if a read failed.
pub(crate) fn take_header<R: Read>(block: &mut Block<R>) -> Result<Header, StreamFault>
    ensures is_header { IfOk result IsHeader }
    ensures taken { IfOk result (λ header. Consumes (bytes_of block.old) (bytes_of block.new)
        (header_text header)) }
    ensures fault { IfErr result (IsOpenFault (bytes_of block.old)) }
    ensures ahead { length block.new.unread ≤ 2 ^ 16 }
{
    block.fill()?;
    let bytes = block.unread();
    let Some((header, rest)) = read_header(bytes) else {
        return Err(StreamFault::Dict(DictFault::BadHeader));
    };
    let front = bytes.len() - rest.len();
    block.skip(front);
    Ok(header)
}

/// Reads the line at the front of a block, passes over it, and returns its entry. `progress` says
/// which entries came before it. If the line has a fault, that is the error, and the block stays as
/// it is.
fn take_line<R: Read>(
    block: &mut Block<R>,
    header: &Header,
    progress: &Progress,
) -> Result<Entry, DictFault>
    requires counted { CountedTo progress.now.given progress.now.last }
    requires enough { HasEnough block.old }
    requires ahead { length block.old.unread ≤ 2 ^ 16 }
    ensures line { IfOk result (IsLine header.now progress.now.given) }
    ensures shape { IfOk result (λ entry. IsAbove progress.now.last entry.shape
        × (least_image entry.shape ≡ entry.shape)) }
    ensures taken { IfOk result (λ entry. Consumes (bytes_of block.old) (bytes_of block.new)
        (line_text header.now.text entry)) }
    ensures fault { IfErr result (λ found. IfSome (bytes_of block.old)
        (λ left. IsLineFault header.now progress.now.given progress.now.last left found)) }
    ensures same { IsErr result → block.new ≡ block.old }
    ensures ahead { length block.new.unread ≤ 2 ^ 16 }
{
    let bytes = block.unread();
    let (entry, rest) = match read_entry(header, progress.given, progress.last, bytes) {
        Ok(line) => line,
        Err(found) => return Err(found),
    };
    let length = bytes.len() - rest.len();
    block.skip(length);
    Ok(entry)
}

/// Checks the end of a text after its last line: `WrongTotals` if the entries were not played as
/// often in all as the header has moves, or if there are moves and no games; else `BadLine` if
/// bytes follow the text.
fn end<R: Read>(block: &Block<R>, header: &Header, progress: &Progress) -> Result<(), DictFault>
    requires counted { CountedTo progress.now.given progress.now.last }
    requires enough { HasEnough block.now }
    ensures ok { OnOk result ((whole : List ℕ) → (entries : List Item)
        → IsAt block.now header.now progress.now whole entries
        → length entries ≡ lines_after header.now
        → IsTextOf (contents_of header.now entries) whole) }
    ensures fault { IfErr result (λ found. (whole : List ℕ) → (entries : List Item)
        → IsAt block.now header.now progress.now whole entries
        → length entries ≡ lines_after header.now
        → IsWholeFault whole found) }
{
    if !progress.has_totals(header) {
        return Err(DictFault::WrongTotals);
    }
    if !block.unread().is_empty() {
        return Err(DictFault::BadLine(progress.given + 2));
    }
    Ok(())
}

/// Reads and returns the next entry while more may come, or None at the end of a well-formed text.
/// `progress` then has that entry too. `Dict` with the fault of the line or of the end, `Read` if a
/// read failed.
pub(crate) fn next<R: Read>(
    block: &mut Block<R>,
    header: &Header,
    progress: &mut Progress,
) -> Result<Option<Entry>, StreamFault>
    requires { CountedTo progress.old.given progress.old.last }
    ensures counted { CountedTo progress.new.given progress.new.last }
    ensures at { (whole : List ℕ) → (entries : List Item)
        → IsAt block.old header.now progress.old whole entries
        → IsAt block.new header.now progress.new whole (given_after entries result) }
    ensures stands { (whole : List ℕ) → (entries : List Item)
        → IsAt block.old header.now progress.old whole entries
        → Stands whole header.now (given_after entries result) (standing_of result) }
    ensures line { IfOk result (λ answer. IfSome answer (λ entry.
        IsLine header.now progress.old.given entry × IsAbove progress.old.last entry.shape
        × (least_image entry.shape ≡ entry.shape))) }
    ensures count { IfOk result (λ answer. IfSome answer (λ entry.
        (progress.new.given ≡ progress.old.given + 1) × (progress.new.last ≡ Some entry.shape))) }
    ensures fault { IfErr result (λ found. found ≢ fault.Memory) }
    ensures ahead { length block.new.unread ≤ 2 ^ 16 }
{
    block.fill()?;
    if count_lines(header) <= progress.given {
        return match end(block, header, progress) {
            Ok(()) => Ok(None),
            Err(found) => Err(StreamFault::Dict(found)),
        };
    }
    match take_line(block, header, progress) {
        Ok(entry) => {
            *progress = progress.with(&entry);
            Ok(Some(entry))
        }
        Err(found) => Err(StreamFault::Dict(found)),
    }
}
