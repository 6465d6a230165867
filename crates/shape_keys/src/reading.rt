//! Dictionaries read from their texts into memory of the caller's.
ghost use Rattle.std.specs.Prelude.{◌≡◌, ◌≢◌, ◌≤◌, ◌⊎◌, ◌++◌, ◌+◌, ◌*◌, Ok, length, map, drop};
ghost use Rattle.sgf_core.specs.Limit.{most_bytes};
ghost use Rattle.shape_dict.specs.Contents.{Contents};
ghost use Rattle.shape_dict.specs.Reading.{HasNoHeader, IsTextOf};
ghost use Rattle.shape_dict.specs.declared.faults.DictFault.TheVariants as fault;
ghost use Rattle.shape_keys.specs.Entries.{said};
ghost use Rattle.shape_keys.specs.Read.{IsHeaderSaid, IsRead, IsWritten};
ghost use Rattle.shape_keys.specs.Status.{number_of, line_of};
ghost use Rattle.shape_keys.specs.declared.statuses.Status.TheVariants as status;

use crate::entries::{ShapesEntry, ShapesHeader, said, said_header};
use crate::statuses::Status;
use shape_dict::{DictFault, Dictionary, Entry, read_header};
use std::alloc::Global;

/// Returns the number of the line that `fault` names, counted from 1 at the header; 0 if it is a
/// fault without a line number.
fn line_of(fault: DictFault) -> u64
    ensures { result ≡ line_of fault }
{
    match fault {
        DictFault::BadLine(line) | DictFault::NotRising(line) | DictFault::NotCanonical(line) => {
            line
        }
        _ => 0,
    }
}

/// Writes `entries`, as structs for other languages, to the front of `room`, which must have room
/// for all of them.
fn put_entries(entries: &[Entry], room: &mut [ShapesEntry])
    requires { length entries.now ≤ length room.old }
    ensures { room.new ≡ map said entries.now ++ drop (length entries.now) room.old }
{
    for (place, entry) in entries.iter().enumerate() {
        room[place] = said(entry);
    }
}

/// Writes to `header` what the first line of a dictionary's text says; the lines after it are not
/// looked at. Takes no memory.
///
/// Returns `Done` and writes the header. Returns `BadText` with X1, bad header, exactly if the
/// bytes do not begin with a header of one of the three text formats; `header` stays as it was
/// then.
#[unsafe(no_mangle)]
pub extern "C" fn shapes_header(text: &[u8], header: &mut ShapesHeader) -> u32
    ensures done { result ≡ number_of status.Done → IsHeaderSaid text.now header.new }
    ensures none { result ≢ number_of status.Done
        → (result ≡ number_of (status.BadText fault.BadHeader)) × HasNoHeader text.now
        × (header.new ≡ header.old) }
{
    match read_header(text) {
        Some((read, _)) => {
            *header = said_header(&read);
            Status::Done.number()
        }
        None => Status::BadText(DictFault::BadHeader).number(),
    }
}

/// Reads a dictionary's text, in any of its three formats, and writes its entries, in rising order
/// of their words, to the front of `entries`. It takes memory for the entries, and frees it before
/// it returns.
///
/// Returns `Done`, and writes the entries, and to `number` how many they are.
///
/// Returns `NoRoom` if `entries` is too short for them all, and writes only to `number` how many
/// they are. A line has 18 bytes or more, so room for an entry for each 18 bytes of the text is
/// always enough.
///
/// Else returns `BadText` with the first fault of the text, and writes only to `number` the line
/// that the fault names, from 1 at the header, or 0 if it names none. The fault is X1 to X5 if the
/// text is not well-formed, X6 if memory was refused, and X8 if the text is too large. X6 comes
/// only after a header and a first line without a fault.
#[unsafe(no_mangle)]
pub extern "C" fn shapes_read(
    alloc: Global,
    text: &[u8],
    entries: &mut [ShapesEntry],
    number: &mut u64,
) -> u32
    ensures read { IsRead text.now result entries.old entries.new number.new }
    ensures only { (contents : Contents) → IsTextOf contents text.now
        → length text.now ≤ most_bytes
        → IsWritten contents result entries.old entries.new number.new
        ⊎ (result ≡ number_of (status.BadText fault.Memory)) }
    ensures room { result ≡ number_of status.NoRoom
        → 18 * (length entries.old + 1) ≤ length text.now }
{
    let dictionary = match Dictionary::read(alloc, text) {
        Ok(dictionary) => dictionary,
        Err(fault) => {
            *number = line_of(fault);
            return Status::BadText(fault).number();
        }
    };
    let found = dictionary.entries();
    *number = found.len() as u64;
    if found.len() > entries.len() {
        return Status::NoRoom.number();
    }
    put_entries(found, entries);
    Status::Done.number()
}
