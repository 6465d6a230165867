//! Writes bytes block by block.
ghost use Rattle.std.specs.Prelude.{◌≡◌, ◌<◌, ◌+◌, [], length, take, OnOk, IfOk, IfErr};
ghost use Rattle.std.specs.Io.KnownBytes.{Appends};
ghost use Rattle.merge_core.specs.Inner.Writing.{IsCutIn, WroteSome};

use crate::faults::MergeFault;
use std::io::Write;

/// How many bytes are written at once, or a few more.
const BLOCK: usize = 1 << 16;

/// Writes all the bytes. If the writer fails or writes none, the error is how many of the bytes
/// were written.
fn write_bytes<W: Write>(writer: &mut W, bytes: &[u8]) -> Result<(), usize>
    ensures whole { OnOk result (Appends (W.contents writer.old) (W.contents writer.new) bytes.now) }
    ensures short { IfErr result (λ written. written < length bytes.now) }
    ensures front { IfErr result (λ written.
        Appends (W.contents writer.old) (W.contents writer.new) (take written bytes.now)) }
{
    let mut written = 0;
    while written < bytes.len() {
        match writer.write(&bytes[written..]) {
            Ok(count) if count > 0 => written += count,
            _ => return Err(written),
        }
    }
    Ok(())
}

/// Writes more bytes of a text, after the `written` bytes that it has so far, and returns how many
/// it has then. `Write` if the writer failed, or if the number would pass 2^64 - 1.
pub(crate) fn write_more<W: Write>(
    writer: &mut W,
    bytes: &[u8],
    written: usize,
) -> Result<usize, MergeFault>
    ensures count { IfOk result (λ count. count ≡ written + length bytes.now) }
    ensures out { OnOk result (Appends (W.contents writer.old) (W.contents writer.new) bytes.now) }
    ensures err { IfErr result (IsCutIn written bytes.now
        (W.contents writer.old) (W.contents writer.new)) }
{
    let Some(after) = written.checked_add(bytes.len()) else {
        return Err(MergeFault::Write { written });
    };
    match write_bytes(writer, bytes) {
        Ok(()) => Ok(after),
        Err(count) => Err(MergeFault::Write {
            written: written + count,
        }),
    }
}

/// Writes all of `pending`, after the `written` bytes of the text that are written so far, and
/// empties it. Returns how many are written then. `Write` if the writer failed.
pub(crate) fn write_pending<W: Write>(
    writer: &mut W,
    pending: &mut Vec<u8>,
    written: usize,
) -> Result<usize, MergeFault>
    ensures ok { IfOk result (WroteSome pending.old.items pending.new.items
        (W.contents writer.old) (W.contents writer.new) written) }
    ensures all { OnOk result (pending.new.items ≡ []) }
    ensures err { IfErr result (IsCutIn written pending.old.items
        (W.contents writer.old) (W.contents writer.new)) }
{
    match write_more(writer, pending, written) {
        Ok(after) => {
            pending.clear();
            Ok(after)
        }
        Err(fault) => Err(fault),
    }
}

/// Writes and empties `pending` if it has 65,536 bytes or more; else it does nothing. `written` is
/// how many bytes of the text are written so far. Returns how many are written then. `Write` if the
/// writer failed.
pub(crate) fn write_block<W: Write>(
    writer: &mut W,
    pending: &mut Vec<u8>,
    written: usize,
) -> Result<usize, MergeFault>
    ensures ok { IfOk result (WroteSome pending.old.items pending.new.items
        (W.contents writer.old) (W.contents writer.new) written) }
    ensures err { IfErr result (IsCutIn written pending.old.items
        (W.contents writer.old) (W.contents writer.new)) }
{
    if pending.len() < BLOCK {
        return Ok(written);
    }
    write_pending(writer, pending, written)
}
