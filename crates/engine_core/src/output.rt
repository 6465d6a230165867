//! Writes a text whole, or up to the byte at which the writer failed.
ghost use Rattle.std.specs.Prelude.{◌<◌, length, take, OnOk, IfErr};
ghost use Rattle.std.specs.Io.KnownBytes.{Appends};
ghost use Rattle.shape_dict.specs.Parts.{joined};
ghost use Rattle.engine_core.specs.Output.{WroteFront};

use crate::faults::RunFault;
use std::io::Write;

/// Writes all the bytes. If the writer fails or writes none, the error is how many of the bytes
/// were written.
fn write_bytes<W: Write>(writer: &mut W, bytes: &[u8]) -> Result<(), usize>
    ensures whole { OnOk result (Appends (W.contents writer.old) (W.contents writer.new) bytes.now) }
    ensures short { IfErr result (λ written. written < length bytes.now) }
    ensures front { IfErr result (λ written.
        Appends (W.contents writer.old) (W.contents writer.new) (take written bytes.now)) }
{
    let mut written = 0;
    while written < bytes.len() {
        match writer.write(&bytes[written..]) {
            Ok(count) if count > 0 => written += count,
            _ => return Err(written),
        }
    }
    Ok(())
}

/// Writes all bytes of `text`. It takes no memory.
///
/// # Errors
///
/// `Write` if the writer failed, or wrote no bytes: exactly `written` bytes of the text were
/// written.
pub fn write_output<W: Write>(writer: &mut W, text: &[u8]) -> Result<(), RunFault>
    ensures whole { OnOk result (Appends (W.contents writer.old) (W.contents writer.new) text.now) }
    ensures front { IfErr result (WroteFront (W.contents writer.old) (W.contents writer.new)
        text.now) }
{
    if let Err(written) = write_bytes(writer, text) {
        return Err(RunFault::Write { written });
    }
    Ok(())
}

/// Writes a text that is in parts (lists of bytes), one part after another. It takes no memory.
///
/// # Errors
///
/// `Write` if the writer failed, or wrote no bytes: exactly `written` bytes of the text were
/// written. It is also returned before a part that would take the text past 2^64 - 1 bytes, which
/// is more than memory holds.
pub fn write_parts<W: Write>(writer: &mut W, parts: &[Vec<u8>]) -> Result<(), RunFault>
    ensures whole { OnOk result (Appends (W.contents writer.old) (W.contents writer.new)
        (joined parts.now)) }
    ensures front { IfErr result (WroteFront (W.contents writer.old) (W.contents writer.new)
        (joined parts.now)) }
{
    let mut before: usize = 0;
    for part in parts {
        let Some(after) = before.checked_add(part.len()) else {
            return Err(RunFault::Write { written: before });
        };
        if let Err(count) = write_bytes(writer, part) {
            return Err(RunFault::Write {
                written: before + count,
            });
        }
        before = after;
    }
    Ok(())
}
