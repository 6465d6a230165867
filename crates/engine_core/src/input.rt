//! Reads the whole input, up to one byte more than the 2^28 that a run may have.
ghost use Rattle.std.specs.Prelude.{◌≡◌, ◌+◌, ◌<◌, ◌≤◌, ◌⊎◌, [], length, take, IfOk, IfErr};
ghost use Rattle.std.specs.Prelude.{IfSome, OnOk};
ghost use Rattle.std.specs.Io.KnownBytes.{Consumes, IsAtEnd};
ghost use Rattle.engine_core.specs.declared.faults.RunFault.TheVariants as fault;
ghost use Rattle.engine_core.specs.declared.input.TheConstants.{BLOCK};
ghost use Rattle.engine_core.specs.Runs.{ReadInput};
ghost use Rattle.sgf_core.specs.Limit.{most_bytes};

use crate::faults::RunFault;
use sgf_core::MOST_BYTES;
use std::alloc::Global;
use std::io::Read;

/// How many bytes a read asks for at once.
const BLOCK: usize = 1 << 16;

/// Reads once into `room`, and returns how many bytes were read. 0 means the reader's end, unless
/// `room` is empty.
fn read_some<R: Read>(reader: &mut R, room: &mut [u8]) -> Result<usize, RunFault>
    ensures within { IfOk result (λ count. count ≤ length room.new) }
    ensures taken { IfOk result (λ count. Consumes (R.remaining reader.old)
        (R.remaining reader.new) (take count room.new)) }
    ensures end { IfOk result (λ count. count ≡ 0 → 0 < length room.new
        → IsAtEnd (R.remaining reader.new)) }
    ensures fault { IfErr result (λ found. found ≡ fault.Read) }
{
    reader.read(room).map_err(|_| RunFault::Read)
}

/// Reads blocks and appends them to `input`, up to the reader's end, or up to one byte more than a
/// run may have. `block` is the buffer of each read.
fn read_by_block<R: Read>(
    reader: &mut R,
    block: &mut [u8],
    input: &mut Vec<u8>,
) -> Result<(), RunFault>
    requires block { length block.old ≡ BLOCK }
    requires none { input.old.items ≡ [] }
    ensures input { OnOk result (IfSome (R.remaining reader.old)
        (λ all. input.new.items ≡ take (most_bytes + 1) all)) }
    ensures read { OnOk result (Consumes (R.remaining reader.old) (R.remaining reader.new)
        input.new.items) }
    ensures fault { IfErr result (λ found. (found ≡ fault.Read) ⊎ (found ≡ fault.Memory)) }
{
    while input.len() <= MOST_BYTES {
        let room = (MOST_BYTES + 1 - input.len()).min(BLOCK);
        let count = read_some(reader, &mut block[..room])?;
        if count == 0 {
            return Ok(());
        }
        input.extend_from_slice(&block[..count])?;
    }
    Ok(())
}

/// Reads and returns the reader's bytes up to its end, or the first 2^28 + 1 of them. A read of no
/// bytes is the end. It takes memory for the bytes and one block of 65,536 bytes more.
///
/// # Errors
///
/// `Read` if the reader failed, `Memory` if memory was refused: the bytes that were read by then
/// are lost.
pub fn read_input<R: Read>(alloc: Global, reader: &mut R) -> Result<Vec<u8>, RunFault>
    ensures input { IfOk result (λ input. IfSome (R.remaining reader.old)
        (λ all. input.items ≡ take (most_bytes + 1) all)) }
    ensures read { OnOk result (ReadInput (R.remaining reader.old) (R.remaining reader.new)) }
    ensures fault { IfErr result (λ found. (found ≡ fault.Read) ⊎ (found ≡ fault.Memory)) }
{
    let mut block = vec![in alloc; 0u8; BLOCK]?;
    let mut input = Vec::new(alloc);
    read_by_block(reader, &mut block, &mut input)?;
    Ok(input)
}
