//! Fetches the words of the command line.
ghost use Rattle.std.specs.Prelude.{◌≡◌, ◌⊎◌, IfErr};
ghost use Rattle.engine_core.specs.declared.faults.RunFault.TheVariants as fault;

use crate::faults::RunFault;
use std::env;
use std::io::ErrorKind;

/// Returns the words after the program's name.
///
/// # Errors
///
/// `Usage` if a word is not UTF-8, since no program knows such a word; `Memory` if memory was
/// refused.
pub fn own_words(rt: &HostRuntime) -> Result<Vec<String>, RunFault>
    ensures { IfErr result (λ found. (found ≡ fault.Usage) ⊎ (found ≡ fault.Memory)) }
{
    let all = env::args(rt).map_err(|error| match error.kind() {
        ErrorKind::InvalidData => RunFault::Usage,
        _ => RunFault::Memory,
    })?;
    Ok(all.skip(1).collect(rt.alloc())?)
}
