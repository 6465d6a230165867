//! The inputs that a list of names stands for.
use crate::words::NameEnd;
use engine_core::RunFault;
use game_files::{Flaw, Source, Why, sources};
use std::alloc::{AllocError, Global};
use std::fs::File;
use std::io::{ErrorKind, Read};

/// The names in a list, and how many more were passed over, since they are not UTF-8.
#[derive(Drop)]
struct Names<'a> {
    names: Vec<&'a str>,
    passed_over: u64,
}

/// Reads `reader` to its end, and returns its bytes. `Memory` if memory was refused; `Read` if a
/// read failed.
fn read_whole<R: Read>(alloc: Global, reader: &mut R) -> Result<Vec<u8>, RunFault> {
    let mut bytes = Vec::new(alloc);
    match reader.read_to_end(&mut bytes) {
        Ok(_) => Ok(bytes),
        Err(error) if error.kind() == ErrorKind::OutOfMemory => Err(RunFault::Memory),
        Err(_) => Err(RunFault::Read),
    }
}

/// Reads all bytes of a list of names: of the file `file`, or of standard input if that is `-`.
/// `Read` if it can't be opened or read; `Memory` if memory was refused.
fn read_list(rt: &HostRuntime, file: &str) -> Result<Vec<u8>, RunFault> {
    if file == "-" {
        return read_whole(rt.alloc(), &mut rt.stdin());
    }
    match File::open(rt, file) {
        Ok(mut file) => read_whole(rt.alloc(), &mut file),
        Err(_) => Err(RunFault::Read),
    }
}

/// Returns the byte that ends each name of a list.
fn byte_after(end: NameEnd) -> u8 {
    match end {
        NameEnd::LineFeed => b'\n',
        NameEnd::Zero => 0,
    }
}

/// Returns the word of the command line that stands for `name`, a name in a list: `./-` for `-`,
/// which in a list is a file like any other, and else the name itself.
fn word_for(name: &str) -> &str {
    if name == "-" { "./-" } else { name }
}

/// Splits the bytes of a list at each byte `end` into names. Empty names are dropped, and names
/// that are not UTF-8 are counted only.
fn names_in(alloc: Global, bytes: &[u8], end: u8) -> Result<Names<'_>, AllocError> {
    let mut names = Vec::new(alloc);
    let mut passed_over = 0u64;
    for name in bytes.split(|byte| *byte == end) {
        match str::from_utf8(name) {
            Ok("") => {}
            Ok(name) => names.push(word_for(name))?,
            Err(_) => passed_over = passed_over.saturating_add(1),
        }
    }
    Ok(Names { names, passed_over })
}

/// Returns the inputs that `names` stand for: files, and the files of games in folders. If there
/// are no names, there is no input.
fn meant(rt: &HostRuntime, names: &[&str]) -> Result<Vec<Source>, AllocError> {
    if names.is_empty() {
        return Ok(Vec::new(rt.alloc()));
    }
    sources(rt, names)
}

/// Reads a list of names, and returns the inputs that they stand for. Each name stands for what it
/// stands for on the command line, but `-` for a file of that name. The names are read from the
/// file `file`, or from standard input if it is `-`; each ends in the byte that `end` says. If some
/// names are not UTF-8, the last of what is returned is a `Flaw` of the list that says how many.
///
/// # Errors
///
/// `Read` if the file could not be opened or read; `Memory` if memory was refused.
pub fn listed(rt: &HostRuntime, file: &str, end: NameEnd) -> Result<Vec<Source>, RunFault> {
    let bytes = read_list(rt, file)?;
    let Names { names, passed_over } = names_in(rt.alloc(), bytes.as_slice(), byte_after(end))?;
    let mut all = meant(rt, names.as_slice())?;
    if passed_over > 0 {
        let name = String::from_str(rt.alloc(), file)?;
        let why = Why::PassedOver(passed_over);
        all.push(Source::Flaw(Flaw { name, why }))?;
    }
    Ok(all)
}
