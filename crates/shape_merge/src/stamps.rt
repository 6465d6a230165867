//! Whether a file changed while it was joined, as far as the system shows it.
ghost use Rattle.std.specs.Prelude.{◌≡◌, ◌↔◌, IsTrue, IfOk, MatchOption, length, vec_len};
ghost use Rattle.shape_merge.specs.Stamps.{AreAlike, IsFirstUnlike};

use std::alloc::AllocError;
use std::fs;
use std::os::unix::fs::MetadataExt;

/// What the system says of a file. If it says something else later, the file has changed.
#[derive(Clone, Copy, PartialEq, Eq)]
pub enum Stamp {
    /// The system says nothing of the file.
    Unknown,
    /// Its device, its inode number there, its size in bytes, and when it was written last.
    Known {
        device: u64,
        number: u64,
        size: u64,
        seconds: i64,
        nanoseconds: i64,
    },
}

/// Returns the stamp of the file `name`: what the system says of it now.
fn stamp_of(rt: &HostRuntime, name: &str) -> Stamp {
    match fs::metadata(rt, name) {
        Ok(metadata) => Stamp::Known {
            device: metadata.dev(),
            number: metadata.ino(),
            size: metadata.size(),
            seconds: metadata.mtime(),
            nanoseconds: metadata.mtime_nsec(),
        },
        Err(_) => Stamp::Unknown,
    }
}

/// Returns the stamps of the files of these names, in their order.
///
/// # Errors
///
/// `AllocError` if memory was refused.
pub fn stamps_of(rt: &HostRuntime, names: &[&str]) -> Result<Vec<Stamp>, AllocError>
    ensures { IfOk result (λ stamps. vec_len stamps ≡ length names.now) }
{
    let mut stamps = Vec::new(rt.alloc());
    for name in names {
        stamps.push(stamp_of(rt, *name))?;
    }
    Ok(stamps)
}

/// Whether two stamps are the same.
fn is_same(before: Stamp, after: Stamp) -> bool
    ensures { IsTrue result ↔ before ≡ after }
{
    before == after
}

/// Returns the number, from 0, of the first file whose stamps in `before` and `after` differ; None
/// if no file's do. Both are in the same order of the files.
pub fn first_unlike(before: &[Stamp], after: &[Stamp]) -> Option<usize>
    requires { length before.now ≡ length after.now }
    ensures { MatchOption result (AreAlike before.now after.now)
        (IsFirstUnlike before.now after.now) }
{
    for (k, stamp) in before.iter().enumerate() {
        if !is_same(*stamp, after[k]) {
            return Some(k);
        }
    }
    None
}
