//! What an input without a tree may be, by its first bytes.
ghost use Rattle.std.specs.Prelude.{◌≡◌};
ghost use Rattle.game_files.specs.Causes.{packed_cause, is_wide, cause_of};

use std::fmt;

/// What an input without a tree may be.
#[derive(Clone, Copy, Debug, PartialEq, Eq)]
pub enum Cause {
    /// It has no byte.
    Empty,
    /// It is packed by gzip.
    Gzip,
    /// It is a zip archive.
    Zip,
    /// It is packed by bzip2.
    Bzip2,
    /// It is packed by xz.
    Xz,
    /// It is packed by zstd.
    Zstd,
    /// It is a text in UTF-16.
    Utf16,
    /// It is a dictionary of patterns.
    Dictionary,
    /// It is something else.
    NoSgf,
}

impl fmt::Display for Cause {
    fn fmt<W: fmt::Write>(&self, f: &mut fmt::Formatter<W>) -> fmt::Result {
        f.write_str(match self {
            Cause::Empty => "empty",
            Cause::Gzip => "packed by gzip",
            Cause::Zip => "a zip archive",
            Cause::Bzip2 => "packed by bzip2",
            Cause::Xz => "packed by xz",
            Cause::Zstd => "packed by zstd",
            Cause::Utf16 => "UTF-16",
            Cause::Dictionary => "a dictionary",
            Cause::NoSgf => "no SGF",
        })
    }
}

/// Returns which program packed an input that begins with these bytes, or None if none of those
/// known did.
fn packed_cause(front: &[u8]) -> Option<Cause>
    ensures { result ≡ packed_cause front.now }
{
    if front.starts_with(b"\x1f\x8b") {
        Some(Cause::Gzip)
    } else if front.starts_with(b"PK\x03\x04") {
        Some(Cause::Zip)
    } else if front.starts_with(b"BZh") {
        Some(Cause::Bzip2)
    } else if front.starts_with(b"\xfd7zXZ\x00") {
        Some(Cause::Xz)
    } else if front.starts_with(b"\x28\xb5\x2f\xfd") {
        Some(Cause::Zstd)
    } else {
        None
    }
}

/// Whether these are the first bytes of a text in UTF-16: a byte order mark, or a parenthesis in
/// two bytes.
fn is_wide(front: &[u8]) -> bool
    ensures { result ≡ is_wide front.now }
{
    front.starts_with(b"\xff\xfe")
        || front.starts_with(b"\xfe\xff")
        || front.starts_with(b"(\x00")
        || front.starts_with(b"\x00(")
}

/// Returns what an input without a tree may be, such as packed by gzip. `front` has its first eight
/// bytes, or all if it has fewer. It takes no memory.
pub fn cause_of(front: &[u8]) -> Cause
    ensures { result ≡ cause_of front.now }
{
    if front.is_empty() {
        return Cause::Empty;
    }
    if let Some(cause) = packed_cause(front) {
        return cause;
    }
    if is_wide(front) {
        Cause::Utf16
    } else if front.starts_with(b"shapes ") {
        Cause::Dictionary
    } else {
        Cause::NoSgf
    }
}
