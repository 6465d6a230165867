//! Simple text of SGF FF[4]: what a value says, with its escapes taken out, as one line.
ghost use Rattle.std.specs.Prelude.{◌≡◌, ◌++◌, OnOk};
ghost use Rattle.listing_core.specs.Simple.{ends_break, is_escaped, breaks, is_left_out};
ghost use Rattle.listing_core.specs.Simple.{text_byte, meaning, next, simple_text};

use sgf_core::is_white;
use std::alloc::AllocError;

/// What the bytes before a byte of a value mean for that byte.
#[derive(Clone, Copy)]
pub(crate) enum After {
    /// Nothing.
    Plain,
    /// A backslash, which takes the byte's meaning away.
    Backslash,
    /// A carriage return, with which a line feed is one line break.
    Return,
    /// A line feed, with which a carriage return is one line break.
    Feed,
}

/// Whether `byte`, after bytes that mean `before`, is the second one of a line break.
fn ends_break(before: After, byte: u8) -> bool
    ensures { result ≡ ends_break before byte }
{
    match before {
        After::Plain | After::Backslash => false,
        After::Return => byte == b'\n',
        After::Feed => byte == b'\r',
    }
}

/// Whether `before` is a backslash, which takes the next byte's meaning away.
fn is_escaped(before: After) -> bool
    ensures { result ≡ is_escaped before }
{
    match before {
        After::Backslash => true,
        After::Plain | After::Return | After::Feed => false,
    }
}

/// Whether the byte is a line feed or a carriage return.
fn breaks(byte: u8) -> bool
    ensures { result ≡ breaks byte }
{
    byte == b'\n' || byte == b'\r'
}

/// Whether `byte` is left out of the simple text: the second byte of a line break, a line break
/// after a backslash, and a backslash that none escapes.
fn is_left_out(before: After, byte: u8) -> bool
    ensures { result ≡ is_left_out before byte }
{
    if ends_break(before, byte) {
        return true;
    }
    if is_escaped(before) {
        breaks(byte)
    } else {
        byte == b'\\'
    }
}

/// Returns the byte of simple text for a byte that is not left out: a space for white space, and
/// else the byte itself.
fn text_byte(byte: u8) -> u8
    ensures { result ≡ text_byte byte }
{
    if is_white(byte) { b' ' } else { byte }
}

/// Returns what `byte` means for the byte after it, if `byte` is not the second one of a line
/// break. `before` is what the bytes before it mean for `byte`.
fn meaning(before: After, byte: u8) -> After
    ensures { result ≡ meaning before byte }
{
    if byte == b'\n' {
        After::Feed
    } else if byte == b'\r' {
        After::Return
    } else if is_escaped(before) {
        After::Plain
    } else if byte == b'\\' {
        After::Backslash
    } else {
        After::Plain
    }
}

/// Returns what `byte` means for the byte after it; `before` is what the bytes before it mean for
/// `byte`.
fn next(before: After, byte: u8) -> After
    ensures { result ≡ next before byte }
{
    if ends_break(before, byte) {
        After::Plain
    } else {
        meaning(before, byte)
    }
}

/// Appends what a value's `bytes` say as simple text: on one line, without escapes, and with a
/// space for each line break and other white space.
pub(crate) fn push_simple(text: &mut Vec<u8>, bytes: &[u8]) -> Result<(), AllocError>
    ensures { OnOk result (text.new.items ≡ text.old.items ++ simple_text bytes.now) }
{
    let mut before = After::Plain;
    for byte in bytes {
        if !is_left_out(before, *byte) {
            text.push(text_byte(*byte))?;
        }
        before = next(before, *byte);
    }
    Ok(())
}
