//! The texts of a dictionary, appended to bytes.
ghost use Rattle.std.specs.Prelude.{◌≡◌, ◌++◌, ◌∷◌, [], ◌<◌, OnOk};
ghost use Rattle.std.specs.Fmt.{decimal};
ghost use Rattle.shape_dict.specs.Text.{hexadecimal_digit, word_text, optional_number, uses_text};
ghost use Rattle.shape_dict.specs.Text.{first_text, line_text};
ghost use Rattle.shape_dict.specs.Writing.{Begins};

use crate::entries::{Entry, Text};
use itoa::Buffer;
use shape_core::Shape;
use std::alloc::AllocError;

/// Appends all of `bytes` to `out`, or none of them if memory was refused.
pub(crate) fn push_bytes(out: &mut Vec<u8>, bytes: &[u8]) -> Result<(), AllocError>
    ensures ok { OnOk result (out.new.items ≡ out.old.items ++ bytes.now) }
    ensures begins { Begins out.old.items out.new.items }
{
    out.extend_from_slice(bytes)
}

/// Appends one byte.
fn push_byte(out: &mut Vec<u8>, byte: u8) -> Result<(), AllocError>
    ensures ok { OnOk result (out.new.items ≡ out.old.items ++ byte ∷ []) }
    ensures begins { Begins out.old.items out.new.items }
{
    out.push(byte)?;
    Ok(())
}

/// Appends a number in decimal digits. Most numbers of a dictionary have one digit.
///
/// # Errors
///
/// `AllocError` if memory was refused: `out` still begins with what it held.
#[tactic(auto, using(std::proofs::lemmas::Fmt::decimal_digit))]
pub fn push_number(out: &mut Vec<u8>, number: u64) -> Result<(), AllocError>
    ensures ok { OnOk result (out.new.items ≡ out.old.items ++ decimal number) }
    ensures begins { Begins out.old.items out.new.items }
{
    if number < 10 {
        return push_byte(out, b'0' + number as u8);
    }
    let mut buffer = Buffer::new();
    let digits = buffer.format(number);
    push_bytes(out, digits.as_bytes())
}

/// Returns the character of a hexadecimal digit in lower case. It has no branch, since no processor
/// can predict which digit comes.
fn hexadecimal_digit(digit: u8) -> u8
    requires { digit < 16 }
    ensures { result ≡ hexadecimal_digit digit }
{
    let is_letter = u8::from(9 < digit);
    b'0' + digit + (b'a' - b'9' - 1) * is_letter
}

/// Appends a pattern's word in 13 hexadecimal digits of lower case.
///
/// # Errors
///
/// `AllocError` if memory was refused: `out` still begins with what it held.
pub fn push_word(out: &mut Vec<u8>, shape: Shape) -> Result<(), AllocError>
    ensures ok { OnOk result (out.new.items ≡ out.old.items ++ word_text shape) }
    ensures begins { Begins out.old.items out.new.items }
{
    let digits = word_digits(shape.word().bits());
    push_bytes(out, &digits)
}

/// Returns the 13 lowest hexadecimal digits of a number, the highest first.
fn word_digits(number: u64) -> [u8; 13]
    ensures { result ≡ word_text number }
{
    let mut digits = [0u8; 13];
    for place in 0..13 {
        digits[place] = hexadecimal_digit(((number >> (48 - 4 * place)) % 16) as u8);
    }
    digits
}

/// Appends a number, or `-` if there is none.
pub(crate) fn push_optional(out: &mut Vec<u8>, number: Option<u64>) -> Result<(), AllocError>
    ensures ok { OnOk result (out.new.items ≡ out.old.items ++ optional_number number) }
    ensures begins { Begins out.old.items out.new.items }
{
    match number {
        None => push_bytes(out, b"-"),
        Some(number) => push_number(out, number),
    }
}

/// Appends a line's first game, or `-` if it is unknown, in text 3. In the other texts it appends
/// nothing.
fn push_first(out: &mut Vec<u8>, text: Text, first: Option<u64>) -> Result<(), AllocError>
    ensures ok { OnOk result (out.new.items ≡ out.old.items ++ first_text text first) }
    ensures begins { Begins out.old.items out.new.items }
{
    match text {
        Text::One | Text::Two => Ok(()),
        Text::Three => {
            push_bytes(out, b" ")?;
            push_optional(out, first)
        }
    }
}

/// Appends how often a pattern was there, and how often it was played. If both numbers have one
/// digit, as most have, one call appends them.
#[tactic(auto, using(std::proofs::lemmas::Fmt::decimal_digit))]
fn push_uses(out: &mut Vec<u8>, entry: &Entry) -> Result<(), AllocError>
    ensures ok { OnOk result (out.new.items ≡ out.old.items ++ uses_text entry.now) }
    ensures begins { Begins out.old.items out.new.items }
{
    if entry.there < 10 && entry.played < 10 {
        let uses = [
            b' ',
            b'0' + entry.there as u8,
            b' ',
            b'0' + entry.played as u8,
        ];
        return push_bytes(out, &uses);
    }
    push_byte(out, b' ')?;
    push_number(out, entry.there)?;
    push_byte(out, b' ')?;
    push_number(out, entry.played)
}

/// Appends a pattern's line to `out`, in the format `text`: its word, how often it was there and
/// was played, in text 3 also its first game, and a line feed.
///
/// # Errors
///
/// `AllocError` if memory was refused: `out` still begins with what it held, and may have a part of
/// the line after it.
pub fn push_line(out: &mut Vec<u8>, text: Text, entry: &Entry) -> Result<(), AllocError>
    ensures ok { OnOk result (out.new.items ≡ out.old.items ++ line_text text entry.now) }
    ensures begins { Begins out.old.items out.new.items }
{
    push_word(out, entry.shape)?;
    push_uses(out, entry)?;
    push_first(out, text, entry.first.get())?;
    push_byte(out, b'\n')
}
