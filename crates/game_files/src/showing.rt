//! How the name of a file is shown: its control bytes as `?`.
ghost use Rattle.std.specs.Prelude.{◌≡◌, ◌++◌, OnOk};
ghost use Rattle.game_files.specs.Shown.{shown_byte, shown_name};

use std::alloc::AllocError;
use std::fmt;

/// Returns the byte that is shown for a byte of a name: `?` for one below 32 or 127, else itself.
fn shown_byte(byte: u8) -> u8
    ensures { result ≡ shown_byte byte }
{
    if byte < 32 || byte == 127 { b'?' } else { byte }
}

/// Appends a name as it is shown: a control byte, which is one below 32 or byte 127, is a `?`, and
/// each other byte stands as it is. So a name is never more than a line, and has no tab.
///
/// # Errors
///
/// `AllocError` if memory was refused.
pub fn push_name(text: &mut Vec<u8>, name: &str) -> Result<(), AllocError>
    ensures { OnOk result (text.new.items ≡ text.old.items ++ shown_name name.now) }
{
    let bytes = name.as_bytes();
    for byte in bytes {
        text.push(shown_byte(*byte))?;
    }
    Ok(())
}

/// A name, which is printed as `push_name` appends it.
#[derive(Clone, Copy)]
pub struct Shown<'a>(pub &'a str);

impl fmt::Display for Shown<'_> {
    fn fmt<W: fmt::Write>(&self, f: &mut fmt::Formatter<W>) -> fmt::Result {
        for letter in self.0.chars() {
            if letter < ' ' || letter == '\u{7f}' {
                f.write_str("?")?;
            } else {
                f.write_char(letter)?;
            }
        }
        Ok(())
    }
}
