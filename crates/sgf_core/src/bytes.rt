//! The kinds of bytes that the grammar names, and the names of properties.
ghost use Rattle.std.specs.Prelude.{◌≡◌, ◌↔◌, IsTrue};
ghost use Rattle.sgf_core.specs.Bytes.{is_white, is_letter};
ghost use Rattle.sgf_core.specs.Tree.{name_of};

/// Whether this byte is white space: 09 to 0D or 20, in hexadecimal.
pub fn is_white(byte: u8) -> bool
    ensures { result ≡ is_white byte }
{
    matches!(byte, 0x09..=0x0d | b' ')
}

/// Whether this is an ASCII letter.
pub(crate) fn is_letter(byte: u8) -> bool
    ensures { result ≡ is_letter byte }
{
    byte.is_ascii_alphabetic()
}

/// Whether `name` is the name of a property with this identifier: the identifier's upper-case
/// letters, in order.
pub(crate) fn is_name_of(name: &[u8], identifier: &[u8]) -> bool
    ensures { IsTrue result ↔ (name_of identifier.now ≡ name.now) }
{
    let mut place = 0;
    for byte in identifier {
        if byte.is_ascii_uppercase() {
            if place == name.len() || name[place] != *byte {
                return false;
            }
            place += 1;
        }
    }
    place == name.len()
}
