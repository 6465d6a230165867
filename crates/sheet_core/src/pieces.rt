//! What a sheet's two forms, plain text and page, have in common.
ghost use Rattle.std.specs.Prelude.{◌≡◌, ◌++◌, OnOk};
ghost use Rattle.sheet_core.specs.Pieces.{hundredths_of, whole_percent_text, percent_text, first_text};

use itoa::Buffer;
use shape_dict::{Entry, push_number};
use std::alloc::AllocError;

/// Returns the pattern's plays for each ten thousand times that it was there, rounded down.
fn hundredths(entry: &Entry) -> u128
    ensures { result ≡ hundredths_of entry.now }
{
    u128::from(entry.played) * 10_000 / u128::from(entry.there.max(1))
}

/// Appends how often the pattern was played when it was there, in whole percent, rounded down.
#[tactic(auto, unfolding(crate::specs::Pieces::whole_percent_text))]
pub(crate) fn push_whole_percent(text: &mut Vec<u8>, entry: &Entry) -> Result<(), AllocError>
    ensures { OnOk result (text.new.items
        ≡ text.old.items ++ whole_percent_text (hundredths_of entry.now)) }
{
    let mut buffer = Buffer::new();
    text.extend_from_slice(buffer.format(hundredths(entry) / 100).as_bytes())?;
    text.extend_from_slice(b" %")
}

/// Appends how often the pattern was played when it was there, in percent with two decimals,
/// rounded down.
pub(crate) fn push_percent(text: &mut Vec<u8>, entry: &Entry) -> Result<(), AllocError>
    ensures { OnOk result (text.new.items
        ≡ text.old.items ++ percent_text (hundredths_of entry.now)) }
{
    let hundredths = hundredths(entry);
    let mut buffer = Buffer::new();
    text.extend_from_slice(buffer.format(hundredths / 100).as_bytes())?;
    text.push(b'.')?;
    text.push(b'0' + (hundredths / 10 % 10) as u8)?;
    text.push(b'0' + (hundredths % 10) as u8)?;
    text.push(b'%')?;
    Ok(())
}

/// Appends ` first ` and the number of the first game that had the pattern; nothing if it is not
/// known.
pub(crate) fn push_first(text: &mut Vec<u8>, first: Option<u64>) -> Result<(), AllocError>
    ensures { OnOk result (text.new.items ≡ text.old.items ++ first_text first) }
{
    match first {
        None => Ok(()),
        Some(game) => {
            text.extend_from_slice(b" first ")?;
            push_number(text, game)
        }
    }
}
