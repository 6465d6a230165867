//! The name of the SGF file for a hit, which is a time that a pattern was played or was there.
ghost use Rattle.std.specs.Prelude.{◌≡◌, ◌++◌, OnOk, IfOk, replicate};
ghost use Rattle.hits_core.specs.Sgf.{padded, file_name};

use crate::hits::Hit;
use crate::writing::push_point;
use shape_dict::push_number;
use std::alloc::{AllocError, Global};

/// Appends the digit 0 `count` times.
fn push_zeros(text: &mut Vec<u8>, count: usize) -> Result<(), AllocError>
    ensures { OnOk result (text.new.items ≡ text.old.items ++ replicate count 48) }
{
    for _place in 0..count {
        text.push(b'0')?;
    }
    Ok(())
}

/// Appends `number` in decimal, with zeros before it if it has fewer than `digits` digits.
fn push_padded(
    alloc: Global,
    text: &mut Vec<u8>,
    digits: usize,
    number: u64,
) -> Result<(), AllocError>
    ensures { OnOk result (text.new.items ≡ text.old.items ++ padded digits number) }
{
    let mut spelled = Vec::new(alloc);
    push_number(&mut spelled, number)?;
    push_zeros(text, digits.saturating_sub(spelled.len()))?;
    text.extend_from_slice(&spelled)
}

/// Returns the name of the SGF file for `hit`, such as `game-000003-move-017-dp.sgf`: the number of
/// the game in six digits or more, the number of the move in three or more, and the letters of the
/// point in SGF. Hits at the same point before the same move of the same game have the same name,
/// and so the same file. It takes memory for the name.
///
/// # Errors
///
/// `AllocError` if memory was refused.
pub fn file_name(alloc: Global, hit: &Hit) -> Result<Vec<u8>, AllocError>
    ensures { IfOk result (λ name. name.items ≡ file_name hit.now) }
{
    let mut name = Vec::new(alloc);
    name.extend_from_slice(b"game-")?;
    push_padded(alloc, &mut name, 6, hit.game)?;
    name.extend_from_slice(b"-move-")?;
    push_padded(alloc, &mut name, 3, hit.number)?;
    name.extend_from_slice(b"-")?;
    push_point(&mut name, hit.at)?;
    name.extend_from_slice(b".sgf")?;
    Ok(name)
}
