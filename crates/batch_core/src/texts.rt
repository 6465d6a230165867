//! Reads texts of games one by one, and joins them into one input.
ghost use Rattle.std.specs.Prelude.{◌≡◌, ℕ, List, [], ◌∷◌, ◌++◌, OnOk, IfOk, IfErr};
ghost use Rattle.game_core.specs.Games.{HasReadAll};
ghost use Rattle.game_core.specs.Faults.{IsGamesFault};
ghost use Rattle.batch_core.specs.Batch.{joined};

use game_core::{Games, GamesFault, Report};
use std::alloc::{AllocError, Global};

/// Reads a text to its end and returns how many of its trees are games of Go, are of other games,
/// and are refused. It takes memory for one tree and its record.
///
/// # Errors
///
/// `Sgf` with `TooLarge` (S4) if the text has more than 2^28 bytes, else with its first fault of
/// syntax; `Memory` if memory was refused.
pub fn report_of(alloc: Global, text: &[u8]) -> Result<Report, GamesFault>
    ensures read { IfOk result (HasReadAll text.now) }
    ensures fault { IfErr result (IsGamesFault text.now) }
{
    let mut games = Games::new(text)?;
    while games.next_job(alloc)?.is_some() {}
    Ok(games.report())
}

/// Appends `text` to `texts`, the SGF texts already joined, and a closing parenthesis after it.
/// Outside of trees a reader passes over the parenthesis, and no tree continues after it. It takes
/// memory.
///
/// # Errors
///
/// `AllocError` if memory was refused. `texts` is then as it was.
pub fn push_text(texts: &mut Vec<u8>, text: &[u8]) -> Result<(), AllocError>
    ensures pushed { (before : List (List ℕ)) → texts.old.items ≡ joined before
        → OnOk result (texts.new.items ≡ joined (before ++ text.now ∷ [])) }
    ensures same { IfErr result (λ _. texts.new.items ≡ texts.old.items) }
{
    texts.reserve(text.len() + 1)?;
    texts.extend_from_slice(text)?;
    texts.push_reserved(b')');
    Ok(())
}
