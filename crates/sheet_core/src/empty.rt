//! Why no pattern of a dictionary is chosen.
ghost use Rattle.std.specs.Prelude.{◌≡◌, ◌++◌, ◌∷◌, None, OnOk, List};
ghost use Rattle.shape_dict.specs.Contents.{is_of, of_kind};
ghost use Rattle.shape_dict.specs.declared.entries.Entry.{Entry as One};
ghost use Rattle.sheet_core.specs.Empty.{most_after, plural_name, absent_text, rare_text};
ghost use Rattle.sheet_core.specs.Empty.{most_text, none_text, empty_text};

use crate::asked::Asked;
use shape_core::Kind;
use shape_dict::{Entry, push_number};
use std::alloc::AllocError;

/// Whether the pattern of `entry` is of this `kind`.
fn is_of(kind: Kind, entry: &Entry) -> bool
    ensures { result ≡ is_of kind entry.now }
{
    entry.shape.word().kind() == kind
}

/// Returns the greater of `most` and the times that the pattern of `entry` was there; `most` alone
/// if that pattern is not of this `kind`. `most` is None as long as no pattern of the kind was met.
#[tactic(auto, using(crate::proofs::Greatest::most_stays, crate::proofs::Greatest::most_grows))]
fn most_with(kind: Kind, most: Option<u64>, entry: &Entry) -> Option<u64>
    ensures { (rest : List One) → most_after most (of_kind kind (entry.now ∷ rest))
        ≡ most_after result (of_kind kind rest) }
{
    if !is_of(kind, entry) {
        return most;
    }
    Some(most.unwrap_or(0).max(entry.there))
}

/// Returns the greatest number of times that any pattern of this `kind` was there; None if
/// `entries` has none of the kind.
fn most_there(kind: Kind, entries: &[Entry]) -> Option<u64>
    ensures { result ≡ most_after None (of_kind kind entries.now) }
{
    let mut most: Option<u64> = None;
    for entry in entries {
        most = most_with(kind, most, entry);
    }
    most
}

/// Returns the word for patterns of a kind: `squares` or `diamonds`.
fn plural_name(kind: Kind) -> &'static [u8]
    ensures { result.now ≡ plural_name kind }
{
    match kind {
        Kind::Square => b"squares",
        Kind::Diamond => b"diamonds",
    }
}

/// Appends the sentence that the dictionary has no pattern of this `kind`.
#[tactic(auto, unfolding(crate::specs::Empty::absent_text))]
fn push_absent(text: &mut Vec<u8>, kind: Kind) -> Result<(), AllocError>
    ensures { OnOk result (text.new.items ≡ text.old.items ++ absent_text kind) }
{
    text.extend_from_slice(b"The dictionary has no ")?;
    text.extend_from_slice(plural_name(kind))?;
    text.extend_from_slice(b".")?;
    Ok(())
}

/// Appends the beginning of a sentence: no pattern of this `kind` was there as often as `least`
/// times.
#[tactic(auto, unfolding(crate::specs::Empty::rare_text))]
fn push_rare(text: &mut Vec<u8>, kind: Kind, least: u64) -> Result<(), AllocError>
    ensures { OnOk result (text.new.items ≡ text.old.items ++ rare_text kind least) }
{
    text.extend_from_slice(b"None of the ")?;
    text.extend_from_slice(plural_name(kind))?;
    text.extend_from_slice(b" was there as often as ")?;
    push_number(text, least)?;
    text.extend_from_slice(b" times: ")?;
    Ok(())
}

/// Appends that the most frequent pattern was there `most` times: the words `at most N times.`
#[tactic(auto, unfolding(crate::specs::Empty::most_text))]
fn push_most(text: &mut Vec<u8>, most: u64) -> Result<(), AllocError>
    ensures { OnOk result (text.new.items ≡ text.old.items ++ most_text most) }
{
    text.extend_from_slice(b"at most ")?;
    push_number(text, most)?;
    text.extend_from_slice(b" times.")?;
    Ok(())
}

/// Appends that there is no pattern of this `kind`, or that none was there as often as `least`
/// times. `most` is how often the most frequent one was there; None if there is no pattern of the
/// kind.
fn push_none(
    text: &mut Vec<u8>,
    kind: Kind,
    least: u64,
    most: Option<u64>,
) -> Result<(), AllocError>
    ensures { OnOk result (text.new.items ≡ text.old.items ++ none_text kind least most) }
{
    match most {
        None => push_absent(text, kind),
        Some(most) => {
            push_rare(text, kind, least)?;
            push_most(text, most)
        }
    }
}

/// Appends why no pattern of `entries` was chosen: there is none of the kind `asked.kind`, or none
/// that was there `asked.least` times.
#[tactic(auto, unfolding(crate::specs::Empty::empty_text))]
pub(crate) fn push_empty(
    text: &mut Vec<u8>,
    asked: Asked,
    entries: &[Entry],
) -> Result<(), AllocError>
    ensures { OnOk result (text.new.items ≡ text.old.items ++ empty_text asked entries.now) }
{
    push_none(
        text,
        asked.kind,
        asked.least,
        most_there(asked.kind, entries),
    )
}
