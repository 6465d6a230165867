//! Which of the three texts of a dictionary `--text` asks for.
ghost use Rattle.std.specs.Prelude.{◌≡◌, ◌≢◌, codes, IfSome, IfNone};
ghost use Rattle.command_lines.specs.Texts.{HasNoText, number_of};
ghost use Rattle.command_lines.specs.Values.{IsNumberOf, rows_in};
ghost use Rattle.shape_dict.specs.declared.entries.Text.{Text};

use crate::values::small_number;
use clap::ArgMatches;
use shape_dict::Text;

/// Returns the text format of this number, from 1 to 3, or None if there is none.
fn text_numbered(number: u8) -> Option<Text>
    ensures text { IfSome result (λ text. number ≡ number_of text) }
    ensures none { IfNone result ((text : Text) → number ≢ number_of text) }
{
    match number {
        1 => Some(Text::One),
        2 => Some(Text::Two),
        3 => Some(Text::Three),
        _ => None,
    }
}

/// Returns which of the three text formats of a dictionary `--text` asks for, or None if its value
/// is none of 1 to 3. It takes no memory.
pub fn text_of(matches: &ArgMatches<'_>) -> Option<Text>
    ensures text { IfSome result (λ text. IsNumberOf (codes "text") (rows_in matches.now)
        (number_of text)) }
    ensures none { IfNone result (HasNoText (rows_in matches.now)) }
{
    match small_number(matches, "text") {
        Some(number) => text_numbered(number),
        None => None,
    }
}
