//! The page of chosen patterns.
ghost use Rattle.std.specs.Prelude.{◌≡◌, ◌++◌, OnOk, IfOk, map};
ghost use Rattle.sheet_core.specs.Pieces.{ranked};
ghost use Rattle.sheet_core.specs.Page.{name_text, share_text, uses_text, game_text, caption_text};
ghost use Rattle.sheet_core.specs.Page.{figure_text, kind_name, order_name, counted_text, number_text};
ghost use Rattle.sheet_core.specs.Page.{terms_text, body_text, page_text};
ghost use Rattle.sheet_core.specs.Page.{legend_text, heading_text, end_text, head_text};

use crate::asked::Asked;
use crate::drawing::push_drawing;
use crate::empty::push_empty;
use crate::head::HEAD;
use crate::orders::Order;
use crate::pieces::push_whole_percent;
use crate::places::{lines_of, push_places};
use shape_core::Kind;
use shape_dict::{Dictionary, Entry, FirstGame, push_number, push_word};
use std::alloc::{AllocError, Global};

/// Appends how many times of a hundred the pattern was played, and how often it was there, such as
/// `48 % of 100`.
#[tactic(auto, unfolding(crate::specs::Page::share_text))]
fn push_share(text: &mut Vec<u8>, entry: &Entry) -> Result<(), AllocError>
    ensures { OnOk result (text.new.items ≡ text.old.items ++ share_text entry.now) }
{
    text.extend_from_slice(b"<b>")?;
    push_whole_percent(text, entry)?;
    text.extend_from_slice(b" of ")?;
    push_number(text, entry.there)?;
    text.extend_from_slice(b"</b>")?;
    Ok(())
}

/// Appends how many times of a hundred the pattern was played and how often it was there, and then
/// how often it was played.
#[tactic(auto, unfolding(crate::specs::Page::uses_text))]
fn push_uses(text: &mut Vec<u8>, entry: &Entry) -> Result<(), AllocError>
    ensures { OnOk result (text.new.items ≡ text.old.items ++ uses_text entry.now) }
{
    push_share(text, entry)?;
    text.extend_from_slice(b"<br>played ")?;
    push_number(text, entry.played)?;
    Ok(())
}

/// Appends a pattern's `rank` and its word.
#[tactic(auto, unfolding(crate::specs::Page::name_text))]
fn push_name(text: &mut Vec<u8>, rank: u64, entry: &Entry) -> Result<(), AllocError>
    ensures { OnOk result (text.new.items ≡ text.old.items ++ name_text rank entry.now) }
{
    text.extend_from_slice(b", rank ")?;
    push_number(text, rank)?;
    text.extend_from_slice(b"<br><code>")?;
    push_word(text, entry.shape)?;
    text.extend_from_slice(b"</code>")
}

/// Appends the number of the first game that had the pattern; nothing if it is not known.
#[tactic(auto, unfolding(crate::specs::Page::game_text))]
fn push_game(text: &mut Vec<u8>, first: FirstGame) -> Result<(), AllocError>
    ensures { OnOk result (text.new.items ≡ text.old.items ++ game_text first) }
{
    match first.get() {
        None => Ok(()),
        Some(game) => {
            text.extend_from_slice(b"<br>first in game ")?;
            push_number(text, game)
        }
    }
}

/// Appends the caption below a drawing: how often the pattern was there and was played, its `rank`,
/// its word, and the first game that had it.
#[tactic(auto, unfolding(crate::specs::Page::caption_text))]
fn push_caption(text: &mut Vec<u8>, rank: u64, entry: &Entry) -> Result<(), AllocError>
    ensures { OnOk result (text.new.items ≡ text.old.items ++ caption_text rank entry.now) }
{
    text.extend_from_slice(b"<figcaption>")?;
    push_uses(text, entry)?;
    push_name(text, rank, entry)?;
    push_game(text, entry.first)?;
    text.extend_from_slice(b"</figcaption>")?;
    Ok(())
}

/// Appends the figure of a pattern: its drawing, its caption with its rank, and where it was in
/// games. `lines` are lines of hits as `shape_hits --words` prints them, of which the pattern's
/// first three at most are shown.
#[tactic(auto, unfolding(crate::specs::Page::figure_text))]
fn push_figure(
    alloc: Global,
    text: &mut Vec<u8>,
    lines: &[&[u8]],
    rank: u64,
    entry: &Entry,
) -> Result<(), AllocError>
    ensures { OnOk result (text.new.items
        ≡ text.old.items ++ figure_text (map (λ line. line.now) lines.now) rank entry.now) }
{
    text.extend_from_slice(b"<figure>")?;
    push_drawing(text, entry.shape.word())?;
    push_caption(text, rank, entry)?;
    push_places(alloc, text, lines, entry.shape)?;
    text.extend_from_slice(b"</figure>\n")?;
    Ok(())
}

/// Appends the figures of the `chosen` patterns, the first with rank 1. `lines` are lines of hits
/// as `shape_hits --words` prints them, of which the first three at most are below each pattern.
fn push_figures(
    alloc: Global,
    text: &mut Vec<u8>,
    lines: &[&[u8]],
    chosen: &[Entry],
) -> Result<(), AllocError>
    ensures { OnOk result (text.new.items ≡ text.old.items
        ++ ranked (figure_text (map (λ line. line.now) lines.now)) 1 chosen.now) }
{
    let mut rank = 1;
    for entry in chosen {
        push_figure(alloc, text, lines, rank, entry)?;
        rank += 1;
    }
    Ok(())
}

/// Returns the word for patterns of a kind at the beginning of a sentence.
fn kind_name(kind: Kind) -> &'static [u8]
    ensures { result.now ≡ kind_name kind }
{
    match kind {
        Kind::Square => b"Squares",
        Kind::Diamond => b"Diamonds",
    }
}

/// Returns the words for the patterns that come first in an order.
fn order_name(order: Order) -> &'static [u8]
    ensures { result.now ≡ order_name order }
{
    match order {
        Order::Played => b"the most often played",
        Order::Urgency => b"the most urgent",
        Order::There => b"the most often there",
        Order::Bound => b"the most surely urgent",
    }
}

/// Appends the head of the page.
#[tactic(auto, unfolding(crate::specs::Page::head_text))]
fn push_head(text: &mut Vec<u8>) -> Result<(), AllocError>
    ensures { OnOk result (text.new.items ≡ text.old.items ++ head_text) }
{
    text.extend_from_slice(HEAD.as_bytes())
}

/// Appends how many games and moves the dictionary counts.
#[tactic(auto, unfolding(crate::specs::Page::counted_text))]
fn push_counted(text: &mut Vec<u8>, dictionary: &Dictionary) -> Result<(), AllocError>
    ensures { OnOk result (text.new.items ≡ text.old.items ++ counted_text dictionary.now) }
{
    text.extend_from_slice(b"<p>Games: ")?;
    push_number(text, dictionary.games())?;
    text.extend_from_slice(b", moves: ")?;
    push_number(text, dictionary.moves())?;
    text.extend_from_slice(b". ")
}

/// Appends that `count` patterns of this `kind` are shown.
#[tactic(auto, unfolding(crate::specs::Page::number_text))]
fn push_shown(text: &mut Vec<u8>, kind: Kind, count: u64) -> Result<(), AllocError>
    ensures { OnOk result (text.new.items ≡ text.old.items ++ number_text kind count) }
{
    text.extend_from_slice(kind_name(kind))?;
    text.extend_from_slice(b" shown: ")?;
    push_number(text, count)
}

/// Appends which patterns come first by `order`, and that each was there at least `least` times.
#[tactic(auto, unfolding(crate::specs::Page::terms_text))]
fn push_terms(text: &mut Vec<u8>, order: Order, least: u64) -> Result<(), AllocError>
    ensures { OnOk result (text.new.items ≡ text.old.items ++ terms_text order least) }
{
    text.extend_from_slice(b", ")?;
    text.extend_from_slice(order_name(order))?;
    text.extend_from_slice(b" first, each there at least this often: ")?;
    push_number(text, least)?;
    text.extend_from_slice(b".</p>\n")?;
    Ok(())
}

/// Appends the paragraph that says how a figure is read, and the tag with which the figures begin.
#[tactic(auto, unfolding(crate::specs::Page::legend_text))]
fn push_legend(text: &mut Vec<u8>) -> Result<(), AllocError>
    ensures { OnOk result (text.new.items ≡ text.old.items ++ legend_text) }
{
    text.extend_from_slice(
        b"<p>1 is the move, and Black is to play it: with colours exchanged it is the same pattern. A thick line is the edge of the board; what is beyond a picture is no part of the pattern. <b>48 % of 100</b>: the pattern was there 100 times for the player to move, who played on its point 48 times.</p>\n<main>\n",
    )
}

/// Appends what is above the figures: what was counted, that `count` patterns are shown, which come
/// first, and how a figure is read.
#[tactic(auto, unfolding(crate::specs::Page::heading_text))]
fn push_heading(
    text: &mut Vec<u8>,
    asked: Asked,
    dictionary: &Dictionary,
    count: u64,
) -> Result<(), AllocError>
    ensures { OnOk result (text.new.items
        ≡ text.old.items ++ heading_text asked dictionary.now count) }
{
    push_counted(text, dictionary)?;
    push_shown(text, asked.kind, count)?;
    push_terms(text, asked.order, asked.least)?;
    push_legend(text)
}

/// Appends the figures of the `chosen` patterns, each with the hits that `lines` has of it. If
/// there are none, appends a paragraph that says why none of `dictionary` was chosen.
#[tactic(auto, unfolding(crate::specs::Page::body_text))]
fn push_body(
    alloc: Global,
    text: &mut Vec<u8>,
    asked: Asked,
    lines: &[&[u8]],
    dictionary: &Dictionary,
    chosen: &[Entry],
) -> Result<(), AllocError>
    ensures { OnOk result (text.new.items
        ≡ text.old.items ++ body_text asked (map (λ line. line.now) lines.now)
        dictionary.now chosen.now) }
{
    if chosen.is_empty() {
        text.extend_from_slice(b"<p>")?;
        push_empty(text, asked, dictionary.entries())?;
        text.extend_from_slice(b"</p>\n")?;
        return Ok(());
    }
    push_figures(alloc, text, lines, chosen)
}

/// Appends the tags with which the page ends.
#[tactic(auto, unfolding(crate::specs::Page::end_text))]
fn push_end(text: &mut Vec<u8>) -> Result<(), AllocError>
    ensures { OnOk result (text.new.items ≡ text.old.items ++ end_text) }
{
    text.extend_from_slice(b"</main>\n</body>\n</html>\n")
}

/// Returns the page of HTML that shows the `chosen` patterns of `dictionary`. The page is one file:
/// it holds its style sheet, has no script, and loads nothing. It takes memory for the text.
///
/// `hits` is text of `shape_hits --words`: each line begins with a pattern's word and a space, and
/// says where in a game that was. Below each pattern stand the first three at most of its lines,
/// without the word and the space.
///
/// # Errors
///
/// `AllocError` if memory was refused.
#[tactic(auto, unfolding(crate::specs::Page::page_text))]
pub fn page_text(
    alloc: Global,
    asked: Asked,
    hits: &[u8],
    dictionary: &Dictionary,
    chosen: &[Entry],
) -> Result<Vec<u8>, AllocError>
    ensures { IfOk result (λ text. text.items
        ≡ page_text asked hits.now dictionary.now chosen.now) }
{
    let lines = lines_of(alloc, hits)?;
    let mut text = Vec::new(alloc);
    push_head(&mut text)?;
    push_heading(&mut text, asked, dictionary, chosen.len() as u64)?;
    push_body(alloc, &mut text, asked, &lines, dictionary, chosen)?;
    push_end(&mut text)?;
    Ok(text)
}
