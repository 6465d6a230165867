//! Fills a part: the bytes of well-formed texts of games, one after another, that are counted
//! together.
ghost use Rattle.std.specs.Prelude.{◌≡◌, ◌+◌, ◌^◌, ◌<◌, ◌≤◌, [], ℕ, List, length, Some, false, IfOk, IfErr, OnOk};
ghost use Rattle.merge_core.specs.Merge.{AreInputs};
ghost use Rattle.batch_core.specs.Batch.{joined};
ghost use Rattle.tally_parts.specs.Inner.Filling.{IsBegun, IsFilled, IsJudgement, IsSorted};
ghost use Rattle.tally_parts.specs.Inner.Filling.{GoesOn, waiting_of};
ghost use Rattle.tally_parts.specs.declared.faults.PartsFault.TheVariants as fault;

use crate::faults::PartsFault;
use crate::texts::Texts;
use batch_core::{push_text, report_of};
use game_core::{GamesFault, Report};
use sgf_core::{MOST_BYTES, SgfFault};
use std::alloc::{AllocError, Global};

/// How far the texts of games were read, and the text that is the first of the next part, if it was
/// read already.
#[derive(Drop)]
pub(crate) struct Feed {
    /// The number of the text that is read next.
    pub next: usize,
    /// The bytes of the text that was read last.
    pub room: Vec<u8>,
    /// Whether the text in `room` is well-formed and waits for the next part, as this one was full.
    pub waits: bool,
}

impl Feed {
    /// Makes a feed of which no text was read yet. It takes no memory.
    pub(crate) fn new(alloc: Global) -> Feed
        ensures next { result.next ≡ 0 }
        ensures waits { result.waits ≡ false }
    {
        Feed {
            next: 0,
            room: Vec::new(alloc),
            waits: false,
        }
    }
}

/// Checks a text for faults of syntax, and returns the report on its trees.
///
/// # Errors
///
/// `Sgf` with `TooLarge` (S4) if the text has 2^28 bytes or more, since in a part one more byte
/// stands after it. Else `Sgf` with its first fault of syntax. `Memory` if memory was refused.
fn judge(alloc: Global, text: &[u8]) -> Result<Report, GamesFault>
    ensures { IsJudgement text.now result }
{
    if text.len() >= MOST_BYTES {
        return Err(GamesFault::Sgf(SgfFault::TooLarge));
    }
    report_of(alloc, text)
}

/// Whether a text of `text` bytes may be appended to a part of `part` bytes: the part is empty, or
/// both together are below `most` and `MOST_BYTES`.
fn fits(part: usize, text: usize, most: usize) -> bool {
    part == 0 || part.saturating_add(text) < most.min(MOST_BYTES)
}

/// Appends the text that waits in `feed`, if one does, to `part`, which is empty. No text waits
/// afterwards.
///
/// # Errors
///
/// `AllocError` if memory was refused.
fn push_waiting(feed: &mut Feed, part: &mut Vec<u8>) -> Result<(), AllocError>
    requires { part.old.items ≡ [] }
    ensures pushed { OnOk result (part.new.items ≡ joined (waiting_of feed.old)) }
    ensures next { feed.new.next ≡ feed.old.next }
    ensures waits { OnOk result (feed.new.waits ≡ false) }
{
    if feed.waits {
        push_text(part, feed.room.as_slice())?;
        feed.waits = false;
    }
    Ok(())
}

/// Reads text `n`, counted from 0, into the feed's buffer. If it was read, it is checked for faults
/// of syntax, and `Texts::judged` gets the report on its trees, or its fault. Returns whether it
/// was read and has no fault.
///
/// # Errors
///
/// `Memory` if memory was refused.
fn read_next<T: Texts>(
    alloc: Global,
    texts: &mut T,
    feed: &mut Feed,
    n: usize,
) -> Result<bool, PartsFault>
    requires within { n < T.number texts.old }
    requires fits { n + 1 < 2 ^ 64 }
    ensures number { T.number texts.new ≡ T.number texts.old }
    ensures bytes { T.bytes texts.new ≡ T.bytes texts.old }
    ensures next { feed.new.next ≡ n + 1 }
    ensures waits { feed.new.waits ≡ feed.old.waits }
    ensures sorted { (text : List ℕ) → T.bytes texts.old n ≡ Some text
        → IfOk result (λ good. IsSorted text good feed.new.room.items) }
    ensures fault { IfErr result (λ found. found ≡ fault.Memory) }
{
    feed.next = n + 1;
    feed.room.clear();
    if !texts.read(n, &mut feed.room)? {
        return Ok(false);
    }
    let found = judge(alloc, feed.room.as_slice());
    if let Err(GamesFault::Memory) = found {
        return Err(PartsFault::Memory);
    }
    texts.judged(n, found);
    Ok(found.is_ok())
}

/// Fills an empty part with texts: the one that waits in `feed`, if one does, and those read after
/// it. Texts that can't be read or have a fault are left out. It stops at the first text that does
/// not fit, because the part would have `most` bytes or more (or `MOST_BYTES`): that text waits in
/// `feed` for the next part.
///
/// # Errors
///
/// `Memory` if memory was refused.
pub(crate) fn fill<T: Texts>(
    alloc: Global,
    texts: &mut T,
    feed: &mut Feed,
    most: usize,
    part: &mut Vec<u8>,
) -> Result<(), PartsFault>
    requires empty { part.old.items ≡ [] }
    requires within { feed.old.next ≤ T.number texts.old }
    ensures number { T.number texts.new ≡ T.number texts.old }
    ensures bytes { T.bytes texts.new ≡ T.bytes texts.old }
    ensures within { feed.new.next ≤ T.number texts.new }
    ensures on { OnOk result (GoesOn feed.old feed.new) }
    ensures filled { (all : List (List ℕ)) → AreInputs (T.bytes texts.old) 0 all
        → length all ≡ T.number texts.old → IsBegun all feed.old
        → OnOk result (IsFilled all feed.old feed.new part.new.items) }
    ensures fault { IfErr result (λ found. found ≡ fault.Memory) }
{
    push_waiting(feed, part)?;
    for n in feed.next..texts.count() {
        if !read_next(alloc, texts, feed, n)? {
            continue;
        }
        if !fits(part.len(), feed.room.len(), most) {
            feed.waits = true;
            return Ok(());
        }
        push_text(part, feed.room.as_slice())?;
    }
    Ok(())
}
