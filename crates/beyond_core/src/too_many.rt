//! Finds the pattern with which a counted collection first has more patterns than some number: its
//! dictionary tells the game, and that game alone is walked (replayed, and its patterns listed)
//! again.
ghost use Rattle.std.specs.Prelude.{◌≡◌, ◌<◌, length, nat_eq, IfOk, IfErr, OnOk, filter, slice_get};
ghost use Rattle.std.specs.HashSet.{contains};
ghost use Rattle.harvest_faults.specs.declared.faults.HarvestFault.TheVariants as fault;
ghost use Rattle.shape_dict.specs.Pieces.{entries_in};
ghost use Rattle.tally_core.specs.Beyond.{IsFirstBeyond};
ghost use Rattle.tally_core.specs.Counted.{IsCounted};
ghost use Rattle.tally_core.specs.Walk.{once_each, shapes_of};
ghost use Rattle.beyond_core.specs.Refused.{IsCountRefused, IsHarvestRefused};
ghost use Rattle.beyond_core.specs.Inner.TooMany.{new_words, IsNewAt};
ghost use Rattle.beyond_core.specs.Inner.TooMany.{HasGame, HasMet, HasPut, HasWords};

use crate::reaching::game_of;
use game_core::{Games, Job};
use go_record::{few_actions, replays_have_one_result};
use harvest_faults::HarvestFault;
use sgf_core::few_values;
use shape_core::{Kinds, Shape};
use shape_dict::Entry;
use std::alloc::Global;
use std::collections::HashSet;
use tally_core::{Counted, Meeting, Walk};

/// The pattern with which a collection first has more patterns than some number, and its game.
#[derive(Clone, Copy)]
struct FirstBeyond {
    /// The first pattern beyond that number.
    shape: Shape,
    /// The first game that has it.
    game: u64,
}

/// Puts into `words` the words (the codes) of those patterns of a list which `game` is the first
/// game to have.
fn put_new(words: &mut HashSet<u64>, entries: &[Entry], game: u64) -> Result<(), HarvestFault>
    ensures put { OnOk result (HasPut words.old (new_words game entries.now) words.new) }
    ensures fault { IfErr result (λ found. found ≡ fault.Memory) }
{
    for entry in entries {
        if entry.first.get() == Some(game) {
            words.insert(entry.shape.word().bits())?;
        }
    }
    Ok(())
}

/// Returns the words of the patterns that `game` is the first game to have. It takes memory for
/// them.
fn new_of(alloc: Global, pieces: &[Vec<Entry>], game: u64) -> Result<HashSet<u64>, HarvestFault>
    ensures has { IfOk result
        (λ words. HasWords words (new_words game (entries_in pieces.now))) }
    ensures fault { IfErr result (λ found. found ≡ fault.Memory) }
{
    let mut words = HashSet::new(alloc);
    for piece in pieces {
        put_new(&mut words, piece.as_slice(), game)?;
    }
    Ok(words)
}

/// Returns the job (the number and the record) of game `game`, counted from 0, of the input
/// `bytes`. The games before it are read and passed over. It takes memory for a tree and its
/// record.
fn job_of<'a>(alloc: Global, bytes: &'a [u8], game: u64) -> Result<Job<'a>, HarvestFault>
    requires { HasGame bytes.now game }
    ensures job { IfOk result (λ job. (job.bytes ≡ bytes.now) × (job.game ≡ game)) }
    ensures fault { IfErr result (IsCountRefused bytes.now) }
{
    let mut games = Games::new(bytes)?;
    'turn: while let Some(job) = games.next_job(alloc)? {
        if job.game() == game {
            return Ok(job);
        }
    }
    unreachable!()
}

/// Replays game `game` of the input `bytes`: `walk.meetings()` has its patterns then. It takes
/// memory for the game's tree, its record, the board and what the game meets.
fn walk_game(alloc: Global, walk: &mut Walk, bytes: &[u8], game: u64) -> Result<(), HarvestFault>
    requires { HasGame bytes.now game }
    ensures met { OnOk result (HasMet walk.old.kinds bytes.now game walk.new.meetings) }
    ensures fault { IfErr result (IsCountRefused bytes.now) }
{
    // For the proof alone: no input has as many actions as a walk refuses.
    few_actions();
    few_values();
    let job = job_of(alloc, bytes, game)?;
    walk.walk(job.record())?;
    Ok(())
}

/// Returns the pattern at index `place`, from 0, among those of `meetings` whose words are in
/// `words`, each counted once, in the order in which they were first met. The words up to it are
/// taken out of `words`. None if there are fewer.
fn shape_at(words: &mut HashSet<u64>, meetings: &[Meeting], place: usize) -> Option<Shape>
    ensures { result ≡ slice_get (filter (contains nat_eq words.old)
        (once_each (shapes_of meetings.now))) place }
{
    let mut left = place;
    for meeting in meetings {
        if words.remove(&meeting.shape.word().bits()) {
            if left == 0 {
                return Some(meeting.shape);
            }
            left -= 1;
        }
    }
    None
}

/// Returns the pattern at index `place`, from 0, among those that `game` is the first game to have,
/// in the order in which its walk meets them. None if there are fewer.
fn new_at(
    alloc: Global,
    kinds: Kinds,
    pieces: &[Vec<Entry>],
    bytes: &[u8],
    game: u64,
    place: usize,
) -> Result<Option<Shape>, HarvestFault>
    requires { HasGame bytes.now game }
    ensures found { IfOk result (IsNewAt kinds bytes.now (entries_in pieces.now) game place) }
    ensures fault { IfErr result (IsCountRefused bytes.now) }
{
    let mut words = new_of(alloc, pieces, game)?;
    let mut walk = Walk::begin(alloc, kinds);
    walk_game(alloc, &mut walk, bytes, game)?;
    Ok(shape_at(&mut words, walk.meetings(), place))
}

/// Returns the pattern with which a counted collection first has more patterns than `most`, and its
/// first game.
fn first_of(
    alloc: Global,
    kinds: Kinds,
    most: usize,
    bytes: &[u8],
    counted: &Counted,
) -> Result<FirstBeyond, HarvestFault>
    requires counted { IsCounted kinds bytes.now counted.now }
    requires many { most < length counted.now.dictionary.entries }
    ensures first { IfOk result
        (λ first. IsFirstBeyond kinds bytes.now most first.game first.shape) }
    ensures fault { IfErr result (IsCountRefused bytes.now) }
{
    // For the proof alone: two replays of a game have the same patterns.
    replays_have_one_result();
    let pieces = counted.dictionary.pieces();
    let reached = game_of(alloc, &counted.dictionary, most)?;
    let game = reached.game;
    match new_at(alloc, kinds, pieces, bytes, game, most - reached.before)? {
        Some(shape) => Ok(FirstBeyond { shape, game }),
        None => unreachable!(),
    }
}

/// Returns why a collection with more than `most` patterns is refused: `Full` (F1) with the pattern
/// with which its patterns, in the order in which the replays of its games meet them, are first
/// more, and with the first game that has it. `counted` is what was counted of the collection
/// `bytes`, and must have more than `most` patterns of `kinds`. The method is this project's own:
/// the first games in the dictionary tell the game, and that game alone is walked again.
///
/// It takes memory for a count of each game, for the largest tree of the games up to that one and
/// its record, and for the board and the patterns of the one that is walked. If memory is refused,
/// the answer is `Memory`.
pub fn first_too_many(
    alloc: Global,
    kinds: Kinds,
    most: usize,
    bytes: &[u8],
    counted: &Counted,
) -> HarvestFault
    requires counted { IsCounted kinds bytes.now counted.now }
    requires many { most < length counted.now.dictionary.entries }
    ensures { IsHarvestRefused most bytes.now kinds result }
{
    match first_of(alloc, kinds, most, bytes, counted) {
        Ok(first) => HarvestFault::Full {
            game: first.game,
            word: first.shape.word(),
        },
        Err(fault) => fault,
    }
}
