//! Samples for the tests of shares and of what is gathered from them: games, tables, patterns, and
//! shares.
#![tactic(auto)]

ghost use Rattle.std.specs.Prelude.{◌≡◌, ◌^◌, ◌<◌, ◌∷◌, [], Some, SomeIff};
ghost use Rattle.std.specs.Prelude.{IfOk, IfErr, OnOk, IfSome, IfNone};
ghost use Rattle.sgf_core.specs.Limit.{most_bytes};
ghost use Rattle.go_record.specs.Actions.{Actions};
ghost use Rattle.shape_core.specs.declared.words.Kinds.TheVariants as kinds;
ghost use Rattle.slot_table.specs.Passes.{IsPassOf};
ghost use Rattle.gather_core.specs.Adding.{IsAdded};
ghost use Rattle.table_shares.specs.Adding.{IsAddFault};
ghost use Rattle.share_samples.specs.Samples.{IsPattern, IsFirstGame, HasOneGame, IsRefused};

use game_core::Games;
use go_record::Record;
use harvest_faults::HarvestFault;
use probe_core::{Capacity, OddStep, ProbeOrder};
use shape_core::{Kinds, Shape, Word};
use shape_dict::{Entry, FirstGame};
use slot_table::{Pass, SlotTable};
use std::alloc::Global;
use table_shares::Share;

/// A game of one move on a board of one point: it has one pattern.
pub const ONE_POINT: &[u8] = b"(;SZ[1];B[aa])";

/// A game of two moves on a board of two points: it has two patterns.
pub const TWO_POINTS: &[u8] = b"(;SZ[2:1];B[aa];W[ba])";

/// The word of the pattern of `ONE_POINT`.
pub const ALONE: u64 = 0x3fffffcffffff;

/// The word of the pattern of `TWO_POINTS` that the game meets first.
pub const EMPTY: u64 = 0x3fff3fcffffff;

/// The word of the pattern of `TWO_POINTS` that the game meets second.
pub const TAKEN: u64 = 0x3fffbfcffffff;

/// Returns the record of the first game in the collection `bytes`. None if there is no game, or a
/// fault of syntax before its end, or if memory was refused.
pub fn record_of(alloc: Global, bytes: &[u8]) -> Option<Record>
    ensures { IfSome result (IsFirstGame bytes.now) }
{
    let mut games = Games::new(bytes).ok()?;
    let job = games.next_job(alloc).ok()??;
    Some(job.into_record())
}

/// Makes a table of 2^k numbers (slots) with its first pass (the right to call it). None if k is
/// above 22 or memory was refused.
pub fn table_of(alloc: Global, k: u32) -> Option<(SlotTable<OddStep>, Pass<OddStep>)>
    ensures pass { IfSome result (λ r. IsPassOf r.0 r.1) }
    ensures slots { IfSome result (λ r. r.0.slots ≡ 2 ^ k) }
{
    let capacity = Capacity::new(k)?;
    SlotTable::new(alloc, OddStep { capacity }).ok()
}

/// Returns the pattern whose word has these bits. None if they are no canonical pattern word (the
/// least of its images under the symmetries and the exchange of colours).
pub fn shape_of(bits: u64) -> Option<Shape>
    ensures { SomeIff result (IsPattern bits) bits }
{
    Shape::of_word(Word::new(bits)?)
}

/// Returns a dictionary's entry with these counts, and the least game `first`, for the pattern
/// whose word has these bits. None if they are no canonical pattern word.
pub fn entry_of(bits: u64, there: u64, played: u64, first: u32) -> Option<Entry>
    ensures { SomeIff result (IsPattern bits) (record {
      shape = bits;
      there = there;
      played = played;
      first = Some first;
    }) }
{
    Some(Entry {
        shape: shape_of(bits)?,
        there,
        played,
        first: FirstGame::new(Some(u64::from(first))),
    })
}

/// Returns a share (what one worker has counted) of this game alone, with the number `game`, of
/// worker 0, which counts squares alone; or why the game was refused. `pass` is the right to call
/// `table`, in which the patterns get slots.
pub fn share_of<O: ProbeOrder>(
    alloc: Global,
    table: &SlotTable<O>,
    pass: &mut Pass<O>,
    game: u64,
    game_record: &Record,
) -> Result<Share, HarvestFault>
    requires pass { IsPassOf table.now pass.old }
    requires game { game < most_bytes }
    ensures pass { IsPassOf table.now pass.new }
    ensures kinds { IfOk result (λ share. share.kinds ≡ kinds.Squares) }
    ensures games { IfOk result (λ share. share.games ≡ game ∷ []) }
    ensures added { IfOk result (HasOneGame game game_record.now) }
    ensures refused { IfErr result
        (IsRefused table.now.slots pass.new.seen game game_record.now) }
{
    let mut share = Share::begin(alloc, 0, Kinds::Squares);
    share.add(table, pass, game, game_record)?;
    Ok(share)
}

/// Returns a share (what one worker has counted) of the first game in the collection `bytes`, which
/// gets the number 0, of worker 0 and squares alone. `pass` is the right to call `table`, in which
/// the patterns get slots. None if there is no such game, memory was refused, or the game could not
/// be added.
pub fn first_share<O: ProbeOrder>(
    alloc: Global,
    table: &SlotTable<O>,
    pass: &mut Pass<O>,
    bytes: &[u8],
) -> Option<Share>
    requires { IsPassOf table.now pass.old }
    ensures pass { IsPassOf table.now pass.new }
    ensures kinds { IfSome result (λ share. share.kinds ≡ kinds.Squares) }
    ensures games { IfSome result (λ share. share.games ≡ 0 ∷ []) }
    ensures added { IfSome result (λ share. (actions : Actions)
        × IsFirstGame bytes.now actions × HasOneGame 0 actions share) }
{
    let game_record = record_of(alloc, bytes)?;
    share_of(alloc, table, pass, 0, &game_record).ok()
}

/// Adds the first game in the collection `bytes` to a share (what one worker has counted), with the
/// number `game`. `pass` is the right to call `table`, in which the patterns get slots. Returns
/// what `Share::add` returned. None if there is no such game or memory for its record was refused;
/// then nothing was added.
pub fn add_written<O: ProbeOrder>(
    alloc: Global,
    share: &mut Share,
    table: &SlotTable<O>,
    pass: &mut Pass<O>,
    game: u64,
    bytes: &[u8],
) -> Option<Result<(), HarvestFault>>
    requires pass { IsPassOf table.now pass.old }
    requires game { game < most_bytes }
    ensures pass { IsPassOf table.now pass.new }
    ensures added { IfSome result (λ added. OnOk added ((actions : Actions)
        × IsFirstGame bytes.now actions × IsAdded game actions share.old share.new)) }
    ensures refused { IfSome result (λ added. IfErr added (λ found. (actions : Actions)
        × IsFirstGame bytes.now actions
        × IsAddFault table.now.slots pass.new.seen game actions share.old share.new found)) }
    ensures none { IfNone result ((share.new ≡ share.old) × (pass.new ≡ pass.old)) }
{
    let game_record = record_of(alloc, bytes)?;
    Some(share.add(table, pass, game, &game_record))
}
