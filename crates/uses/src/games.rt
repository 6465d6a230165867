//! The examples of the pages of `sgf_core`, `go_board`, `go_record`, `game_core`, `batch_core`,
//! `tally_core` and `plain_core`.
use batch_core::{push_text, report_of};
use game_core::{Games, GamesFault};
use go_board::{Board, Colour, Point, Size, Stone};
use go_record::{Kind, Record, read_record, replay};
use plain_core::count_plain;
use sgf_core::{Tree, Trees};
use shape_core::Kinds;
use std::alloc::Global;
use std::test::Fail;
use tally_core::{TallyFault, Walk};

/// How many values the main line of a tree has.
fn values(tree: &Tree<'_>) -> usize {
    let mut values = 0usize;
    for node in tree.main_line() {
        for prop in node.props() {
            values = values.saturating_add(prop.values().len());
        }
    }
    values
}

#[test]
fn sgf_core(rt: HostRuntime) -> Result<(), Fail> {
    let mut trees = Trees::new(b"(;SZ[2]B[aa];W[ba](;B[])(;B[ab]))")?;
    let tree = trees.next_tree(rt.alloc())?.ok_or("no tree")?;
    assert!(rt; values(&tree) == 4);
    assert!(rt; trees.next_tree(rt.alloc())?.is_none());
    Ok(())
}

#[test]
fn go_board(rt: HostRuntime) -> Result<(), Fail> {
    let size = Size::new(9, 9).ok_or("a size from 1 to 52")?;
    let mut board = Board::new(rt.alloc(), size)?;
    let corner = Point { column: 0, row: 0 };
    board.set(corner, Stone::White);
    board.set(Point { column: 1, row: 0 }, Stone::Black);
    let played = board.play(Colour::Black, Point { column: 0, row: 1 });
    assert!(rt; (played.taken, played.own_lost) == (1, 0));
    assert!(rt; board.cell(corner) == Stone::Empty);
    Ok(())
}

#[test]
fn go_record(rt: HostRuntime) -> Result<(), Fail> {
    let alloc = rt.alloc();
    let tree = Trees::new(b"(;SZ[9];B[aa];W[ba])")?
        .next_tree(alloc)?
        .ok_or("no tree")?;
    if let Kind::Go(record) = read_record(alloc, &tree)? {
        let size = record.size();
        assert!(rt; size.columns() == 9);
        let mut board = Board::new(alloc, size)?;
        replay(&mut board, record.actions());
        assert!(rt; board.cell(Point { column: 1, row: 0 }) == Stone::White);
    }
    Ok(())
}

/// The number of the next game and its place, where there is one.
fn next_game(
    alloc: Global,
    games: &mut Games<'_>,
) -> Result<Option<(u64, usize, usize)>, GamesFault> {
    match games.next_job(alloc)? {
        Some(job) => Ok(Some((job.game(), job.at(), job.end()))),
        None => Ok(None),
    }
}

#[test]
fn game_core(rt: HostRuntime) -> Result<(), Fail> {
    let mut games = Games::new(b"(;SZ[1];B[aa])(;GM[2])")?;
    assert!(rt; next_game(rt.alloc(), &mut games) == Ok(Some((0, 0, 14))));
    assert!(rt; next_game(rt.alloc(), &mut games) == Ok(None));
    assert!(rt; games.report().others == 1);
    Ok(())
}

#[test]
fn batch_core(rt: HostRuntime) -> Result<(), Fail> {
    let alloc = rt.alloc();
    let mut texts = Vec::new(alloc);
    push_text(&mut texts, b"(;SZ[1];B[aa])")?;
    push_text(&mut texts, b"(;GM[2]) and (;SZ[2];B[ab])")?;
    let report = report_of(alloc, texts.as_slice())?;
    assert!(rt; (report.games, report.others) == (2, 1));
    Ok(())
}

/// The moves of a game, and how many patterns it has.
fn walk(alloc: Global, record: &Record) -> Result<(u64, usize), TallyFault> {
    let mut walk = Walk::begin(alloc, Kinds::Both);
    let moves = walk.walk(record)?;
    Ok((moves, walk.meetings().len()))
}

#[test]
fn tally_core(rt: HostRuntime) -> Result<(), Fail> {
    let alloc = rt.alloc();
    let mut trees = Trees::new(b"(;SZ[2:1];B[aa];W[ba])")?;
    let tree = trees.next_tree(alloc)?.ok_or("no tree")?;
    if let Kind::Go(record) = read_record(alloc, &tree)? {
        assert!(rt; walk(alloc, &record) == Ok((2, 4)));
    }
    Ok(())
}

/// How many games a collection has, and how many patterns.
fn count(alloc: Global, input: &[u8]) -> Result<(u64, usize), TallyFault> {
    let counted = count_plain(alloc, Kinds::Squares, input)?;
    Ok((counted.report.games, counted.dictionary.len()))
}

#[test]
fn plain_core(rt: HostRuntime) -> Result<(), Fail> {
    assert!(rt; count(rt.alloc(), b"(;SZ[1];B[aa])(;SZ[2:1];B[aa];W[ba])") == Ok((2, 3)));
    Ok(())
}
