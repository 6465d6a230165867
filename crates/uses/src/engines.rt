//! The examples of the pages of `harvest_core`, `engine_core`, `hits_core`,
//! `sheet_core` and `stream_core`.
use engine_core::{Outcome, run_board};
use harvest_core::{FreeGate, harvest};
use hits_core::{Search, Shown, Sought, Spelling, Wanted, run_hits};
use shape_core::{Kind, Kinds, Shape, Word};
use sheet_core::{Asked, Form, Order, run_sheet};
use std::io::Cursor;
use std::test::Fail;
use stream_core::Lines;
use tally_core::Settings;

#[test]
fn harvest_core(rt: HostRuntime) -> Result<(), Fail> {
    let alloc = rt.alloc();
    let settings = Settings::new(2, 4)?.with(Kinds::Squares);
    let games = b"(;SZ[1];B[aa])(;SZ[2:1];B[aa];W[ba])";
    let counted = harvest(&rt, alloc, settings, games, &FreeGate)?;
    assert!(rt; counted.report.games == 2);
    assert!(rt; counted.dictionary.len() == 3);
    Ok(())
}

#[test]
fn engine_core(rt: HostRuntime) -> Result<(), Fail> {
    let alloc = rt.alloc();
    let mut games = Cursor::new(b"(;SZ[2];B[aa];W[bb])");
    let mut text = Vec::new(alloc);
    let outcome = run_board(alloc, &mut games, &mut text);
    assert!(rt; outcome == Ok(Outcome::Done));
    assert!(rt; text.as_slice() == b"X.\n.O\n".as_slice());
    Ok(())
}

#[test]
fn hits_core(rt: HostRuntime) -> Result<(), Fail> {
    let alloc = rt.alloc();
    let word = Word::new(0x3fffffcffffff).ok_or("a word")?;
    let shape = Shape::of_word(word).ok_or("the least image")?;
    let wanted = Wanted::one(alloc, shape)?;
    let search = Search {
        sought: Sought::Played,
        most: None,
        shown: Shown::Places,
        spelling: Spelling::Letters,
        first: 0,
        name: None,
    };
    let mut games = Cursor::new(b"(;SZ[1];B[aa])");
    let mut lines = Vec::new(alloc);
    let results = run_hits(&rt, alloc, &wanted, search, 4, &mut games, &mut lines)?;
    assert!(rt; results.outcome == Outcome::Done);
    assert!(rt; lines.as_slice() == b"0 1 aa black 0\n".as_slice());
    Ok(())
}

#[test]
fn sheet_core(rt: HostRuntime) -> Result<(), Fail> {
    let alloc = rt.alloc();
    let mut one = Cursor::new(b"shapes 1 games 1 moves 1 patterns 1\n3fffffcffffff 1 1\n");
    let mut sheet = Vec::new(alloc);
    let asked = Asked {
        order: Order::Urgency,
        kind: Kind::Square,
        least: 1,
        most: 20,
        form: Form::Plain,
    };
    let drawn = run_sheet(alloc, asked, &[], &mut one, &mut sheet);
    assert!(rt; drawn == Ok(()));
    let wanted = b"1 3fffffcffffff there 1 played 1 urgency 100.00%\n";
    assert!(rt; sheet.as_slice().starts_with(wanted));
    Ok(())
}

#[test]
fn stream_core(rt: HostRuntime) -> Result<(), Fail> {
    let one = Cursor::new(b"shapes 1 games 1 moves 1 patterns 1\n3fffffcffffff 1 1\n");
    let mut lines = Lines::open(rt.alloc(), one)?;
    let mut played = 0u64;
    for _ in 0..u64::MAX {
        let Some(entry) = lines.next_entry()? else {
            break;
        };
        played = played.saturating_add(entry.played);
    }
    assert!(rt; played == lines.header().moves);
    Ok(())
}
