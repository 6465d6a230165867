//! The examples of the pages of `game_files`, `listing_core` and `twins_core`.
use game_files::{Cause, cause_of, is_game_name, push_name};
use listing_core::{Asked, Condition, Form, Key, run_listing};
use std::io::Cursor;
use std::test::Fail;
use twins_core::{Twins, run_twins};

#[test]
fn game_files(rt: HostRuntime) -> Result<(), Fail> {
    let mut text = Vec::new(rt.alloc());
    push_name(&mut text, "a\tb.SGF")?;
    assert!(rt; text.as_slice() == b"a?b.SGF".as_slice());
    assert!(rt; is_game_name("a.SGF"));
    assert!(rt; cause_of(b"\x1f\x8b\x08") == Cause::Gzip);
    Ok(())
}

#[test]
fn listing_core(rt: HostRuntime) -> Result<(), Fail> {
    let alloc = rt.alloc();
    let chosen = [Condition {
        key: Key::BlackName,
        value: b"A",
        is_front: true,
    }];
    let asked = Asked {
        form: Form::Trees,
        conditions: &chosen,
        first: 0,
        name: None,
    };
    let mut games = Cursor::new(b"(;SZ[1]PB[Ann];B[aa])(;GM[2])(;PB[Bo])");
    let mut text = Vec::new(alloc);
    let found = run_listing(alloc, &asked, &mut games, &mut text);
    assert!(rt; found.is_ok());
    assert!(rt; text.as_slice() == b"(;SZ[1]PB[Ann];B[aa])\n".as_slice());
    Ok(())
}

#[test]
fn twins_core(rt: HostRuntime) -> Result<(), Fail> {
    let alloc = rt.alloc();
    let mut twins = Twins::new(alloc);
    let mut games = Cursor::new(b"(;SZ[1];B[aa])(;SZ[1]PB[Ann];B[aa])");
    let mut lines = Vec::new(alloc);
    let found = run_twins(alloc, &mut twins, 0, None, &mut games, &mut lines);
    assert!(rt; found.is_ok());
    assert!(rt; lines.as_slice() == b"1\t0\t14\t35\t0\t14\n".as_slice());
    Ok(())
}
