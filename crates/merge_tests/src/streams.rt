//! Dictionaries read line by line, from readers that give little at once or fail.
use crate::readers::Drip;
use std::alloc::Global;
use std::io::Read;
use stream_core::{Lines, StreamFault};

/// Reads all entries, and returns how often their patterns were there in all, or the first fault.
fn sum_of<R: Read + Drop>(lines: &mut Lines<R>) -> Result<u64, StreamFault> {
    let mut sum: u64 = 0;
    for _ in 0..1000 {
        match lines.next_entry() {
            Ok(Some(entry)) => sum = sum.wrapping_add(entry.there),
            Ok(None) => return Ok(sum),
            Err(found) => return Err(found),
        }
    }
    Ok(sum)
}

/// Reads a text, and returns how often its patterns were there in all, or its first fault. It
/// returns 0 if one more call after the end or the fault does not return the same again.
fn told_twice(alloc: Global, reader: Drip<'_>) -> Result<u64, StreamFault> {
    let mut lines = match Lines::open(alloc, reader) {
        Ok(lines) => lines,
        Err(found) => return Err(found),
    };
    let told = sum_of(&mut lines);
    match (told, lines.next_entry()) {
        (Ok(sum), Ok(None)) => Ok(sum),
        (Err(found), Err(again)) => { if found == again { Err(found) } else { Ok(0) } }
        _ => Ok(0),
    }
}

/// A dictionary's text of four patterns, which were there six times together.
const FOUR: &[u8] = b"shapes 3 games 1 moves 2 squares 2 diamonds 2\n\
    3fff3fcffffff 2 1 0\n3fffbfcffffff 1 1 -\n7ffcffcffffff 2 1 0\n7ffeffcffffff 1 1 0\n";

#[test]
fn a_text_comes_in_any_steps_unless_a_read_fails(rt: HostRuntime) {
    let unread = Err(StreamFault::Read);
    for (step, most, told) in [
        (1, 1000, Ok(6)),
        (2, 1000, Ok(6)),
        (7, 1000, Ok(6)),
        (1000, 1000, Ok(6)),
        (7, 0, unread),
        (7, 20, unread),
        (7, 46, unread),
        (7, 60, unread),
        (7, 126, unread),
    ] {
        let reader = Drip {
            left: FOUR,
            step,
            most,
        };
        assert!(rt;
            told_twice(rt.alloc(), reader) == told,
            "by {step} and at most {most}"
        );
    }
}
