//! Texts in memory whose bytes contracts see, and what is proved for them of a join that ended
//! well.
ghost use Rattle.std.specs.Prelude.{ℕ, List, [], map, Some, IfOk, IfErr};
ghost use Rattle.merge_core.specs.Merge.{IsMergeText, IsMergeFault};

use merge_core::{Form, MergeFault, Sources, run_merge};
use shape_dict::Text;
use std::alloc::Global;
use std::io;
use std::thread::Threads;

/// Texts in memory, whose bytes contracts see.
#[derive(Clone, Copy)]
struct Known<'a> {
    texts: &'a [&'a [u8]],
}

impl<'a> Sources for Known<'a> {
    ghost use Rattle.std.specs.Prelude.{length, slice_get, option_map};

    type Reader = &'a [u8];

    ghost number = { λ known. length known.texts.now };

    ghost bytes = { λ known n. option_map (λ text. text.now) (slice_get known.texts.now n) };

    fn count(&self) -> usize {
        self.texts.len()
    }

    fn open(&self, n: usize) -> io::Result<&'a [u8]> {
        Ok(self.texts[n])
    }

    fn size(&self, n: usize) -> io::Result<usize> {
        Ok(self.texts[n].len())
    }

    fn open_at(&self, n: usize, place: usize) -> io::Result<&'a [u8]> {
        let text = self.texts[n];
        if place < text.len() {
            return Ok(&text[place..]);
        }
        Ok(&[])
    }
}

/// Joins the dictionaries of these texts, and returns the text that `form` asks for.
fn join_of<T: Threads + Sync>(
    rt: &T,
    alloc: Global,
    form: Form,
    texts: &[&[u8]],
) -> Result<Vec<u8>, MergeFault>
    ensures joined { IfOk result (λ joined.
        IsMergeText form (map (λ input. input.now) texts.now) joined.items) }
    ensures fault { IfErr result (λ found. (out : List ℕ)
        × IsMergeFault form (map (λ input. input.now) texts.now) (Some []) (Some out) found) }
{
    let sources = Known { texts };
    let mut out = Vec::new(alloc);
    match run_merge(rt, alloc, form, &sources, &mut out) {
        Ok(()) => Ok(out),
        Err(fault) => Err(fault),
    }
}

const LEFT: &[u8] = b"shapes 1 games 1 moves 2 patterns 2\n3fff3fcffffff 2 1\n3fffbfcffffff 1 1\n";

const RIGHT: &[u8] = b"shapes 3 games 3 moves 1 squares 1 diamonds -\n3fff3fcffffff 5 1 2\n";

const JOINED: &[u8] =
    b"shapes 3 games 4 moves 3 squares 2 diamonds -\n3fff3fcffffff 7 2 -\n3fffbfcffffff 1 1 -\n";

const OFTEN: &[u8] = b"shapes 3 games 4 moves 2 squares 1 diamonds -\n3fff3fcffffff 7 2 -\n";

/// Whether text 3 of the join of `LEFT` and `RIGHT` is `wanted`. With `least`, the join keeps only
/// squares that were there at least as often.
fn is_joined<T: Threads + Sync>(rt: &T, alloc: Global, least: Option<u64>, wanted: &[u8]) -> bool {
    let form = Form {
        text: Text::Three,
        least,
    };
    match join_of(rt, alloc, form, &[LEFT, RIGHT]) {
        Ok(joined) => joined.as_slice() == wanted,
        Err(_) => false,
    }
}

#[test]
fn known_texts_are_joined(rt: HostRuntime) {
    assert!(rt; is_joined(&rt, rt.alloc(), None, JOINED));
    assert!(rt; is_joined(&rt, rt.alloc(), Some(1), JOINED));
    assert!(rt; is_joined(&rt, rt.alloc(), Some(2), OFTEN));
}
