//! Dictionaries that are joined while their readers fail, or that change between the two readings
//! of a join.
use crate::readers::Drip;
use merge_core::{Form, MergeFault, Sources, run_merge};
use shape_dict::Text;
use std::alloc::Global;
use std::io;
use std::sync::atomic::{AtomicU64, Ordering};
use std::thread::Threads;

/// Texts in memory. A reader of one fails once it has given `most` bytes.
#[derive(Drop)]
struct Texts<'a> {
    texts: &'a [&'a [u8]],
    /// What each text is from the second reading on, unless it stays.
    then: Option<&'a [u8]>,
    most: usize,
    /// How often a text was opened.
    opened: AtomicU64,
}

impl<'a> Sources for Texts<'a> {
    ghost use Rattle.std.specs.Prelude.{length, None};

    type Reader = Drip<'a>;

    ghost number = { λ t. length t.texts.now };

    ghost bytes = { λ _ _. None };

    fn count(&self) -> usize {
        self.texts.len()
    }

    fn open(&self, n: usize) -> io::Result<Drip<'a>> {
        let opened = self.opened.fetch_add(1, Ordering::SeqCst);
        let left = match self.then {
            Some(then) if opened >= self.texts.len() as u64 => then,
            _ => self.texts[n],
        };
        Ok(Drip {
            left,
            step: 7,
            most: self.most,
        })
    }

    fn size(&self, n: usize) -> io::Result<usize> {
        Ok(self.texts[n].len())
    }

    fn open_at(&self, n: usize, place: usize) -> io::Result<Drip<'a>> {
        let text = self.texts[n];
        Ok(Drip {
            left: &text[place.min(text.len())..],
            step: 7,
            most: self.most,
        })
    }
}

const ONE: &[u8] = b"shapes 1 games 1 moves 2 patterns 2\n3fff3fcffffff 2 1\n3fffbfcffffff 1 1\n";

const TWO: &[u8] = b"shapes 3 games 3 moves 1 squares 1 diamonds -\n3fff3fcffffff 5 1 2\n";

/// The header of `ONE`, but for the number of patterns, and one of its patterns.
const FEWER: &[u8] = b"shapes 1 games 1 moves 2 patterns 1\n3fff3fcffffff 2 2\n";

/// Joins these texts, of which each reader fails once it has given `most` bytes; in the second
/// reading each text is `then`, unless that is None. Returns the join's result, and how many bytes
/// it wrote.
fn joined<T: Threads + Sync>(
    rt: &T,
    alloc: Global,
    texts: &[&[u8]],
    then: Option<&[u8]>,
    most: usize,
) -> (Result<(), MergeFault>, usize) {
    let sources = Texts {
        texts,
        then,
        most,
        opened: AtomicU64::new(0),
    };
    let mut out = Vec::new(alloc);
    let form = Form {
        text: Text::One,
        least: None,
    };
    let done = run_merge(rt, alloc, form, &sources, &mut out);
    (done, out.len())
}

#[test]
fn a_failed_read_names_its_dictionary(rt: HostRuntime) {
    let alloc = rt.alloc();
    for (texts, most, n) in [([ONE, TWO], 50, 1), ([TWO, ONE], 70, 2)] {
        let unread = Err(MergeFault::Read { n, written: 0 });
        assert!(rt;
            joined(&rt, alloc, &texts, None, most) == (unread, 0),
            "{n}"
        );
    }
}

#[test]
fn a_text_that_changes_is_told(rt: HostRuntime) {
    let alloc = rt.alloc();
    let changed = Err(MergeFault::Changed { written: 0 });
    let unread = Err(MergeFault::Read { n: 1, written: 0 });
    for (then, told) in [
        (ONE, (Ok(()), ONE.len())),
        (FEWER, (changed, 0)),
        (&FEWER[..40], (unread, 0)),
    ] {
        assert!(rt; joined(&rt, alloc, &[ONE], Some(then), 1000) == told);
    }
}
