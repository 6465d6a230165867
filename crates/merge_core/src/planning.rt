//! Plans at which words (the numbers of patterns, in whose order lines are) dictionaries are
//! divided into ranges, so that these are about even. A bad plan costs time alone: what is between
//! the cuts is checked.
ghost use Rattle.std.specs.Prelude.{◌≡◌, ◌≤◌, ◌<◌, ◌+◌, ◌^◌, IfSome, length};

use crate::cuts::{Cut, Plan};
use crate::pieces::read_bytes;
use crate::sources::Sources;
use crate::surveying::read_front;
use shape_dict::{Header, word_bits};
use std::alloc::Global;
use std::thread::{Threads, map_chunks};

/// Dictionaries with fewer bytes together are joined without ranges.
const LEAST: usize = 1 << 18;

/// About how many bytes of all dictionaries together are in a range.
const RANGE: usize = 1 << 19;

/// How many words are sampled for each range.
const SAMPLES: usize = 8;

/// How many bytes are read to find the next line: more than any line has.
const LINE: usize = 1 << 7;

/// How many bytes are read at once when lines are looked at one after another.
const BLOCK: usize = 1 << 12;

/// How many bytes the first step of the search for a line goes.
const STEP: usize = 1 << 14;

/// The most steps that a search takes.
const MOST_STEPS: usize = 128;

/// Capacity for sampled words, 16 MiB. The C library takes that much from the system and gives it
/// back. From then on it keeps smaller blocks that are freed, such as the memory of a range, which
/// the system would otherwise have to clear anew for each range.
const ROOM: usize = 1 << 21;

/// The least word of a diamond; the words of squares are below it.
const DIAMONDS: u64 = 1 << 50;

/// One more than the greatest word that a pattern may have. It is the word of the last cut, where
/// all lines end.
const END: u64 = 1 << 51;

/// Returns the index after the first line feed, at which the next line begins, or None if there is
/// no line feed.
fn next_line(bytes: &[u8]) -> Option<usize>
    ensures { IfSome result (λ start. start ≤ length bytes.now) }
{
    for place in 0..bytes.len() {
        if bytes[place] == b'\n' {
            return Some(place + 1);
        }
    }
    None
}

/// Finds the first line of dictionary `n` that begins after byte index `place`, and returns its
/// byte index and its word. None if none begins before `end`, or it can't be read.
fn line_after<S: Sources>(
    alloc: Global,
    sources: &S,
    n: usize,
    place: usize,
    end: usize,
) -> Option<(usize, u64)>
    requires few { n + 1 < 2 ^ 64 }
    requires within { n < S.number sources.now }
{
    let to = end.min(place.saturating_add(LINE));
    let bytes = read_bytes(alloc, sources, n, place, to).ok()?;
    let start = next_line(&bytes)?;
    let (word, _) = word_bits(&bytes[start..])?;
    Some((place.saturating_add(start), word))
}

/// Returns the byte index of the first line of dictionary `n` whose word is not below `word`, among
/// those from `from`, at which a line begins, up to `to`; or `to` if there is none. It reads all
/// these bytes at once. None if they can't be read as lines.
fn place_in_block<S: Sources>(
    alloc: Global,
    sources: &S,
    n: usize,
    word: u64,
    from: usize,
    to: usize,
) -> Option<usize>
    requires few { n + 1 < 2 ^ 64 }
    requires within { n < S.number sources.now }
{
    let bytes = read_bytes(alloc, sources, n, from, to).ok()?;
    let mut start = 0;
    for _ in 0..bytes.len() {
        if start >= bytes.len() || word_bits(&bytes[start..])?.0 >= word {
            return Some(from.saturating_add(start));
        }
        start = start.saturating_add(next_line(&bytes[start..])?);
    }
    Some(to)
}

/// Searches dictionary `n`, from byte index `from` on, at which a line begins, for the first line
/// whose word is not below `word`. Returns the line's byte index, or `end` if there is none, or
/// None if the bytes can't be read as lines. The line is mostly near, so steps grow until it is
/// passed, and only then are halved.
fn place_of<S: Sources>(
    alloc: Global,
    sources: &S,
    n: usize,
    word: u64,
    from: usize,
    end: usize,
) -> Option<usize>
    requires few { n + 1 < 2 ^ 64 }
    requires within { n < S.number sources.now }
{
    let mut low = from;
    let mut high = end;
    let mut step = STEP;
    for _ in 0..MOST_STEPS {
        if high <= low.saturating_add(BLOCK) {
            break;
        }
        let middle = low.saturating_add(step.min((high - low) / 2));
        let (place, found) = line_after(alloc, sources, n, middle, end)?;
        if found < word {
            low = place;
            step = step.saturating_mul(2);
        } else {
            high = place;
            step = usize::MAX;
        }
    }
    place_in_block(alloc, sources, n, word, low, high)
}

/// Makes the cut at `word`: finds in each dictionary the byte index of the first line whose word is
/// not below it, from the byte indices `before` of an earlier cut up to `ends`. None if a search
/// fails or memory was refused.
fn cut_of<S: Sources>(
    alloc: Global,
    sources: &S,
    word: u64,
    before: &[usize],
    ends: &[usize],
) -> Option<Cut> {
    let mut places = Vec::new(alloc);
    for n in 0..sources.count() {
        let from = *before.get(n)?;
        let end = *ends.get(n)?;
        places
            .push(place_of(alloc, sources, n, word, from, end)?)
            .ok()?;
    }
    Some(Cut { word, places })
}

/// Makes a cut (a byte index in each dictionary) at each of `words`, which rise. `starts` and
/// `ends` are the byte indices at which the dictionaries' lines begin and end. None if a search
/// fails or memory was refused.
fn cuts_of<S: Sources>(
    alloc: Global,
    sources: &S,
    words: &[u64],
    starts: &[usize],
    ends: &[usize],
) -> Option<Vec<Cut>> {
    let mut cuts: Vec<Cut> = Vec::new(alloc);
    for word in words {
        let before = match cuts.last() {
            Some(cut) => cut.places.as_slice(),
            None => starts,
        };
        let cut = cut_of(alloc, sources, *word, before, ends)?;
        cuts.push(cut).ok()?;
    }
    Some(cuts)
}

/// The headers of dictionaries, the byte indices at which their lines begin (`starts`), and their
/// sizes in bytes, where the lines end (`ends`).
#[derive(Drop)]
struct Fronts {
    headers: Vec<Header>,
    starts: Vec<usize>,
    ends: Vec<usize>,
}

/// Reads the headers of all dictionaries, the byte indices at which their lines begin, and their
/// sizes. None if one can't be read, or memory was refused.
fn fronts_of<S: Sources>(alloc: Global, sources: &S) -> Option<Fronts> {
    let mut fronts = Fronts {
        headers: Vec::new(alloc),
        starts: Vec::new(alloc),
        ends: Vec::new(alloc),
    };
    for n in 0..sources.count() {
        let Ok((header, start)) = read_front(alloc, sources, n) else {
            return None;
        };
        let size = sources.size(n).ok()?;
        fronts.headers.push(header).ok()?;
        fronts.starts.push(start).ok()?;
        fronts.ends.push(size).ok()?;
    }
    Some(fronts)
}

/// Appends to `words` the words of some lines of dictionary `n`: of the first line that begins
/// after byte index `skip`, of the first after `skip` + `step`, and so on, as long as that index is
/// below `end`. A line that can't be read is left out. None if memory was refused.
fn push_words<S: Sources>(
    alloc: Global,
    sources: &S,
    n: usize,
    skip: usize,
    step: usize,
    end: usize,
    words: &mut Vec<u64>,
) -> Option<()>
    requires few { n + 1 < 2 ^ 64 }
    requires within { n < S.number sources.now }
{
    let mut place = skip;
    for _ in 0..end {
        if place >= end {
            break;
        }
        if let Some((_, word)) = line_after(alloc, sources, n, place, end) {
            words.push(word).ok()?;
        }
        place = place.saturating_add(step);
    }
    Some(())
}

/// Returns a sample, in ascending order, of all dictionaries' words: one each `step` bytes, as if
/// their bytes followed one another. `ends` are their sizes in bytes. None if memory was refused,
/// `ends` has too few, or `step` is 0.
fn sample<S: Sources>(alloc: Global, sources: &S, ends: &[usize], step: usize) -> Option<Vec<u64>> {
    let mut words = Vec::with_capacity(alloc, ROOM).ok()?;
    let mut skip: usize = 0;
    for n in 0..sources.count() {
        let end = *ends.get(n)?;
        push_words(alloc, sources, n, skip, step, end, &mut words)?;
        let beyond = end.saturating_sub(skip).checked_rem(step)?;
        skip = if end < skip {
            skip - end
        } else {
            step.saturating_sub(beyond)
        };
    }
    words.sort_unstable();
    Some(words)
}

/// Returns, in ascending order, the words at which one range of words ends and the next begins:
/// those of all cuts but the first and the last. `samples` are words of the dictionaries, in
/// ascending order. Those at the indices 7, 15, 23 and so on become cuts, and so does 2^50, the
/// least word of a diamond. None if memory was refused.
fn cut_words(alloc: Global, samples: &[u64]) -> Option<Vec<u64>> {
    let mut words = Vec::new(alloc);
    words.push(DIAMONDS).ok()?;
    for place in 0..samples.len() {
        if place % SAMPLES == SAMPLES - 1 {
            words.push(samples[place]).ok()?;
        }
    }
    words.sort_unstable();
    Some(words)
}

/// Makes the cuts (a byte index in each dictionary) at `words`, which rise, in about `threads`
/// threads. These are all cuts but the first and the last. None if a search fails or memory was
/// refused.
fn inner_cuts<T: Threads + Sync, S: Sources + Sync>(
    rt: &T,
    alloc: Global,
    sources: &S,
    fronts: &Fronts,
    words: &[u64],
    threads: usize,
) -> Option<Vec<Cut>> {
    let size = (words.len() / threads.max(1)).saturating_add(1);
    let starts = fronts.starts.as_slice();
    let ends = fronts.ends.as_slice();
    let Ok(made) = map_chunks(
        rt,
        alloc,
        words,
        size,
        &|_, part| { cuts_of(alloc, sources, part, starts, ends) },
    ) else {
        return None;
    };
    let mut cuts = Vec::new(alloc);
    for part in made {
        for cut in part? {
            cuts.push(cut).ok()?;
        }
    }
    Some(cuts)
}

/// Plans how the lines of dictionaries are divided into ranges of words, in about `threads`
/// threads. `least`, by which the join keeps patterns, is copied into the plan. None if the
/// dictionaries have less than 256 KiB together, one can't be read as lines, or memory was refused.
pub(crate) fn plan_for<T: Threads + Sync, S: Sources + Sync>(
    rt: &T,
    alloc: Global,
    sources: &S,
    least: Option<u64>,
    threads: usize,
) -> Option<Plan>
    ensures { IfSome result (λ plan. plan.least ≡ least) }
{
    let fronts = fronts_of(alloc, sources)?;
    let mut total: usize = 0;
    for end in &fronts.ends {
        total = total.saturating_add(*end);
    }
    if total < LEAST {
        return None;
    }
    let ranges = (total / RANGE).max(SAMPLES);
    let step = total / ranges / SAMPLES + 1;
    let samples = sample(alloc, sources, &fronts.ends, step)?;
    let words = cut_words(alloc, &samples)?;
    let inner = inner_cuts(rt, alloc, sources, &fronts, &words, threads)?;
    let Fronts {
        headers,
        starts,
        ends,
    } = fronts;
    let mut cuts = Vec::new(alloc);
    cuts.push(Cut {
        word: 0,
        places: starts,
    })
    .ok()?;
    for cut in inner {
        cuts.push(cut).ok()?;
    }
    cuts.push(Cut {
        word: END,
        places: ends,
    })
    .ok()?;
    Some(Plan {
        headers,
        cuts,
        least,
    })
}
