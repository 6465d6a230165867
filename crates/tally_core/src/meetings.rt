//! The meetings of a game: the patterns that it was found to have, each with its counts, in the
//! order in which they were first met.
ghost use Rattle.std.specs.Prelude.{◌≡◌, ◌<◌, ◌+◌, ◌-◌, ◌^◌, ℕ, length, [], ◌∷◌, ◌++◌};
ghost use Rattle.std.specs.Prelude.{slice_index, IfOk, IfErr, IfSome, OnOk};
ghost use Rattle.tally_core.specs.Walk.{shapes_of, there_among, played_among};
ghost use Rattle.tally_core.specs.Inner.Meeting.{Meets, CountsStay, IsMet};
ghost use Rattle.tally_core.specs.Inner.Times.{one_pattern};
ghost use Rattle.tally_core.specs.Inner.Place.{IsPlaceOf};
ghost use Rattle.tally_core.specs.declared.faults.TallyFault.TheVariants as fault;

use crate::faults::TallyFault;
use shape_core::Shape;
use std::alloc::{AllocError, Global};
use std::marker::Model;

/// A pattern that a game has, with how often it was there and was played. A list may have several
/// meetings of one pattern, whose counts add up.
#[derive(Clone, Copy, Debug, PartialEq, Eq)]
pub struct Meeting {
    /// The pattern.
    pub shape: Shape,
    /// How often it was there: before each move onto an empty point, once for each point that has
    /// it.
    pub there: u64,
    /// How many moves were played onto a point that had it.
    pub played: u64,
}

/// The meetings of a game (its patterns with their counts), in the order in which they were first
/// met, and a hash table of their shapes.
#[derive(Drop)]
pub struct Meetings {
    list: Vec<Meeting>,
    /// A hash table by open addressing: a shape is looked up from the slot on that its hash gives.
    /// A slot has `base` more than an index in `list`, and a free one a number below `base`. What
    /// it says is always checked against the meeting in `list`, so it needs no invariant: if it
    /// were wrong, a shape would have two meetings.
    index: Vec<u32>,
    /// A number above all that earlier games left in `index`: so a slot that they took is free, and
    /// `clear` need not write to it.
    base: usize,
}

impl Model for Meetings {
    ghost use Rattle.std.specs.Prelude.{List};
    ghost use Rattle.tally_core.specs.declared.meetings.Meeting.{Meeting};

    ghost Value = { List Meeting };

    ghost view = { λ m. m.list.items };
}

/// How many slots the hash table has at first.
const FIRST_PLACES: usize = 4096;

/// `base` with the first game. It is above 0, which is what a new slot has.
const FIRST_BASE: usize = 1;

/// Where `base` is above this number, the hash table is filled with zeros and `base` begins again:
/// so the slots have room for the numbers of 2^31 patterns at least.
const LAST_BASE: usize = 1 << 31;

/// The result of looking a shape up in the hash table.
#[derive(Clone, Copy)]
enum Place {
    /// The shape has a meeting, at this index of the list.
    Met(usize),
    /// The shape has no meeting, and this slot of the hash table is free.
    Free(usize),
}

/// Returns a hash of a shape: it differs much between shapes that differ little.
fn mixed(shape: Shape) -> usize {
    let product = shape.word().bits().wrapping_mul(0x9E37_79B9_7F4A_7C15);
    (product >> 32) as usize
}

/// Returns a meeting of this `shape` with both counts 0.
#[inline(always)]
fn uncounted(shape: Shape) -> Meeting
    ensures { result ≡ record { shape = shape; there = 0; played = 0 } }
{
    Meeting {
        shape,
        there: 0,
        played: 0,
    }
}

/// Writes `number` into the slot `place` of a hash table. Does nothing if there is no such slot.
#[inline(always)]
fn take(index: &mut [u32], place: usize, number: usize) {
    if let Some(slot) = index.get_mut(place) {
        *slot = (number & 0xFFFF_FFFF) as u32;
    }
}

impl Meetings {
    /// Makes an empty list of meetings. It takes no memory.
    pub fn new(alloc: Global) -> Meetings
        ensures { result ≡ [] }
    {
        Meetings {
            list: Vec::new(alloc),
            index: Vec::new(alloc),
            base: FIRST_BASE,
        }
    }

    /// Removes all meetings. The hash table is made half as long, but not below `FIRST_PLACES`, if
    /// less than an eighth of it was taken, so that one long game does not slow down all that
    /// follow. The first call takes memory for the table and the list. `TallyFault::Memory` if that
    /// is refused; the meetings are removed all the same.
    pub fn clear(&mut self) -> Result<(), TallyFault>
        ensures empty { self.new ≡ [] }
        ensures fault { IfErr result (λ found. found ≡ fault.Memory) }
    {
        let places = self.index.len();
        let met = self.list.len();
        let wanted = if met < places / 8 { places / 2 } else { places };
        let wanted = wanted.max(FIRST_PLACES);
        self.list.clear();
        self.base = self.base.saturating_add(met);
        if self.base > LAST_BASE {
            self.index.clear();
            self.base = FIRST_BASE;
        }
        self.index.resize(wanted, 0)?;
        // A full list makes the table longer, so the list has room for half of the slots.
        self.list.shrink_to(wanted / 2);
        self.list.reserve_exact(wanted / 2)?;
        Ok(())
    }

    /// Returns all meetings of the game so far, in the order in which they came.
    pub fn as_slice(&self) -> &[Meeting]
        ensures { result.now ≡ self.now }
    {
        self.list.as_slice()
    }

    /// Looks at the slot `place` of the hash table: returns the meeting there if it is of this
    /// `shape`, or that the slot is free. None if the meeting there is of another shape, or there
    /// is no such slot.
    #[inline(always)]
    fn look(&self, place: usize, shape: Shape) -> Option<Place>
        ensures { IfSome result (IsPlaceOf (shapes_of self.now) shape) }
    {
        // What is below `base` becomes so great a number that no meeting has that index.
        let at = (*self.index.get(place)? as usize).wrapping_sub(self.base);
        match self.list.get(at) {
            Some(meeting) => (meeting.shape == shape).then_some(Place::Met(at)),
            None => Some(Place::Free(place)),
        }
    }

    /// Returns the slot from which on a shape is looked up.
    #[inline(always)]
    fn own_place(&self, shape: Shape) -> usize {
        mixed(shape) & self.index.len().wrapping_sub(1)
    }

    /// Looks at the slots after `own`, where the first comes after the last, as `look` does, up to
    /// one that is free or has a meeting of this `shape`. None if there is none.
    fn look_after(&self, own: usize, shape: Shape) -> Option<Place>
        ensures { IfSome result (IsPlaceOf (shapes_of self.now) shape) }
    {
        let last = self.index.len().wrapping_sub(1);
        let mut place = own;
        for _ in 1..self.index.len() {
            place = place.wrapping_add(1) & last;
            if let Some(found) = self.look(place, shape) {
                return Some(found);
            }
        }
        None
    }

    /// Enters the meeting at index `at` of the list into the hash table, in which it has no slot
    /// yet. Does nothing if there is no such meeting, or if no slot is free for it.
    fn enter(&mut self, at: usize)
        ensures { self.new ≡ self.old }
    {
        let Some(meeting) = self.list.get(at) else {
            return;
        };
        let shape = meeting.shape;
        let own = self.own_place(shape);
        let found = match self.look(own, shape) {
            None => self.look_after(own, shape),
            found => found,
        };
        if let Some(Place::Free(place)) = found {
            take(&mut self.index, place, at.wrapping_add(self.base));
        }
    }

    /// Adds a meeting to the list, which has no room for it, and makes the hash table twice as long
    /// as it was. It takes memory; `AllocError` if that is refused. The meeting may have been added
    /// then, and the hash table may have no slots: until `clear` makes new ones, shapes are not
    /// found, and `meet` may add further meetings of the same shape.
    #[cold]
    #[inline(never)]
    fn push_growing(&mut self, meeting: Meeting) -> Result<(), AllocError>
        ensures added { OnOk result (self.new ≡ self.old ++ meeting ∷ []) }
        ensures few { OnOk result (length self.new < 2 ^ 63) }
    {
        let places = self.index.len();
        self.list.push(meeting)?;
        self.index.clear();
        self.index.resize(places.saturating_mul(2), 0)?;
        for at in 0..self.list.len() {
            self.enter(at);
        }
        Ok(())
    }

    /// Adds a meeting of this `shape` with both counts 0, and enters it into the free slot `place`
    /// of the hash table, if there is such a slot. Returns its index in the list. It may take
    /// memory; `AllocError` if that is refused; the meeting may have been added then.
    #[inline(always)]
    fn add(&mut self, place: usize, shape: Shape) -> Result<usize, AllocError>
        ensures met { IfOk result (IsMet (shapes_of self.new) shape) }
        ensures small { IfOk result (λ at. at < 2 ^ 63 - 1) }
        ensures meets { OnOk result (Meets (shapes_of self.old) (shape ∷ []) (shapes_of self.new)) }
        ensures counts { OnOk result (CountsStay self.old self.new) }
    {
        let at = self.list.len();
        if at < self.list.capacity() {
            // The slot is free until the meeting is in the list.
            take(&mut self.index, place, at.wrapping_add(self.base));
            self.list.push_reserved(uncounted(shape));
        } else {
            self.push_growing(uncounted(shape))?;
        }
        Ok(at)
    }

    /// Does what `meet` does, where a meeting of another shape has the slot `own`, from which on
    /// this `shape` is looked up.
    #[cold]
    #[inline(never)]
    fn meet_after(&mut self, own: usize, shape: Shape) -> Result<usize, AllocError>
        ensures met { IfOk result (IsMet (shapes_of self.new) shape) }
        ensures small { IfOk result (λ at. at < 2 ^ 63 - 1) }
        ensures meets { OnOk result (Meets (shapes_of self.old) (shape ∷ []) (shapes_of self.new)) }
        ensures counts { OnOk result (CountsStay self.old self.new) }
    {
        let place = match self.look_after(own, shape) {
            Some(Place::Met(at)) => return Ok(at),
            Some(Place::Free(place)) => place,
            None => self.index.len(),
        };
        self.add(place, shape)
    }

    /// Returns the index in the list of a meeting of this `shape`: one that is there, or a new one
    /// with both counts 0, which may take memory. `AllocError` if that is refused; the meeting may
    /// have been added then. It is inlined, since it runs for every point that changed.
    #[inline(always)]
    pub fn meet(&mut self, shape: Shape) -> Result<usize, AllocError>
        ensures met { IfOk result (IsMet (shapes_of self.new) shape) }
        ensures small { IfOk result (λ at. at < 2 ^ 63 - 1) }
        ensures meets { OnOk result (Meets (shapes_of self.old) (shape ∷ []) (shapes_of self.new)) }
        ensures counts { OnOk result (CountsStay self.old self.new) }
    {
        let own = self.own_place(shape);
        let at = match self.look(own, shape) {
            Some(Place::Met(at)) => at,
            Some(Place::Free(place)) => self.add(place, shape)?,
            None => self.meet_after(own, shape)?,
        };
        Ok(at)
    }

    /// Adds `times` to how often the pattern of the meeting at index `at` was there.
    pub fn add_there(&mut self, at: usize, times: u64)
        requires inside { at < length (shapes_of self.old) }
        requires few { there_among self.old (slice_index (shapes_of self.old) at) + times < 2 ^ 64 }
        ensures shapes { shapes_of self.new ≡ shapes_of self.old }
        ensures there { (shape : ℕ) → there_among self.new shape
            ≡ there_among self.old shape
            + one_pattern (slice_index (shapes_of self.old) at) times shape }
        ensures played { (shape : ℕ) → played_among self.new shape ≡ played_among self.old shape }
    {
        let meeting = &mut self.list[at];
        meeting.there += times;
    }

    /// Adds 1 to how often the pattern of the meeting at index `at` was played.
    pub fn add_played(&mut self, at: usize)
        requires inside { at < length (shapes_of self.old) }
        requires few { played_among self.old (slice_index (shapes_of self.old) at) + 1 < 2 ^ 64 }
        ensures shapes { shapes_of self.new ≡ shapes_of self.old }
        ensures there { (shape : ℕ) → there_among self.new shape ≡ there_among self.old shape }
        ensures played { (shape : ℕ) → played_among self.new shape
            ≡ played_among self.old shape
            + one_pattern (slice_index (shapes_of self.old) at) 1 shape }
    {
        let meeting = &mut self.list[at];
        meeting.played += 1;
    }
}
