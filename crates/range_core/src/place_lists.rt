//! The entries of one worker, in lists by ranges of places (slots of the shared table).
ghost use Rattle.std.specs.Prelude.{◌≡◌, ◌+◌, ◌<◌, ℕ, IfOk, OnOk, OnErr};
ghost use Rattle.range_core.specs.Totals.{total_of, together, count_at};

use crate::lists::Lists;
use crate::places::{MULTIPLIER, home};
use crate::record_lists::RecordList;
use crate::sums::{Sums, few_places};
use shape_dict::Entry;
use std::alloc::{AllocError, Global};
use std::marker::Model;

/// How many lists a worker's records are kept in, by place. A pattern's place is the slot of the
/// shared table at which a search for it begins. Each list has the patterns of one range of places.
pub const PLACE_LISTS: usize = 512;

/// Makes a list of the entries of `sums`, with room for `room` entries at first.
fn listed(alloc: Global, sums: &Sums, room: usize) -> Result<RecordList, AllocError>
    ensures { IfOk result (λ list. (shape : ℕ) → total_of shape list ≡ total_of shape sums.now) }
{
    let mut list = RecordList::with_room(alloc, room)?;
    sums.add_to(&mut list)?;
    Ok(list)
}

/// Makes room in a full list: the entries of each pattern become one, with their counts added up.
/// `sums` is memory to work in. The list is unchanged if that would leave it more than half full,
/// if memory is refused, or if a sum passes 2^64 - 1.
#[inline(never)]
fn make_room(alloc: Global, sums: &mut Sums, list: &mut RecordList)
    ensures { (shape : ℕ) → total_of shape list.new ≡ total_of shape list.old }
{
    if sums.clear(few_places(list.len())).is_err() || !list.sum_to(sums) {
        return;
    }
    if let Ok(added_up) = listed(alloc, sums, list.room()) {
        *list = added_up;
    }
}

/// Appends `entry`, one of whose counts must be above 0, to `list`. If the list is full, room is
/// made first, with `sums` as memory to work in; where none can be made, the list grows.
#[inline(always)]
fn append_to(
    alloc: Global,
    sums: &mut Sums,
    list: &mut RecordList,
    entry: Entry,
) -> Result<(), AllocError>
    requires { 0 < entry.there + entry.played }
    ensures added { OnOk result ((shape : ℕ) → total_of shape list.new
        ≡ together (total_of shape list.old) (count_at shape entry)) }
    ensures err { OnErr result ((shape : ℕ) → total_of shape list.new ≡ total_of shape list.old) }
{
    if list.is_full() {
        make_room(alloc, sums, list);
    }
    list.push(entry)?;
    Ok(())
}

/// Lists of entries, each of which has the patterns of its own range of places. Contracts see the
/// lists.
#[derive(Drop)]
pub struct PlaceLists {
    alloc: Global,
    /// A list for each range of places, in their order.
    lists: Vec<RecordList>,
    /// Memory in which a full list is added up.
    sums: Sums,
}

impl Model for PlaceLists {
    ghost use Rattle.std.specs.Prelude.{◌≡◌, List, length};
    ghost use Rattle.shape_dict.specs.declared.entries.Entry.{Entry};
    ghost use Rattle.range_core.specs.Ranges.{AreDealtBy};
    ghost use Rattle.range_core.specs.Places.{place_ranges, range_of_place};

    ghost Value = { List (List Entry) };

    ghost view = { λ l. l.lists.items };

    ghost invariant = { λ l. (length l.lists.items ≡ place_ranges)
        × AreDealtBy range_of_place l.lists.items };
}

impl PlaceLists {
    ghost use Rattle.std.specs.Prelude.{◌≡◌, ◌+◌, ◌<◌, ℕ, length, replicate, [], IfOk, OnOk, OnErr};
    ghost use Rattle.range_core.specs.Totals.{total_of, together, count_at, all_of};
    ghost use Rattle.range_core.specs.Ranges.{AreDealtBy};
    ghost use Rattle.range_core.specs.Places.{place_ranges, range_of_place};

    /// Makes empty lists, each with room for `room` entries. It takes memory for that.
    ///
    /// # Errors
    ///
    /// `AllocError` if memory was refused.
    pub fn new(alloc: Global, room: usize) -> Result<PlaceLists, AllocError>
        ensures { IfOk result (λ lists. lists ≡ replicate place_ranges []) }
    {
        Ok(PlaceLists {
            alloc,
            lists: Lists::empty(alloc, PLACE_LISTS, room)?.into_vec(),
            sums: Sums::new(alloc),
        })
    }

    /// Appends an entry, one of whose counts must be above 0, to the list of its pattern's range.
    /// It takes memory if that list is full: its entries are first added up into a new list. The
    /// old list grows instead if they would fill more than half of the new one, if memory for that
    /// is refused, or if a sum passes 2^64 - 1. An entry that doesn't fit in 16 bytes may take
    /// memory too.
    ///
    /// # Errors
    ///
    /// `AllocError` if memory was refused: the sums of each pattern are then as they were.
    #[inline(always)]
    pub fn append(&mut self, entry: Entry) -> Result<(), AllocError>
        requires { 0 < entry.there + entry.played }
        ensures added { OnOk result ((shape : ℕ) → total_of shape (all_of self.new)
            ≡ together (total_of shape (all_of self.old)) (count_at shape entry)) }
        ensures err { OnErr result ((shape : ℕ) → total_of shape (all_of self.new)
            ≡ total_of shape (all_of self.old)) }
    {
        let range = home(MULTIPLIER, entry.shape, PLACE_LISTS);
        append_to(self.alloc, &mut self.sums, &mut self.lists[range], entry)?;
        Ok(())
    }

    /// Returns the lists, in the order of their ranges of places.
    pub fn into_lists(self) -> Lists
        ensures lists { result ≡ self }
        ensures len { length self ≡ place_ranges }
        ensures dealt { AreDealtBy range_of_place self }
    {
        Lists::of(self.lists)
    }
}
