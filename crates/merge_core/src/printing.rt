//! Makes the lines of the join of dictionaries in threads, range by range (a range has the words,
//! the numbers of patterns, from one cut up to the next).
ghost use Rattle.std.specs.Prelude.{◌≡◌, ◌<◌, ◌+◌, ◌^◌, IfOk, vec_len};
ghost use Rattle.std.specs.Thread.{IsSend, IsSync};
ghost use Rattle.merge_core.specs.Inner.Printing.{ArePrinted, IsPrinted};
ghost use Rattle.merge_core.specs.Inner.Writing.{lines_of};

use crate::cuts::Plan;
use crate::entries::NextFault;
use crate::forms::Form;
use crate::ranges::join_at;
use crate::sources::Sources;
use crate::writing::push_entry;
use shape_dict::Entry;
use std::alloc::Global;
use std::thread::{Threads, map_indices};

/// About how many bytes a line has.
const LINE: usize = 24;

/// Returns the lines of those of `entries` that `form` asks for, by its text format and its least
/// count. `Memory` if memory was refused.
fn lines_of(alloc: Global, form: Form, entries: &[Entry]) -> Result<Vec<u8>, NextFault>
    ensures { IfOk result (λ lines. lines.items ≡ lines_of form entries.now) }
{
    let Ok(mut lines) = Vec::with_capacity(alloc, entries.len().saturating_mul(LINE)) else {
        return Err(NextFault::Memory);
    };
    for entry in entries {
        match push_entry(&mut lines, form, entry) {
            Ok(()) => {}
            Err(_) => return Err(NextFault::Memory),
        }
    }
    Ok(lines)
}

/// Joins what the dictionaries have in the range of words from cut `n`, counted from 0, up to the
/// next cut, and returns the lines that the form asks for.
fn print_one<S: Sources>(
    alloc: Global,
    sources: &S,
    plan: &Plan,
    form: Form,
    n: usize,
) -> Result<Vec<u8>, NextFault>
    requires all { vec_len plan.now.headers ≡ S.number sources.now }
    requires few { n + 1 < 2 ^ 64 }
    ensures { IfOk result (λ lines. IsPrinted (S.bytes sources.now) plan.now form n lines.items) }
{
    let mut each = Vec::new(alloc);
    match join_at(alloc, sources, plan, n, &mut each) {
        Ok(joined) => lines_of(alloc, form, &joined.entries),
        Err(fault) => Err(fault),
    }
}

/// The lines of ranges of words that follow one another and are made at the same time. `made` has
/// those of range `from`, counted from 0, first; an error is why a range's lines were not made.
#[derive(Drop)]
pub(crate) struct Round {
    pub(crate) from: usize,
    pub(crate) made: Vec<Result<Vec<u8>, NextFault>>,
}

/// Makes the lines of `count` ranges of words from range `from` on, counted from 0, each in a
/// thread of its own if one can be started. It waits for all. `Memory` if memory for the list was
/// refused.
pub(crate) fn print_round<T: Threads + Sync, S: Sources + Sync>(
    rt: &T,
    alloc: Global,
    sources: &S,
    plan: &Plan,
    form: Form,
    from: usize,
    count: usize,
) -> Result<Round, NextFault>
    requires all { vec_len plan.now.headers ≡ S.number sources.now }
    requires few { from + count < 2 ^ 64 }
    ensures { IfOk result (ArePrinted (S.bytes sources.now) plan.now form) }
{
    let made = map_indices(
        rt,
        alloc,
        count,
        &|place: usize| -> Result<Vec<u8>, NextFault>
            requires { IsSync S.row × IsSend S.Reader.row
                × (vec_len plan.now.headers ≡ S.number sources.now)
                × (from + place + 1 < 2 ^ 64) }
            ensures { IfOk result (λ lines. IsPrinted (S.bytes sources.entry.now) plan.entry.now
                form (from + place) lines.items) }
        { print_one(alloc, sources, plan, form, from + place) },
    );
    match made {
        Ok(made) => Ok(Round { from, made }),
        Err(_) => Err(NextFault::Memory),
    }
}

impl Round {
    ghost use Rattle.std.specs.Prelude.{ℕ, List, Option, IfOk};
    ghost use Rattle.merge_core.specs.declared.forms.Form.{Form as Shown};
    ghost use Rattle.merge_core.specs.declared.cuts.Plan.{Plan as Cuts};
    ghost use Rattle.merge_core.specs.Inner.Printing.{ArePrinted, IsPrinted};

    /// Returns the lines of range `n`, counted from 0 over all ranges, or why they were not made.
    /// `Changed` if `self` does not have that range.
    pub(crate) fn lines_at(&self, n: usize) -> Result<&[u8], NextFault>
        ensures { (bytes : ℕ → Option (List ℕ)) → (plan : Cuts) → (form : Shown)
            → ArePrinted bytes plan form self.now
            → IfOk result (λ lines. IsPrinted bytes plan form n lines.now) }
    {
        if n < self.from || n - self.from >= self.made.len() {
            return Err(NextFault::Changed);
        }
        match &self.made[n - self.from] {
            Ok(lines) => Ok(lines.as_slice()),
            Err(fault) => Err(*fault),
        }
    }
}
