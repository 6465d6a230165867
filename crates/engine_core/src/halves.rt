//! Joins dictionaries that follow one another by halves of their bytes: none is joined more often
//! than the number of bytes can be halved.
ghost use Rattle.std.specs.Prelude.{◌≡◌, ℕ, ◌+◌, ◌^◌, ◌<◌, ◌≤◌, List, length, IfSome};
ghost use Rattle.engine_core.specs.Inner.Batches.{IsBatch, AreBatches};

use shape_dict::Dictionary;
use std::alloc::Global;

/// A batch: dictionaries, at least one, that were read one after another and joined.
#[derive(Drop)]
pub(crate) struct Batch {
    /// The join of the dictionaries.
    pub(crate) sum: Dictionary,
    /// How many dictionaries they are.
    pub(crate) number: usize,
    /// How many bytes the texts of the dictionaries have.
    pub(crate) length: usize,
}

/// Reads the dictionary at the front of the bytes, and returns it as a batch of its own (a batch is
/// the join of dictionaries that were read). None if it cannot be read, or memory was refused.
fn read_one(alloc: Global, bytes: &[u8]) -> Option<Batch>
    ensures batch { IfSome result (IsBatch bytes.now) }
    ensures some { IfSome result (λ batch. 1 ≤ batch.length) }
{
    match Dictionary::read_front(alloc, bytes) {
        Ok((sum, length)) => Some(Batch {
            sum,
            number: 1,
            length,
        }),
        Err(_) => None,
    }
}

/// Joins two batches (each the join of dictionaries that were read), of which the second follows
/// the first, into one. None if they cannot be joined, or memory was refused.
pub(crate) fn join_two(alloc: Global, first: &Batch, next: &Batch) -> Option<Batch>
    requires number { first.now.number + next.now.number < 2 ^ 64 }
    requires length { first.now.length + next.now.length < 2 ^ 64 }
    ensures both { (bytes : List ℕ) → AreBatches bytes first.now next.now
        → IfSome result (IsBatch bytes) }
    ensures length { IfSome result (λ both. both.length ≡ first.now.length + next.now.length) }
{
    match Dictionary::join(alloc, &first.sum, &next.sum) {
        Ok(sum) => Some(Batch {
            sum,
            number: first.number + next.number,
            length: first.length + next.length,
        }),
        Err(_) => None,
    }
}

/// Reads and joins dictionaries from the front of the bytes, as few as have texts of `least` bytes
/// or more together. It first joins the dictionaries of half of `least` bytes, then those of the
/// rest, and then the two joins. So each dictionary is joined no more often than `least` can be
/// halved. None if one of them cannot be read or joined, or memory was refused.
pub(crate) fn join_front(alloc: Global, bytes: &[u8], least: usize) -> Option<Batch>
    requires { least ≤ length bytes.now }
    ensures batch { IfSome result (IsBatch bytes.now) }
    ensures enough { IfSome result (λ batch. least ≤ batch.length) }
{
    if least <= 1 {
        return read_one(alloc, bytes);
    }
    let first = join_front(alloc, bytes, least / 2)?;
    if first.length >= least {
        return Some(first);
    }
    let next = join_front(alloc, &bytes[first.length..], least - first.length)?;
    join_two(alloc, &first, &next)
}
