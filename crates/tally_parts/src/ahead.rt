//! Counts a part in threads while the texts of the next one are read.
ghost use Rattle.std.specs.Prelude.{◌≡◌, ◌≢◌, ◌≤◌, [], ℕ, List, length, OnOk, IfOk, IfErr};
ghost use Rattle.std.specs.Thread.{IsSync};
ghost use Rattle.merge_core.specs.Merge.{AreInputs};
ghost use Rattle.shape_dict.specs.Text.{IsSmall};
ghost use Rattle.batch_core.specs.Batch.{joined};
ghost use Rattle.tally_parts.specs.Parts.{kinds_for, IsDictionaryOfTexts};
ghost use Rattle.tally_parts.specs.Inner.Filling.{GoesOn, IsBegun, IsFilled};
ghost use Rattle.tally_parts.specs.Inner.Joining.{AreAllGood};
ghost use Rattle.tally_parts.specs.declared.faults.PartsFault.TheVariants as fault;

use crate::counting::count_part;
use crate::faults::PartsFault;
use crate::filling::{Feed, fill};
use crate::plans::Plan;
use crate::texts::Texts;
use shape_dict::PieceDictionary;
use std::alloc::Global;
use std::sync::Wait;
use std::thread::{Threads, join_mut};

/// Counts the games of `part` as `count_part` does, and meanwhile fills `next`, which is empty, as
/// `fill` does, in this thread. Returns the dictionary of `part`.
///
/// # Errors
///
/// Those of `count_part` and of `fill`; that of `count_part` if both fail.
pub(crate) fn count_and_fill<R: Threads + Wait + Sync, T: Texts>(
    rt: &R,
    alloc: Global,
    plan: Plan,
    part: &[u8],
    texts: &mut T,
    feed: &mut Feed,
    next: &mut Vec<u8>,
) -> Result<PieceDictionary, PartsFault>
    requires empty { next.old.items ≡ [] }
    requires within { feed.old.next ≤ T.number texts.old }
    ensures number { T.number texts.new ≡ T.number texts.old }
    ensures bytes { T.bytes texts.new ≡ T.bytes texts.old }
    ensures within { feed.new.next ≤ T.number texts.new }
    ensures on { OnOk result (GoesOn feed.old feed.new) }
    ensures filled { (all : List (List ℕ)) → AreInputs (T.bytes texts.old) 0 all
        → length all ≡ T.number texts.old → IsBegun all feed.old
        → OnOk result (IsFilled all feed.old feed.new next.new.items) }
    ensures counted { (good : List (List ℕ)) → AreAllGood good → part.now ≡ joined good
        → IfOk result (IsDictionaryOfTexts (kinds_for plan.text) good) }
    ensures small { IfOk result IsSmall }
    ensures wanted { IfErr result (λ found. found ≢ fault.Unwanted) }
{
    let mut count = || -> Result<PieceDictionary, PartsFault>
        requires { IsSync R.row }
        ensures { ((good : List (List ℕ)) → AreAllGood good → part.entry.now ≡ joined good
            → IfOk result (IsDictionaryOfTexts (kinds_for plan.text) good))
            × IfOk result IsSmall × IfErr result (λ found. found ≢ fault.Unwanted) }
    { count_part(rt, alloc, plan, part) };
    let mut read = || -> Result<(), PartsFault>
        requires { (next.now.items ≡ []) × (feed.now.next ≤ T.number texts.now) }
        ensures { (T.number texts.exit.now ≡ T.number texts.entry.now)
            × (T.bytes texts.exit.now ≡ T.bytes texts.entry.now)
            × (feed.exit.now.next ≤ T.number texts.exit.now)
            × OnOk result (GoesOn feed.entry.now feed.exit.now)
            × ((all : List (List ℕ)) → AreInputs (T.bytes texts.entry.now) 0 all
            → length all ≡ T.number texts.entry.now → IsBegun all feed.entry.now
            → OnOk result (IsFilled all feed.entry.now feed.exit.now next.exit.now.items))
            × IfErr result (λ found. found ≡ fault.Memory) }
    { fill(alloc, texts, feed, plan.most, next) };
    let (counted, filled) = join_mut(rt, &mut count, &mut read);
    let dictionary = counted?;
    filled?;
    Ok(dictionary)
}
