//! The hits (times that a pattern was played or was there) that were found so far.
ghost use Rattle.std.specs.Prelude.{◌≡◌, ◌∷◌, ◌<◌, [], IfErr, OnOk, MatchBool};
ghost use Rattle.tally_core.specs.declared.faults.TallyFault.TheVariants as fault;
ghost use Rattle.hits_core.specs.Inner.Finding.{IsFull, GrowsBy};

use crate::hits::Hit;
use tally_core::TallyFault;

/// The first hits that were found, no more than are asked for.
#[derive(Drop)]
pub(crate) struct Found {
    /// The hits, in the order in which they were found.
    pub(crate) hits: Vec<Hit>,
    /// How many hits are asked for; None for all.
    pub(crate) most: Option<u64>,
}

impl Found {
    /// Whether there are as many hits as are asked for; false if all are asked for.
    pub(crate) fn is_full(&self) -> bool
        ensures { MatchBool result (IsFull self.now.most self.now.hits.items)
            (IsFull self.now.most self.now.hits.items → ⊥) }
    {
        match self.most {
            None => false,
            Some(most) => self.hits.len() as u64 >= most,
        }
    }

    /// Adds `hit` to the hits, unless there are as many as are asked for already. The only error is
    /// `Memory`: memory was refused.
    pub(crate) fn push(&mut self, hit: Hit) -> Result<(), TallyFault>
        ensures grown { OnOk result (GrowsBy self.old self.new (hit ∷ [])) }
        ensures fault { IfErr result (λ found. found ≡ fault.Memory) }
    {
        if !self.is_full() {
            self.hits.push(hit)?;
        }
        Ok(())
    }
}
