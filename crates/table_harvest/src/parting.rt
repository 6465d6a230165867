//! Splits the workers' results into shares (what each has counted) and faults of refused games.
ghost use Rattle.std.specs.Prelude.{◌≡◌, ◌⊎◌, ◌↔◌, [], Contains, IsTrue, MatchOption, IfOk};
ghost use Rattle.harvest_faults.specs.declared.faults.HarvestFault.TheVariants as fault;
ghost use Rattle.table_harvest.specs.Inner.Parted.{shares_of, refusals_of};
ghost use Rattle.table_harvest.specs.Inner.Parted.{rank, game_of as game_named, GoesFirst, IsWorst};

use crate::working::Worked;
use harvest_faults::HarvestFault;
use std::alloc::{AllocError, Global};
use table_shares::Share;

/// The shares of all workers (what each has counted), and for each worker that refused a game the
/// fault of the first game that it refused.
#[derive(Drop)]
pub(crate) struct Parted {
    pub shares: Vec<Share>,
    pub refusals: Vec<HarvestFault>,
}

impl Parted {
    ghost use Rattle.std.specs.Prelude.{◌≡◌, ◌++◌, ◌∷◌, [], OnOk};
    ghost use Rattle.table_harvest.specs.Inner.Parted.{refusals_of};

    /// Adds the share and the fault, if any, that one worker hands back. `AllocError` if memory was
    /// refused.
    fn take(&mut self, worked: Worked) -> Result<(), AllocError>
        ensures shares { OnOk result
            (self.new.shares.items ≡ self.old.shares.items ++ worked.share ∷ []) }
        ensures refusals { OnOk result
            (self.new.refusals.items ≡ self.old.refusals.items ++ refusals_of (worked ∷ [])) }
    {
        let Worked { share, refused } = worked;
        self.shares.push(share)?;
        if let Some(fault) = refused {
            self.refusals.push(fault)?;
        }
        Ok(())
    }
}

/// Splits what all workers hand back into their shares and the faults of refused games, in the
/// order of the workers. `AllocError` if memory was refused.
pub(crate) fn part(alloc: Global, worked: Vec<Worked>) -> Result<Parted, AllocError>
    ensures shares { IfOk result (λ parted. parted.shares.items ≡ shares_of worked.items) }
    ensures refusals { IfOk result (λ parted. parted.refusals.items ≡ refusals_of worked.items) }
{
    let mut parted = Parted {
        shares: Vec::new(alloc),
        refusals: Vec::new(alloc),
    };
    for one in worked {
        parted.take(one)?;
    }
    Ok(parted)
}

/// Whether `Memory` is among `refusals`: memory was refused to some worker.
pub(crate) fn want_memory(refusals: &[HarvestFault]) -> bool
    ensures { IsTrue result ↔ Contains refusals.now fault.Memory }
{
    refusals.contains(&HarvestFault::Memory)
}

/// Returns the rank of a fault in the order in which faults of games are reported, 0 for the first:
/// `Memory`, `Full`, `Stranger`, `Overflow`, then all others.
fn place(fault: &HarvestFault) -> u32
    ensures { result ≡ rank fault.now }
{
    match fault {
        HarvestFault::Memory => 0,
        HarvestFault::Full { .. } => 1,
        HarvestFault::Stranger { .. } => 2,
        HarvestFault::Overflow => 3,
        _ => 4,
    }
}

/// Returns the game that a `Full` fault names, or 0 for other faults.
fn game_of(fault: &HarvestFault) -> u64
    ensures { result ≡ game_named fault.now }
{
    match fault {
        HarvestFault::Full { game, .. } => *game,
        _ => 0,
    }
}

/// Whether the fault `one` is reported rather than `other`: its rank by `place` is less, or both
/// have one rank and the game that `one` names is less.
fn goes_first(one: &HarvestFault, other: &HarvestFault) -> bool
    ensures { IsTrue result ↔ GoesFirst one.now other.now }
{
    let (first, second) = (place(one), place(other));
    first < second || (first == second && game_of(one) < game_of(other))
}

/// Returns which of two faults is to be reported: `found`, the one chosen so far, unless it is None
/// or `goes_first` is true of `one`; then `one`.
fn told(found: Option<HarvestFault>, one: HarvestFault) -> HarvestFault
    ensures { MatchOption found (result ≡ one) (λ so_far.
        ((result ≡ one) × GoesFirst one so_far)
        ⊎ ((result ≡ so_far) × (GoesFirst one so_far → ⊥))) }
{
    match found {
        None => one,
        Some(so_far) => {
            if goes_first(&one, &so_far) {
                one
            } else {
                so_far
            }
        }
    }
}

/// Returns the fault to report, of least rank by `place` (of these the one with the least game), or
/// None if `refusals` is empty.
pub(crate) fn worst(refusals: &[HarvestFault]) -> Option<HarvestFault>
    ensures { MatchOption result (refusals.now ≡ []) (IsWorst refusals.now) }
{
    let mut found = None;
    for one in refusals {
        found = Some(told(found, *one));
    }
    found
}
