//! Counts games into a worker's share (what one worker has counted).
ghost use Rattle.std.specs.Prelude.{◌≡◌, ◌≤◌, [], ℕ, List, Some, None};
ghost use Rattle.shape_core.specs.declared.words.Kinds.{Kinds};
ghost use Rattle.slot_table.specs.Passes.{IsPassOf};
ghost use Rattle.job_core.specs.Rising.{past};
ghost use Rattle.harvest_faults.specs.declared.faults.HarvestFault.{HarvestFault};
ghost use Rattle.table_shares.specs.Checking.{Stand};
ghost use Rattle.table_harvest.specs.InTable.{GoesOnInTable};
ghost use Rattle.harvest_core.specs.Working.{IsWorked};
ghost use Rattle.table_harvest.specs.Working.{IsRefused, IsCounted, CallsOfGame};
ghost use Rattle.table_harvest.specs.Working.{AreOfGame, IsRefusedGame};

use harvest_core::Gate;
use harvest_faults::HarvestFault;
use job_core::Job;
use probe_core::ProbeOrder;
use shape_core::Kinds;
use slot_table::{Pass, SlotTable};
use std::alloc::Global;
use table_shares::Share;

/// A worker's share (what it has counted), and the fault of the first game that it could not count,
/// if any.
#[derive(Drop)]
pub struct Worked {
    pub share: Share,
    pub refused: Option<HarvestFault>,
}

impl Worked {
    /// Makes the empty share of the worker with the number `worker`, for these kinds of pattern. No
    /// game is refused yet. It takes no memory.
    pub fn begin(alloc: Global, worker: usize, kinds: Kinds) -> Worked
        ensures worker { result.share.worker ≡ worker }
        ensures kinds { result.share.kinds ≡ kinds }
        ensures games { result.share.games ≡ [] }
        ensures rows { result.share.rows ≡ [] }
        ensures worked { (bytes : List ℕ) → IsWorked bytes kinds result.share }
        ensures refused { result.refused ≡ None }
    {
        Worked {
            share: Share::begin(alloc, worker, kinds),
            refused: None,
        }
    }

    /// Counts the game of a job, after a call of the `gate` (what is called before each game). By
    /// `pass`, the right to call the table, it enters patterns of this game alone into the table,
    /// and marks this game alone (notes it as the least), at numbers (slots) of its own patterns.
    /// If the game can't be counted, `refused` gets the fault. Once a game was refused nothing
    /// changes: the job is ignored, and the gate is not called. The jobs' games must have rising
    /// numbers, so that the share has each once.
    pub fn count<O: ProbeOrder, G: Gate>(
        &mut self,
        table: &SlotTable<O>,
        pass: &mut Pass<O>,
        gate: &G,
        job: &Job<'_>,
    )
        requires { IsPassOf table.now pass.old }
        ensures pass { IsPassOf table.now pass.new }
        ensures worker { self.new.share.worker ≡ self.old.share.worker }
        ensures worked { (kinds : Kinds) → IsWorked job.now.bytes kinds self.old.share
            → past self.old.share.games ≤ job.now.game
            → IsWorked job.now.bytes kinds self.new.share }
        ensures refused { (kinds : Kinds) → IsWorked job.now.bytes kinds self.old.share
            → Stand table.now.slots pass.old.seen self.old.share.rows
            → IsRefused job.now.bytes kinds self.old.refused
            → IsRefused job.now.bytes kinds self.new.refused }
        ensures games { IsCounted job.now.game self.old self.new }
        ensures first { (found : HarvestFault) → self.old.refused ≡ Some found
            → (self.new ≡ self.old) × (pass.new ≡ pass.old) }
        ensures later { (kinds : Kinds) → self.old.share.kinds ≡ kinds
            → CallsOfGame table.now.slots job.now.bytes kinds job.now.game pass.old pass.new }
        ensures rows { (kinds : Kinds) → self.old.share.kinds ≡ kinds
            → AreOfGame job.now.bytes kinds job.now.game self.old.share self.new.share }
        ensures table { GoesOnInTable table.now.slots pass.old pass.new self.old self.new }
        ensures refusal { (found : HarvestFault) → self.old.refused ≡ None
            → self.new.refused ≡ Some found → IsRefusedGame table.now.slots pass.new.seen
            job.now.bytes job.now.game self.old.share self.new.share found }
    {
        if self.refused.is_some() {
            return;
        }
        gate.at(self.share.worker(), job.game());
        if let Err(fault) = self.share.add(table, pass, job.game(), job.record()) {
            self.refused = Some(fault);
        }
    }
}
