//! Takes over the workers' results: what they counted, which jobs they took from the queue, and,
//! for proofs, the calls that they made to the table.
ghost use Rattle.std.specs.Prelude.{[], OnOk};
ghost use Rattle.table_harvest.specs.Inner.Threads.{HasTaken};

use crate::workers::{Returned, Worker};
use crate::working::Worked;
use harvest_core::Gate;
use harvest_faults::HarvestFault;
use probe_core::ProbeOrder;
use slot_table::Pass;
use std::alloc::AllocError;
use tally_core::Report;

/// What all threads have counted, the report on the input's trees, the fault of the thread that
/// read them, if any, and one pass (the right to call the table) that has noted the calls of all
/// threads.
#[derive(Drop)]
pub(crate) struct Results<O> {
    pub worked: Vec<Worked>,
    pub report: Report,
    pub fault: Option<HarvestFault>,
    pub pass: Pass<O>,
}

/// Appends what each worker has counted to `worked`, in the order of `all`. The workers' endpoints
/// (their accesses to the queue) and passes (their rights to call the table) are merged into those
/// of `own`. `AllocError` if memory was refused.
pub(crate) fn take_up<'q, 'a, O: ProbeOrder, G: Gate>(
    own: &mut Worker<'q, 'a, '_, O, G>,
    worked: &mut Vec<Worked>,
    all: Vec<Returned<'q, 'a, O>>,
) -> Result<(), AllocError>
    requires { HasTaken own.old all.items all.items own.old worked.old.items }
    ensures { OnOk result (HasTaken own.old all.entry.items [] own.new worked.new.items) }
{
    for back in all {
        let Returned {
            worked: one,
            endpoint,
            pass,
        } = back;
        own.endpoint.take_up(endpoint);
        own.table.absorb(&mut own.pass, pass);
        worked.push(one)?;
    }
    Ok(())
}
