//! Tables of one user, and worlds (models in which several callers of a table take steps in turn),
//! run from outside, with answers worked out by hand.
use crate::tables::{capacity_of, key_of};
use probe_core::{Answer, Call, Event, Finished, Key, OddStep, ProbeFault, SoloTable, World};
use std::alloc::Global;

/// A call of a caller that has ended with number 0.
fn ended(caller: usize, call: Call, begun: usize, ended: usize) -> Finished {
    Finished {
        caller,
        call,
        answer: Answer::Number(0),
        begun,
        ended,
    }
}

/// Lets the two callers of a new world of two slots enter key 5, and the first then look it up. The
/// exchange of the second one fails, by which it learns the slot of the key. Returns whether all
/// calls have ended as they should, and the slots have these words. If memory was refused to the
/// run, it is repeated once.
fn is_shared(world: &mut World<OddStep>, five: Key) -> bool {
    let events = [
        Event::Begin(0, Call::Enter(five)),
        Event::Begin(1, Call::Enter(five)),
        Event::Step(0),
        Event::Step(1),
        Event::Step(0),
        Event::Step(1),
        Event::Begin(0, Call::LookUp(five)),
        Event::Step(0),
    ];
    let history = [
        ended(0, Call::Enter(five), 0, 4),
        ended(1, Call::Enter(five), 1, 5),
        ended(0, Call::LookUp(five), 6, 7),
    ];
    let run = world.run(&events);
    let has_run = run == Ok(()) || run == Err(ProbeFault::Memory) && world.run(&events) == Ok(());
    has_run && world.history() == history.as_slice() && world.words() == [6, 0].as_slice()
}

/// The same of a new world. The error is that memory for it was refused.
fn world_is_shared(alloc: Global, order: OddStep, five: Key) -> Result<bool, ProbeFault> {
    let mut world = World::new(alloc, order, 2)?;
    Ok(is_shared(&mut world, five))
}

/// Whether in a new table of one user a key gets slot 0 and is found there. The error is that
/// memory for the table was refused.
fn key_is_found(alloc: Global, order: OddStep, five: Key) -> Result<bool, ProbeFault> {
    let mut table = SoloTable::new(alloc, order)?;
    let number = Answer::Number(0);
    Ok(table.enter(five) == number && table.look_up(five) == number)
}

/// With memory refused at any one request, each call does this or says that memory was refused, and
/// does it when it is repeated.
#[test]
fn a_key_has_one_number_once_memory_is_there(rt: HostRuntime) {
    let order = OddStep {
        capacity: capacity_of(&rt, 1),
    };
    let (alloc, five) = (rt.alloc(), key_of(&rt, 5));
    let refused = Err(ProbeFault::Memory);
    let found = key_is_found(alloc, order, five);
    assert!(rt;
        found == Ok(true) || found == refused && key_is_found(alloc, order, five) == Ok(true)
    );
    let shared = world_is_shared(alloc, order, five);
    assert!(rt;
        shared == Ok(true) || shared == refused && world_is_shared(alloc, order, five) == Ok(true)
    );
}
