//! The examples of the pages of `probe_core`, `slot_table` and `job_core`.
use job_core::{Endpoint, Games, Item, new_queue};
use probe_core::{Answer, Capacity, Key, OddStep, SoloTable};
use slot_table::SlotTable;
use std::alloc::Global;
use std::sync::Wait;
use std::test::Fail;
use tally_core::TallyFault;

#[test]
fn probe_core(rt: HostRuntime) -> Result<(), Fail> {
    let capacity = Capacity::new(4).ok_or("an exponent up to 22")?;
    let key = Key::new(5).ok_or("a key below 2^51")?;
    let mut table = SoloTable::new(rt.alloc(), OddStep { capacity })?;
    let answer = table.enter(key);
    assert!(rt; answer == table.look_up(key));
    Ok(())
}

#[test]
fn slot_table(rt: HostRuntime) -> Result<(), Fail> {
    let capacity = Capacity::new(4).ok_or("an exponent up to 22")?;
    let key = Key::new(5).ok_or("a key below 2^51")?;
    let (table, mut pass) = SlotTable::new(rt.alloc(), OddStep { capacity })?;
    if let Answer::Number(number) = table.enter(&mut pass, key) {
        table.mark(&mut pass, number, 7);
        assert!(rt; table.first(&mut pass, number) == Some(7));
    }
    Ok(())
}

/// Hands the first game of an input through a queue of one place: its number, as it is drawn.
fn hand_first<R: Wait>(rt: &R, alloc: Global, input: &[u8]) -> Result<Option<u64>, TallyFault> {
    let mut games = Games::new(input)?;
    let (queue, pass) = new_queue(alloc, 1)?;
    let mut endpoint = Endpoint::open(&queue, pass, input);
    let mut own = endpoint.another();
    if let Some(job) = games.next_job(alloc)? {
        let _ = endpoint.put(rt, Item::Job(job));
    }
    match own.draw(rt) {
        Some(Item::Job(job)) => Ok(Some(job.game())),
        Some(Item::End) | None => Ok(None),
    }
}

#[test]
fn job_core(rt: HostRuntime) -> Result<(), Fail> {
    assert!(rt; hand_first(&rt, rt.alloc(), b"(;GM[2])(;SZ[1];B[aa])") == Ok(Some(0)));
    Ok(())
}
