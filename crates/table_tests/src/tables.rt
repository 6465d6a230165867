//! Threads that enter keys and note games at one table: what no clause says, since the calls of all
//! threads together stand in no contract.
ghost use Rattle.std.specs.Prelude.{All, IfOk};
ghost use Rattle.slot_table.specs.Passes.{IsPassOf};

use probe_core::{Answer, Capacity, Key, Linear, OddRuns, OddStep, ProbeOrder};
use slot_table::{Pass, SlotFault, SlotTable};
use std::alloc::{AllocError, Global};
use std::process::Abort;
use std::test::Fail;
use std::thread;
use std::thread::Threads;

/// How many keys each thread enters: a prime, so that any stride below it reaches every key.
const KEYS: usize = 199;

/// Returns the capacity of 2^k slots.
pub(crate) fn capacity_of(rt: &impl Abort, k: u32) -> Capacity {
    Capacity::new(k).expect(rt, "an exponent up to 22")
}

/// Returns the key of this number, which is below 2^51.
pub(crate) fn key_of(rt: &impl Abort, bits: u64) -> Key {
    Key::new(bits).expect(rt, "a key below 2^51")
}

/// What one thread does its work with: its pass (what a caller has seen of the table's calls, for
/// proofs), and where it begins among the keys.
#[derive(Drop)]
struct Job<O> {
    pass: Pass<O>,
    first: u8,
}

/// The pass (what a caller has seen of the table's calls, for proofs) of a thread that ended, and
/// the answer for each key from 0 to 198, at the key's index.
#[derive(Drop)]
struct Done<O> {
    pass: Pass<O>,
    answers: [Answer; KEYS],
}

/// Returns `count` jobs, each with a pass that is split off `pass`, and the first keys 0, 1, 2 and
/// so on.
fn jobs_of<O: ProbeOrder>(
    alloc: Global,
    table: &SlotTable<O>,
    pass: &mut Pass<O>,
    count: u8,
) -> Result<Vec<Job<O>>, AllocError>
    requires { IsPassOf table.now pass.old }
    ensures pass { IsPassOf table.now pass.new }
    ensures jobs { IfOk result (λ v. All (λ job. IsPassOf table.now job.pass) v.items) }
{
    let mut jobs = Vec::new(alloc);
    for first in 0..count {
        let pass = table.split(pass);
        jobs.push(Job { pass, first })?;
    }
    Ok(jobs)
}

/// Enters all keys from 0 to 198, from `first` of the job on and in strides of `first` + 1 (every
/// key, every second one, and so on, and from the beginning again), and after each of them notes at
/// slot 0 the game 41 plus `first`. Returns the answers for the keys.
fn enter_all<O: ProbeOrder>(rt: &impl Abort, table: &SlotTable<O>, job: Job<O>) -> Done<O>
    requires { IsPassOf table.now job.pass }
    ensures { IsPassOf table.now result.pass }
{
    let Job { mut pass, first } = job;
    let mut answers = [Answer::Absent; KEYS];
    assert!(rt; table.capacity().slots() > 0);
    for step in 0..KEYS {
        let key = (usize::from(first) + (usize::from(first) + 1) * step) % KEYS;
        answers[key] = table.enter(&mut pass, key_of(rt, key as u64));
        table.mark(&mut pass, 0, 41 + u64::from(first));
    }
    Done { pass, answers }
}

/// Runs `enter_all` for each job in a thread of its own, and waits for all of them. Returns what
/// they return, one for each job. `AllocError` if memory for this was refused.
fn run_all<O: ProbeOrder + Send + Sync, R: Threads + Abort + Sync>(
    rt: &R,
    table: &SlotTable<O>,
    jobs: Vec<Job<O>>,
) -> Result<Vec<Done<O>>, AllocError>
    requires { All (λ job. IsPassOf table.now job.pass) jobs.items }
    ensures { IfOk result (λ v. All (λ done. IsPassOf table.now done.pass) v.items) }
{
    thread::map_vec(
        rt,
        jobs,
        &|job: Job<O>| -> Done<O>
            requires { IsPassOf table.now job.pass }
            ensures { IsPassOf table.entry.now result.pass }
        { enter_all(rt, table, job) },
    )
}

/// Asserts that by `pass` alone each key has its answer, and the least game at slot 0 is 41.
fn assert_found<O: ProbeOrder>(
    rt: &impl Abort,
    table: &SlotTable<O>,
    pass: &mut Pass<O>,
    answers: &[Answer; KEYS],
)
    requires { IsPassOf table.now pass.old }
    ensures { IsPassOf table.now pass.new }
{
    assert!(rt; table.capacity().slots() > 0);
    assert!(rt; table.first(pass, 0) == Some(41));
    for key in 0..KEYS {
        let found = table.look_up(pass, key_of(rt, key as u64));
        assert!(rt; found == answers[key]);
    }
}

/// How many of the answers are numbers.
fn numbers_in(answers: &[Answer; KEYS]) -> usize {
    let mut numbers = 0usize;
    for key in 0..KEYS {
        if matches!(answers[key], Answer::Number(_)) {
            numbers = numbers.saturating_add(1);
        }
    }
    numbers
}

/// Enters the keys once more by `pass`, and asserts that this many get a number, that all eight
/// threads had the same answers and have them of look-ups too, and so has the pass into which all
/// are joined.
fn assert_read_back<O: ProbeOrder>(
    rt: &impl Abort,
    table: &SlotTable<O>,
    pass: Pass<O>,
    wanted: usize,
    mut done: Vec<Done<O>>,
)
    requires pass { IsPassOf table.now pass }
    requires done { All (λ done. IsPassOf table.now done.pass) done.items }
{
    assert!(rt; done.len() == 8);
    let Done {
        pass: mut all,
        answers: agreed,
    } = enter_all(rt, table, Job { pass, first: 8 });
    assert!(rt; numbers_in(&agreed) == wanted);
    while let Some(other) = done.pop() {
        let Done { mut pass, answers } = other;
        assert!(rt; answers == agreed);
        assert_found(rt, table, &mut pass, &agreed);
        all = table.meet(all, pass);
    }
    assert_found(rt, table, &mut all, &agreed);
}

/// Lets eight threads enter the same keys, each in an order of its own, and note games at one slot.
/// Asserts that this many keys got a number, that all threads got the same, and that all read the
/// least game.
fn read_back<O: ProbeOrder + Send + Sync, R: Threads + Abort + Sync>(
    rt: &R,
    alloc: Global,
    order: O,
    wanted: usize,
) -> Result<(), SlotFault> {
    let (table, mut pass) = SlotTable::new(alloc, order)?;
    let jobs = jobs_of(alloc, &table, &mut pass, 8)?;
    let done = run_all(rt, &table, jobs)?;
    assert_read_back(rt, &table, pass, wanted, done);
    Ok(())
}

#[test]
fn all_threads_read_the_same_numbers_and_the_least_game(rt: HostRuntime) -> Result<(), Fail> {
    let capacity = capacity_of(&rt, 8);
    read_back(&rt, rt.alloc(), Linear { capacity }, KEYS)?;
    read_back(&rt, rt.alloc(), OddStep { capacity }, KEYS)?;
    read_back(&rt, rt.alloc(), OddRuns { capacity }, KEYS)?;
    Ok(())
}

#[test]
fn one_slot_has_one_key(rt: HostRuntime) -> Result<(), Fail> {
    let capacity = capacity_of(&rt, 0);
    read_back(&rt, rt.alloc(), OddRuns { capacity }, 1)?;
    Ok(())
}
