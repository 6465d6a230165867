//! Does each task by the function `run_` of its name, such as `run_count`, and gives the exit
//! status of the run.
ghost use Rattle.std.specs.Prelude.{◌≡◌, IfOk, IfErr};
ghost use Rattle.shapes.specs.Tasks.{Reads, Does, IsTaskFault, status_after};

use count_core::run_count;
use engine_core::{Outcome, RunFault, run_board, run_find, run_join, status_of, write_output};
use harvest_core::FreeGate;
use shapes_line::Task;
use std::alloc::Global;
use std::io::{Read, Write};
use std::sync::Wait;
use std::thread::Threads;
use tally_core::Report;

/// The answer of a task that ended well.
#[derive(Clone, Copy, Debug, PartialEq, Eq)]
pub struct Answer {
    /// Whether the task found what was asked for.
    pub outcome: Outcome,
    /// How many trees were games, were of other games and were refused; None for all tasks but
    /// `count`.
    pub report: Option<Report>,
}

impl Answer {
    /// Makes an answer without a report.
    fn of(outcome: Outcome) -> Answer
        ensures { result ≡ record { outcome = outcome; report = None } }
    {
        Answer {
            outcome,
            report: None,
        }
    }
}

/// Does `task`, and returns whether it found what was asked for, with the report of a count.
///
/// `board`, `count`, `find` and `join` are done by the function `run_` of that name, with the
/// reader and the writer; that function says how much of the input is read. For help the text is
/// written, and nothing is read. The threads that count are started through `threads`. A count ends
/// only if each call of `threads` that waits for another thread ends.
///
/// # Errors
///
/// Those of the function that does the task, which says what was written by then. `Write` if a text
/// of help was not written whole.
pub fn do_task<T: Threads + Wait + Sync, R: Read, W: Write>(
    threads: &T,
    alloc: Global,
    task: Task,
    reader: &mut R,
    writer: &mut W,
) -> Result<Answer, RunFault>
    ensures read { Reads task result (R.remaining reader.old) (R.remaining reader.new) }
    ensures done { IfOk result (Does task (R.remaining reader.old) (W.contents writer.old)
        (W.contents writer.new)) }
    ensures fault { IfErr result (IsTaskFault task (R.remaining reader.old)
        (W.contents writer.old) (W.contents writer.new)) }
{
    match task {
        Task::Board => Ok(Answer::of(run_board(alloc, reader, writer)?)),
        Task::Count(settings, text) => {
            let report = run_count(threads, alloc, settings, text, &FreeGate, reader, writer)?;
            Ok(Answer {
                outcome: Outcome::Done,
                report: Some(report),
            })
        }
        Task::Find(shape) => Ok(Answer::of(run_find(alloc, shape, reader, writer)?)),
        Task::Join(text) => Ok(Answer::of(run_join(alloc, text, reader, writer)?)),
        Task::Help(text) => {
            write_output(writer, text.as_bytes())?;
            Ok(Answer::of(Outcome::Done))
        }
    }
}

/// Returns the exit status of a run: 0 if its task was done, 1 if what was asked for was not found,
/// and else that of the fault.
pub fn status_after(done: &Result<Answer, RunFault>) -> u8
    ensures { result ≡ status_after done.now }
{
    match done {
        Ok(answer) => match answer.outcome {
            Outcome::Done => 0,
            Outcome::NotFound => 1,
        },
        Err(fault) => status_of(fault),
    }
}
