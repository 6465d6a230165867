//! The items that the queue of jobs holds: jobs (games to count), and ends (signs that no job is
//! left).
use game_core::Job;

/// An item of the queue: a job, or the sign for one worker that no job is left.
#[derive(Drop)]
pub enum Item<'a> {
    /// A game that is to be counted.
    Job(Job<'a>),
    /// The sign that no job comes after it, for the worker that takes it from the queue.
    End,
}
