//! Events of a simulation: which caller of a table begins a call or takes a step. And the calls
//! that have ended.
use crate::calls::{Answer, Call};

/// One event of a simulation in which several callers use one table. Callers are numbered from 0.
#[derive(Clone, Copy, Debug, PartialEq, Eq)]
pub enum Event {
    /// This caller begins this call. Ignored if it has a call under way or doesn't exist.
    Begin(usize, Call),
    /// This caller takes the next step of its call. Ignored if it has none or doesn't exist.
    Step(usize),
}

/// A call that has ended, in a simulation of callers.
#[derive(Clone, Copy, Debug, PartialEq, Eq)]
pub struct Finished {
    /// The number of the caller.
    pub caller: usize,
    /// What was asked.
    pub call: Call,
    /// What was answered.
    pub answer: Answer,
    /// The number of the event that began the call; events count from 0.
    pub begun: usize,
    /// The number of the event of the call's last step.
    pub ended: usize,
}
