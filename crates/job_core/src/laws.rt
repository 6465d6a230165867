//! Laws of jobs, for proofs in crates that use this one. Each is a function that does nothing, and
//! its contract is the law.
ghost use Rattle.std.specs.Prelude.{ℕ, ◌++◌, List};
ghost use Rattle.job_core.specs.Rising.{Rising, past};

pub use game_core::a_number_is_of_one_game;

/// States for proofs that if the numbers of a list rise, so do those of its last part, all above
/// the numbers before it. So the games that a worker takes from the queue from some time on rise,
/// and are above all that it took before.
pub fn the_end_of_rising_numbers_rises()
    ensures { (low high : ℕ) (before : List ℕ) (after : List ℕ)
        → Rising low (before ++ after) high → Rising (past before) after high }
{}
