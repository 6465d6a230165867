//! Which files of games the words of a command line mean, and how a file's name is shown.
#![tactic(auto)]

// names of files, and what is wrong with them
mod flaws;
mod names;
mod showing;

// what an input without a tree may be
mod causes;
mod fronts;

// files and folders that names stand for
mod looks;
mod walks;
mod words;

pub use causes::{Cause, cause_of};
pub use flaws::{Flaw, Why, status_of};
pub use fronts::Fronted;
pub use looks::open_file;
pub use names::{is_game_name, sort_names};
pub use showing::{Shown, push_name};
pub use words::{Source, sources};
