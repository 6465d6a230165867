//! The first patterns of a dictionary in an order, drawn as text or as a page.
#![tactic(auto)]

mod asked;
mod bounds;
mod cells;
mod choosing;
mod drawing;
mod empty;
mod head;
mod orders;
mod page;
mod pieces;
mod places;
mod plain;
mod rows;
mod runs;
mod sheets;
mod sides;

pub use asked::{Asked, Form};
pub use choosing::choose;
pub use orders::Order;
pub use page::page_text;
pub use plain::plain_text;
pub use runs::run_sheet;
pub use sheets::sheet_text;
