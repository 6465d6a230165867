//! Pattern words, their symmetries, and a board that keeps the words of its points.
#![tactic(auto)]

mod cell_bits;
mod cells;
mod diamond_bits;
mod empty_points;
mod fields;
mod imaged;
mod keeping;
mod kept;
mod lanes;
mod laws;
mod marks;
mod masks;
mod shapes;
mod spelling;
mod square_bits;
mod surroundings;
mod symmetries;
mod words;

pub use fields::Field;
pub use laws::{kinds_stay, same_canonical};
pub use shapes::{Shape, canonical};
pub use spelling::{GlyphFault, from_diamond_glyphs, from_glyphs, glyphs};
pub use surroundings::{around, diamond};
pub use symmetries::{Symmetry, exchange, image};
pub use words::{Kind, Kinds, Word};
