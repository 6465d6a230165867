//! What a sheet, the drawing of a dictionary's first patterns, is asked to show.
use crate::orders::Order;
use shape_core::Kind;

/// What a sheet is written as.
#[derive(Clone, Copy, Debug, PartialEq, Eq)]
pub enum Form {
    /// One page of HTML.
    Page,
    /// Text for a terminal.
    Plain,
}

/// What a sheet, the drawing of a dictionary's first patterns, is asked to show.
#[derive(Clone, Copy, Debug, PartialEq, Eq)]
pub struct Asked {
    /// The order of the patterns, which says what comes first.
    pub order: Order,
    /// The kind of the patterns.
    pub kind: Kind,
    /// How often a pattern was there at least: those that were there less often are not shown.
    pub least: u64,
    /// How many patterns are shown at most.
    pub most: usize,
    /// What the sheet is written as.
    pub form: Form,
}
