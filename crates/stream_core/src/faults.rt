//! What can go wrong when a text is read line by line.
use shape_dict::DictFault;
use thiserror::Error;

/// Why there is no next entry, or no header.
#[derive(Clone, Copy, Debug, PartialEq, Eq, Error)]
pub enum StreamFault {
    /// The bytes are no text of a dictionary: this is their first fault.
    #[error("{0}")]
    Dict(DictFault),
    /// A read failed.
    #[error("I1 read failed")]
    Read,
    /// Memory for the block was refused.
    #[error("M1 no memory")]
    Memory,
}
