//! How the reading of a text stands.
ghost use Rattle.std.specs.Prelude.{◌≡◌};
ghost use Rattle.stream_core.specs.Streams.{standing_of};

use crate::faults::StreamFault;
use shape_dict::Entry;

/// Whether more entries may come, all have come, or a fault ended the reading.
#[derive(Clone, Copy, Debug, PartialEq, Eq)]
pub enum Standing {
    More,
    Ended,
    Failed(StreamFault),
}

/// Returns whether more entries may come after `answer`, all have come, or a fault ended the
/// reading.
pub(crate) fn standing_of(answer: &Result<Option<Entry>, StreamFault>) -> Standing
    ensures { result ≡ standing_of answer.now }
{
    match answer {
        Ok(Some(_)) => Standing::More,
        Ok(None) => Standing::Ended,
        Err(fault) => Standing::Failed(*fault),
    }
}
