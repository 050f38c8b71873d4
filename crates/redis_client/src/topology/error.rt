//! Why a reply was refused as a topology.
use redis_resp::ParsingError;
use std::alloc::AllocError;
use thiserror::Error;

/// Why a reply was refused as a topology, or that memory ran out.
#[derive(Debug, Drop, PartialEq, Eq, Error)]
pub enum TopologyError {
    /// The value is not such a reply, or has a slot or port above 65,535.
    #[error("not a reply of slots")]
    NotSlots,
    /// A slot is above 16,383.
    #[error("a slot is above 16383")]
    SlotPastLast,
    /// The first slot of a range is above its last.
    #[error("the first slot of a range is above its last")]
    Reversed,
    /// A slot is in two ranges.
    #[error("a slot is in two ranges")]
    Overlap,
    /// An allocation failed; the value may be valid.
    #[error("out of memory")]
    Memory,
}

impl From<AllocError> for TopologyError {
    ghost use Rattle.std.specs.Prelude.{◌≡◌};
    ghost use Rattle.redis_client.specs.declared.topology.error.TopologyError.TheVariants.{Memory};

    ghost from_gives = { λ _ e. e ≡ Memory };

    fn from(_error: AllocError) -> TopologyError {
        TopologyError::Memory
    }
}

impl From<ParsingError> for TopologyError {
    ghost use Rattle.std.specs.Prelude.{◌≡◌};
    ghost use Rattle.redis_client.specs.Topology.Cause.{cause_of};

    ghost from_gives = { λ error e. e ≡ cause_of error };

    fn from(error: ParsingError) -> TopologyError {
        match error {
            ParsingError::Memory => TopologyError::Memory,
            _ => TopologyError::NotSlots,
        }
    }
}
