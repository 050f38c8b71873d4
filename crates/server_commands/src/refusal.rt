//! Why a command is refused.
ghost use Rattle.std.specs.Prelude.{◌≡◌, ◌≢◌, IfOk, OnOk};
ghost use Rattle.server_commands.specs.Refusal.{refusal_text};
ghost use Rattle.server_commands.specs.declared.refusal.Refusal.TheVariants.{Memory};

use std::alloc::{AllocError, AllocFailed, Global};

/// Why a command is refused.
#[derive(Drop)]
pub(crate) enum Refusal {
    /// An allocation failed.
    Memory,
    /// A constant text.
    Fixed(&'static str),
    /// A text with a part of what was sent.
    Text(Vec<u8>),
}

impl Refusal {
    /// Its text; an `Err` if an allocation failed, also that of the text.
    pub(crate) fn into_text(self, alloc: Global) -> Result<Vec<u8>, AllocError>
        ensures text { IfOk result (λ text. text.items ≡ refusal_text self) }
        ensures memory { OnOk result (self ≢ Memory) }
    {
        match self {
            Refusal::Memory => Err(AllocError),
            Refusal::Fixed(text) => Vec::from_slice(alloc, text.as_bytes()),
            Refusal::Text(text) => Ok(text),
        }
    }
}

impl From<AllocError> for Refusal {
    ghost use Rattle.std.specs.Prelude.{◌≡◌};
    ghost use Rattle.server_commands.specs.declared.refusal.Refusal.TheVariants.{Memory};

    ghost from_gives = { λ _ result. result ≡ Memory };

    fn from(_error: AllocError) -> Refusal {
        Refusal::Memory
    }
}

impl<T: Drop> From<AllocFailed<T>> for Refusal {
    ghost use Rattle.std.specs.Prelude.{◌≡◌};
    ghost use Rattle.server_commands.specs.declared.refusal.Refusal.TheVariants.{Memory};

    ghost from_gives = { λ _ result. result ≡ Memory };

    fn from(_error: AllocFailed<T>) -> Refusal {
        Refusal::Memory
    }
}
