//! The id argument of XADD.
ghost use Rattle.std.specs.Prelude.{◌≡◌, codes, Some};
ghost use Rattle.server_commands.specs.IdWords.{Fits};
ghost use Rattle.server_commands.specs.declared.commands.new_ids.NewId.TheVariants.{Automatic, Given};
ghost use Rattle.server_store.specs.EntryId.{id_text};
ghost use Rattle.server_store.specs.declared.entry_id.EntryId.{EntryId};

use super::id_words::{Sequence, parts_in};
use super::words::before_nul;
use server_store::EntryId;

/// The id argument of XADD.
#[derive(Clone, Copy)]
pub(super) enum NewId {
    /// `*`
    Automatic,
    /// `ms-*`
    Within(u64),
    /// `ms-seq` or `ms`
    Given(EntryId),
}

/// `*`, `ms-*`, `ms-seq` or `ms`.
pub(super) fn new_id(text: &[u8]) -> Option<NewId>
    ensures given { (id : EntryId) → Fits id → text.now ≡ id_text id → result ≡ Some (Given id) }
    ensures automatic { text.now ≡ codes "*" → result ≡ Some Automatic }
{
    if before_nul(text) == b"*".as_slice() {
        return Some(NewId::Automatic);
    }
    let (milliseconds, sequence) = parts_in(text)?;
    let sequence = match sequence {
        Sequence::Missing => 0,
        Sequence::Automatic => return Some(NewId::Within(milliseconds)),
        Sequence::Given(sequence) => sequence,
    };
    Some(NewId::Given(EntryId {
        milliseconds,
        sequence,
    }))
}
