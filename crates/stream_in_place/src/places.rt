//! The places of entries in the bytes of a reply, as plain numbers, and tables of such places.
ghost use Rattle.std.specs.Prelude.{◌≡◌, ◌∷◌, ◌++◌, [], suc, IfOk, IsOk, Option, length};
ghost use Rattle.stream_in_place.specs.Held.{Held, none_held};
ghost use Rattle.stream_in_place.specs.Lent.{Lent, StreamsFit, EntriesFit, FieldsFit};

use redis_wire::place::Span;

/// The place of a field.
#[repr(C)]
#[derive(Clone, Copy, Debug, PartialEq, Eq)]
pub struct FieldPlace {
    /// The name.
    pub name: Span,
    /// The value.
    pub value: Span,
}

/// The place of an entry, and the range of its fields.
#[repr(C)]
#[derive(Clone, Copy, Debug, PartialEq, Eq)]
pub struct EntryPlace {
    /// The id.
    pub id: Span,
    /// The index of its first field among all fields.
    pub from: usize,
    /// The index after its last field.
    pub to: usize,
    /// Whether the reply has nil in place of the fields, as servers send for an entry that was deleted.
    pub deleted: bool,
    /// Whether the reply has the time and the count of deliveries.
    pub delivered: bool,
    /// The milliseconds since it was last delivered, or 0 if the reply does not have them.
    pub elapsed: u64,
    /// The number of times it was delivered, or 0 if the reply does not have it.
    pub count: u64,
}

/// The place of a stream, and the range of its entries.
#[repr(C)]
#[derive(Clone, Copy, Debug, PartialEq, Eq)]
pub struct StreamPlace {
    /// The name.
    pub name: Span,
    /// The index of its first entry among all entries.
    pub from: usize,
    /// The index after its last entry.
    pub to: usize,
}

/// The place of a reply of XAUTOCLAIM: its next id, and the number of entries that were claimed. The
/// entries after those are the deleted ids, of which only `id` has a meaning.
#[repr(C)]
#[derive(Clone, Copy, Debug, PartialEq, Eq)]
pub struct AutoClaimPlace {
    /// The id from which the next XAUTOCLAIM continues.
    pub next: Span,
    /// The number of entries that were claimed.
    pub claimed: usize,
    /// The length of the reply in bytes.
    pub len: usize,
}

/// Tables for the places that are found in a reply: they grow, or are slices of the caller.
pub trait Places {
    /// Why a place was not added.
    type Refusal: Drop;

    /// The places in the tables, in order.
    ghost held: { Self → Held };

    /// The slices of the caller that are filled, if there are any.
    ghost lent: { Self → Option Lent };

    /// Removes all places.
    fn clear(&mut self)
        ensures holds { held self.new ≡ none_held }
        ensures kept { lent self.new ≡ lent self.old };

    /// Returns the number of streams.
    fn count_streams(&self) -> usize
        ensures { result ≡ length (held self.now).streams };

    /// Returns the number of entries.
    fn count_entries(&self) -> usize
        ensures { result ≡ length (held self.now).entries };

    /// Returns the number of fields.
    fn count_fields(&self) -> usize
        ensures { result ≡ length (held self.now).fields };

    /// Appends a field.
    fn push_field(&mut self, place: FieldPlace) -> Result<(), Self::Refusal>
        ensures holds { IfOk result (λ _. held self.new ≡ record (held self.old) {
          fields = (held self.old).fields ++ place ∷ [];
        }) }
        ensures kept { lent self.new ≡ lent self.old }
        ensures fits { FieldsFit (lent self.old) (suc (length (held self.old).fields)) → IsOk result };

    /// Appends an entry.
    fn push_entry(&mut self, place: EntryPlace) -> Result<(), Self::Refusal>
        ensures holds { IfOk result (λ _. held self.new ≡ record (held self.old) {
          entries = (held self.old).entries ++ place ∷ [];
        }) }
        ensures kept { lent self.new ≡ lent self.old }
        ensures fits { EntriesFit (lent self.old) (suc (length (held self.old).entries)) → IsOk result };

    /// Appends a stream.
    fn push_stream(&mut self, place: StreamPlace) -> Result<(), Self::Refusal>
        ensures holds { IfOk result (λ _. held self.new ≡ record (held self.old) {
          streams = (held self.old).streams ++ place ∷ [];
        }) }
        ensures kept { lent self.new ≡ lent self.old }
        ensures fits { StreamsFit (lent self.old) (suc (length (held self.old).streams)) → IsOk result };
}
