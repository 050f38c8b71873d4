//! Tables of places in slices of the caller.
ghost use Rattle.std.specs.Prelude.{◌≡◌, Some, length};
ghost use Rattle.stream_in_place.specs.Held.{none_held};

use crate::places::{EntryPlace, FieldPlace, Places, StreamPlace};

/// A table of fixed length is full.
#[derive(Clone, Copy, Debug, PartialEq, Eq)]
pub struct Full;

/// Tables of places in slices of the caller, for use without an allocator. Elements after the counts are
/// not read. Each slice has a lifetime of its own, so that a caller can state what each of them
/// holds in the end.
#[derive(Drop)]
pub struct EntryTables<'s, 'e, 'f> {
    streams: &'s mut [StreamPlace],
    entries: &'e mut [EntryPlace],
    fields: &'f mut [FieldPlace],
    stream_count: usize,
    entry_count: usize,
    field_count: usize,
}

impl<'s, 'e, 'f> EntryTables<'s, 'e, 'f> {
    /// Creates empty tables.
    pub fn new(
        streams: &'s mut [StreamPlace],
        entries: &'e mut [EntryPlace],
        fields: &'f mut [FieldPlace],
    ) -> EntryTables<'s, 'e, 'f>
        ensures none { ⟦<EntryTables<'s, 'e, 'f> as Places>⟧.held result ≡ none_held }
        ensures lent { ⟦<EntryTables<'s, 'e, 'f> as Places>⟧.lent result ≡ Some (record {
          streams = streams.entry.ghost_name;
          entries = entries.entry.ghost_name;
          fields = fields.entry.ghost_name;
          stream_room = length streams.old;
          entry_room = length entries.old;
          field_room = length fields.old;
        }) }
    {
        EntryTables {
            streams,
            entries,
            fields,
            stream_count: 0,
            entry_count: 0,
            field_count: 0,
        }
    }
}

impl<'s, 'e, 'f> Places for EntryTables<'s, 'e, 'f> {
    type Refusal = Full;

    ghost use Rattle.std.specs.Prelude.{take, length, Some};
    ghost use Rattle.stream_in_place.specs.Held.{Held};
    ghost use Rattle.stream_in_place.specs.Lent.{Lent};

    ghost held = { λ t. record {
      streams = take t.stream_count t.streams.now;
      entries = take t.entry_count t.entries.now;
      fields = take t.field_count t.fields.now;
    } };

    ghost lent = { λ t. Some (record {
      streams = t.streams.ghost_name;
      entries = t.entries.ghost_name;
      fields = t.fields.ghost_name;
      stream_room = length t.streams.now;
      entry_room = length t.entries.now;
      field_room = length t.fields.now;
    }) };

    fn clear(&mut self) {
        self.stream_count = 0;
        self.entry_count = 0;
        self.field_count = 0;
    }

    fn count_streams(&self) -> usize {
        usize::min(self.stream_count, self.streams.len())
    }

    fn count_entries(&self) -> usize {
        usize::min(self.entry_count, self.entries.len())
    }

    fn count_fields(&self) -> usize {
        usize::min(self.field_count, self.fields.len())
    }

    fn push_field(&mut self, place: FieldPlace) -> Result<(), Full> {
        if self.field_count >= self.fields.len() {
            return Err(Full);
        }
        self.fields[self.field_count] = place;
        self.field_count += 1;
        Ok(())
    }

    fn push_entry(&mut self, place: EntryPlace) -> Result<(), Full> {
        if self.entry_count >= self.entries.len() {
            return Err(Full);
        }
        self.entries[self.entry_count] = place;
        self.entry_count += 1;
        Ok(())
    }

    fn push_stream(&mut self, place: StreamPlace) -> Result<(), Full> {
        if self.stream_count >= self.streams.len() {
            return Err(Full);
        }
        self.streams[self.stream_count] = place;
        self.stream_count += 1;
        Ok(())
    }
}
