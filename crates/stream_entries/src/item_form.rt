//! Ways to read an item of a list of entries.
ghost use Rattle.std.specs.Prelude.{◌≡◌, ◌++◌, ◌∷◌, [], IfErr, List, OnOk, Option, Some, option_map};
ghost use Rattle.redis_resp.specs.Reading.{option_reading};
ghost use Rattle.redis_resp.specs.Refusal.{Refuses, MemoryOr, RefusesEntry};
ghost use Rattle.redis_resp.specs.Table.{entry_reading};
ghost use Rattle.redis_resp.specs.Text.{text_reading};
ghost use Rattle.redis_resp.specs.Tree.{Tree, single};
ghost use Rattle.redis_resp.specs.declared.value.error.ParsingError.{ParsingError};
ghost use Rattle.stream_entries.specs.AutoClaim.{id_entries};
ghost use Rattle.stream_entries.specs.Entry.{Entry, entry_of};
ghost use Rattle.stream_entries.specs.EntryMeaning.{entries_of};
ghost use Rattle.stream_entries.specs.Refusal.{RefusesFields, RefusesOptionalText, RefusesRow};
ghost use Rattle.stream_entries.specs.Rows.{appended, field_reading, row_reading, standard_entries};

use crate::items::{ListItem, Row};
use crate::one_pair::into_one_pair;
use crate::stream_id::StreamId;
use redis_resp::{ParsingError, Source, Value};
use std::alloc::Global;
use std::collections::HashMap;

/// A way to read an item of a list: it appends the entries that the item holds.
pub(crate) trait ItemForm {
    /// The entries that an item holds. `None` if it cannot be read.
    ghost form: { Tree → Option (List Entry) };

    /// The errors with which an item may be refused.
    ghost refuses: { Tree → ParsingError → Type 0 };

    /// Appends the entries of an item.
    fn push<S: Source>(alloc: Global, item: S, ids: &mut Vec<StreamId>) -> Result<(), ParsingError>
        ensures ok { OnOk result (appended (entries_of ids.old) (form (S.seen item))
            ≡ Some (entries_of ids.new)) }
        ensures err { IfErr result (Refuses form (MemoryOr refuses) (S.seen item)) };

    /// Appends the entries of an item that is the map of this one pair.
    fn push_single<S: Source>(
        alloc: Global,
        key: S,
        value: S,
        ids: &mut Vec<StreamId>,
    ) -> Result<(), ParsingError>
        ensures ok { OnOk result (appended (entries_of ids.old)
            (form (single (S.seen key, S.seen value))) ≡ Some (entries_of ids.new)) }
        ensures err { IfErr result (Refuses form (MemoryOr refuses)
            (single (S.seen key, S.seen value))) };
}

/// Rows of ids and fields.
pub(crate) struct Rows;

impl ItemForm for Rows {
    ghost form = { standard_entries };

    ghost refuses = { Refuses row_reading RefusesRow };

    fn push<S: Source>(
        alloc: Global,
        item: S,
        ids: &mut Vec<StreamId>,
    ) -> Result<(), ParsingError> {
        match into_one_pair(item) {
            Ok((key, value)) => push_entry(alloc, key, value, ids),
            Err(item) => push_table(alloc, item, ids),
        }
    }

    fn push_single<S: Source>(
        alloc: Global,
        key: S,
        value: S,
        ids: &mut Vec<StreamId>,
    ) -> Result<(), ParsingError> {
        push_entry(alloc, key, value, ids)
    }
}

/// Appends the entry of an id and its fields.
fn push_entry<S: Source>(
    alloc: Global,
    key: S,
    value: S,
    ids: &mut Vec<StreamId>,
) -> Result<(), ParsingError>
    ensures ok { OnOk result (option_map (λ p. entries_of ids.old ++ entry_of p ∷ [])
        (entry_reading field_reading (S.seen key, S.seen value)) ≡ Some (entries_of ids.new)) }
    ensures err { IfErr result (Refuses (entry_reading field_reading)
        (MemoryOr (RefusesEntry (Refuses field_reading RefusesFields)))
        (S.seen key, S.seen value)) }
{
    let id: String = key.read(alloc)?;
    let map: HashMap<String, Value> = value.read(alloc)?;
    ids.push(StreamId {
        id,
        map,
        milliseconds_elapsed_from_delivery: None,
        delivered_count: None,
    })?;
    Ok(())
}

/// Appends the entries of a row of any number of pairs. Pairs with equal ids are one entry.
fn push_table<S: Source>(alloc: Global, row: S, ids: &mut Vec<StreamId>) -> Result<(), ParsingError>
    ensures ok { OnOk result (appended (entries_of ids.old) (standard_entries (S.seen row))
        ≡ Some (entries_of ids.new)) }
    ensures err { IfErr result (Refuses standard_entries
        (MemoryOr (Refuses row_reading RefusesRow)) (S.seen row)) }
{
    let row: Row = row.read(alloc)?;
    row.push_to(ids)?;
    Ok(())
}

/// Ids, each an entry without fields. Nil is no entry.
pub(crate) struct Ids;

impl ItemForm for Ids {
    ghost form = { λ t. option_map id_entries (option_reading text_reading t) };

    ghost refuses = { RefusesOptionalText };

    fn push<S: Source>(
        alloc: Global,
        item: S,
        ids: &mut Vec<StreamId>,
    ) -> Result<(), ParsingError> {
        let id: Option<String> = item.read(alloc)?;
        id.push_to(ids)?;
        Ok(())
    }

    fn push_single<S: Source>(
        _alloc: Global,
        _key: S,
        _value: S,
        _ids: &mut Vec<StreamId>,
    ) -> Result<(), ParsingError> {
        Err(ParsingError::NotText)
    }
}
