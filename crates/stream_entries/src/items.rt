//! The items of a list of entries.
ghost use Rattle.std.specs.Prelude.{◌≡◌, ◌++◌, ◌∷◌, [], List, map, flat_map, Some, IfOk, IfErr, OnOk, option_map, string_bytes};
ghost use Rattle.redis_resp.specs.Refusal.{Refuses, OneRefused, RefusesList};
ghost use Rattle.redis_resp.specs.Tree.{single};
ghost use Rattle.stream_entries.specs.AutoClaim.{entries_by_kind, id_entries, ids as id_kind};
ghost use Rattle.stream_entries.specs.Entry.{Entry, entry_of};
ghost use Rattle.stream_entries.specs.EntryMeaning.{delivery_of, entries_of, row_of};
ghost use Rattle.stream_entries.specs.Read.{delivered_entry};
ghost use Rattle.stream_entries.specs.Refusal.{RefusesByKind, RefusesRows};
ghost use Rattle.stream_entries.specs.Rows.{entries_reading, items_entries, rows_reading};

use crate::item_form::{Ids, ItemForm, Rows};
use crate::stream_id::StreamId;
use indexmap::IndexMap;
use redis_resp::{Contents, ParsingError, Source, Value};
use std::alloc::{AllocError, Global};
use std::collections::HashMap;

/// An item of a list of entries. It holds none, one or several of them.
pub(crate) trait ListItem: Drop {
    /// The entries that it holds, in order.
    ghost entries: { Self → List Entry };

    /// Appends its entries. It fails only if it is out of memory.
    fn push_to(self, ids: &mut Vec<StreamId>) -> Result<(), AllocError>
        ensures { OnOk result (entries_of ids.new ≡ entries_of ids.old ++ entries self) };
}

/// A row: ids with their fields, each of which is an entry.
pub(crate) type Row = IndexMap<String, HashMap<String, Value>>;

impl ListItem for Row {
    ghost entries = { λ row. map entry_of (row_of row) };

    fn push_to(self, ids: &mut Vec<StreamId>) -> Result<(), AllocError> {
        for (id, map) in self {
            ids.push(StreamId {
                id,
                map,
                milliseconds_elapsed_from_delivery: None,
                delivered_count: None,
            })?;
        }
        Ok(())
    }
}

/// An id with its fields, the milliseconds since its last delivery and its delivery count: one entry.
pub(crate) type Delivery = (String, HashMap<String, Value>, Option<usize>, Option<usize>);

impl ListItem for Delivery {
    ghost entries = { λ d. delivered_entry (delivery_of d) ∷ [] };

    fn push_to(self, ids: &mut Vec<StreamId>) -> Result<(), AllocError> {
        let (id, map, milliseconds_elapsed_from_delivery, delivered_count) = self;
        ids.push(StreamId {
            id,
            map,
            milliseconds_elapsed_from_delivery,
            delivered_count,
        })?;
        Ok(())
    }
}

/// An id, which is an entry without fields, or no entry.
impl ListItem for Option<String> {
    ghost entries = { λ id. id_entries (option_map string_bytes id) };

    fn push_to(self, ids: &mut Vec<StreamId>) -> Result<(), AllocError> {
        let Some(id) = self else {
            return Ok(());
        };
        let alloc = *ids.allocator();
        ids.push(StreamId {
            id,
            map: HashMap::new(alloc),
            milliseconds_elapsed_from_delivery: None,
            delivered_count: None,
        })?;
        Ok(())
    }
}

/// Joins the entries of a list of items, in order. It fails only if it is out of memory.
pub(crate) fn join<T: ListItem>(alloc: Global, items: Vec<T>) -> Result<Vec<StreamId>, AllocError>
    ensures { IfOk result (λ ids. entries_of ids ≡ flat_map T.entries items.items) }
{
    let mut ids = Vec::with_capacity(alloc, items.len())?;
    for item in items {
        item.push_to(&mut ids)?;
    }
    Ok(ids)
}

/// Reads the entries of the items of a list. The result has capacity for one entry per item.
fn read_items<F: ItemForm, S: Source>(
    alloc: Global,
    mut values: S::Values,
) -> Result<Vec<StreamId>, ParsingError>
    ensures ok { IfOk result (λ ids. items_entries F.form (S.values_left values)
        ≡ Some (entries_of ids)) }
    ensures err { IfErr result (Refuses (items_entries F.form) (OneRefused F.refuses)
        (S.values_left values)) }
{
    let mut ids = Vec::with_capacity(alloc, S::count_values(&values))?;
    while let Some(item) = S::next_value(&mut values) {
        F::push(alloc, item, &mut ids)?;
    }
    Ok(ids)
}

/// Reads pairs. Each of them is read as an item that is a map of this one pair.
fn read_singles<F: ItemForm, S: Source>(
    alloc: Global,
    mut pairs: S::Pairs,
) -> Result<Vec<StreamId>, ParsingError>
    ensures ok { IfOk result (λ ids. items_entries F.form (map single (S.pairs_left pairs))
        ≡ Some (entries_of ids)) }
    ensures err { IfErr result (Refuses (items_entries F.form) (OneRefused F.refuses)
        (map single (S.pairs_left pairs))) }
{
    let mut ids = Vec::with_capacity(alloc, S::count_pairs(&pairs))?;
    while let Some((key, value)) = S::next_pair(&mut pairs) {
        F::push_single(alloc, key, value, &mut ids)?;
    }
    Ok(ids)
}

/// Reads the entries of a list of items of one form.
pub(crate) fn read_list_of<F: ItemForm, S: Source>(
    alloc: Global,
    v: S,
) -> Result<Vec<StreamId>, ParsingError>
    ensures ok { IfOk result (λ ids. entries_reading F.form (S.seen v) ≡ Some (entries_of ids)) }
    ensures err { IfErr result (Refuses (entries_reading F.form) (RefusesList F.refuses)
        (S.seen v)) }
{
    match v.into_contents() {
        Contents::Nothing => Ok(Vec::new(alloc)),
        Contents::Array(values) => read_items::<F, S>(alloc, values),
        Contents::Set(values) => read_items::<F, S>(alloc, values),
        Contents::Map(pairs) => read_singles::<F, S>(alloc, pairs),
        Contents::Other => Err(ParsingError::NotList),
    }
}

/// Reads the entries of a list of rows.
pub(crate) fn read_rows<S: Source>(alloc: Global, v: S) -> Result<Vec<StreamId>, ParsingError>
    ensures ok { IfOk result (λ ids. rows_reading (S.seen v) ≡ Some (entries_of ids)) }
    ensures err { IfErr result (Refuses rows_reading RefusesRows (S.seen v)) }
{
    read_list_of::<Rows, S>(alloc, v)
}

/// Reads the entries of a list of ids and nil.
pub(crate) fn read_ids<S: Source>(alloc: Global, v: S) -> Result<Vec<StreamId>, ParsingError>
    ensures ok { IfOk result (λ entries. entries_by_kind id_kind (S.seen v)
        ≡ Some (entries_of entries)) }
    ensures err { IfErr result (Refuses (entries_by_kind id_kind) (RefusesByKind id_kind)
        (S.seen v)) }
{
    read_list_of::<Ids, S>(alloc, v)
}
