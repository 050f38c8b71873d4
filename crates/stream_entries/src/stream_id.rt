//! An entry of a stream.
ghost use Rattle.std.specs.Prelude.{◌≡◌, ◌↔◌, IfOk, IsOk, IsTrue, OnErr, OnOk, map, option_map, string_bytes};
ghost use Rattle.std.specs.FinMap as fin;
ghost use Rattle.redis_resp.specs.Value.{tree};
ghost use Rattle.redis_resp.specs.Table.{field_record};
ghost use Rattle.stream_entries.specs.Entry.{empty_entry};
ghost use Rattle.redis_resp.specs.FieldsMeaning.{fields_of};
ghost use Rattle.stream_entries.specs.EntryMeaning.{entries_of, entry_meaning};
ghost use Rattle.redis_resp.specs.Refusal.{RefusesField};
ghost use Rattle.stream_entries.specs.SameEntryMeaning.{same_entry};

use redis_resp::{FromRedisValue, ParsingError, Value, field_of};
use std::alloc::{AllocError, Global};
use std::collections::HashMap;

/// An entry of a stream in a reply of XRANGE, XREAD, XREADGROUP, XCLAIM or XAUTOCLAIM: its id and
/// its fields.
#[derive(Debug, Drop)]
pub struct StreamId {
    /// The id, such as `1526919030474-55`.
    pub id: String,
    /// The fields by name, each value as the server sent it.
    pub map: HashMap<String, Value>,
    /// The milliseconds since it was last delivered, which XREADGROUP with `CLAIM` returns.
    pub milliseconds_elapsed_from_delivery: Option<usize>,
    /// The number of times it was delivered, which XREADGROUP with `CLAIM` returns.
    pub delivered_count: Option<usize>,
}

impl StreamId {
    /// Creates an empty entry, without a delivery. It allocates nothing and is always Ok.
    pub fn empty(alloc: Global) -> Result<StreamId, AllocError>
        ensures ok { IsOk result }
        ensures entry { IfOk result (λ s. entry_meaning s ≡ empty_entry) }
    {
        Ok(StreamId {
            id: String::new(alloc),
            map: HashMap::new(alloc),
            milliseconds_elapsed_from_delivery: None,
            delivered_count: None,
        })
    }

    /// Reads the field of this name as a record of the type. `None` if there is no such field, or it cannot
    /// be read as the type. It fails only if there is such a field, and reading it is out of
    /// memory.
    pub fn get<T: FromRedisValue>(&self, alloc: Global, key: &str) -> Result<Option<T>, AllocError>
        ensures record { IfOk result (λ r. option_map T.meaning r
            ≡ field_record T.reading (fields_of self.now.map) key.now) }
        ensures memory { OnErr result (RefusesField T.may_refuse
            (fin.get (fields_of self.now.map) key.now) ParsingError.Memory) }
    {
        field_of(alloc, &self.map, key)
    }

    /// Whether there is a field of this name, whatever its value.
    #[tactic(auto, using(crate::proofs::FieldsLemmas::contains_field))]
    pub fn contains_key(&self, key: &str) -> bool
        ensures { result ≡ fin.contains_key (fields_of self.now.map) key.now }
    {
        self.map.contains_key(key)
    }

    /// Returns the number of fields.
    #[tactic(auto, using(crate::proofs::FieldsLemmas::count_fields))]
    pub fn len(&self) -> usize
        ensures { result ≡ fin.len (fields_of self.now.map) }
    {
        self.map.len()
    }

    /// Whether there are no fields.
    pub fn is_empty(&self) -> bool
        ensures { IsTrue result ↔ (fin.len (fields_of self.now.map) ≡ 0) }
    {
        self.len() == 0
    }

    /// Copies the entry. It fails only if it is out of memory.
    pub fn try_clone(&self, alloc: Global) -> Result<StreamId, AllocError>
        ensures { IfOk result (λ s. entry_meaning s ≡ entry_meaning self.now) }
    {
        Ok(StreamId {
            id: String::from_str(alloc, &self.id)?,
            map: copy_fields(alloc, &self.map)?,
            milliseconds_elapsed_from_delivery: self.milliseconds_elapsed_from_delivery,
            delivered_count: self.delivered_count,
        })
    }
}

/// Two entries are equal if they have equal ids, the same fields as a finite map and the same delivery.
impl PartialEq for StreamId {
    ghost use Rattle.std.specs.Cmp.{partial_equiv_from_equiv};
    ghost use Rattle.stream_entries.specs.SameEntryLaws.{same_entry_laws};

    ghost eq = { same_entry };

    ghost laws = { partial_equiv_from_equiv same_entry_laws };

    /// Whether the two are the same entry. The order of their fields does not matter.
    #[tactic(auto, using(crate::specs::SameEntryLaws::same_entry_Decides))]
    fn eq(&self, other: &StreamId) -> bool
        ensures by_parts { result ≡ same_entry self.now other.now }
        ensures equal_entries { IsTrue result ↔ (entry_meaning self.now ≡ entry_meaning other.now) }
    {
        are_alike(self, other)
    }
}

impl Eq for StreamId {
    ghost use Rattle.stream_entries.specs.SameEntryLaws.{same_entry_laws};

    ghost laws = { same_entry_laws };
}

fn are_alike(a: &StreamId, b: &StreamId) -> bool
    ensures { result ≡ same_entry a.now b.now }
{
    a.id == b.id
        && a.map == b.map
        && a.milliseconds_elapsed_from_delivery == b.milliseconds_elapsed_from_delivery
        && a.delivered_count == b.delivered_count
}

/// Copies the fields. It fails only if it is out of memory.
fn copy_fields(
    alloc: Global,
    fields: &HashMap<String, Value>,
) -> Result<HashMap<String, Value>, AllocError>
    ensures { IfOk result (λ m. fields_of m ≡ fields_of fields.now) }
{
    let mut copies = HashMap::new(alloc);
    for (name, value) in fields {
        put_copy(alloc, &mut copies, name, value)?;
    }
    Ok(copies)
}

/// Inserts a copy of a field. It fails only if it is out of memory.
#[tactic(auto, using(crate::proofs::FieldsLemmas::fields_put))]
fn put_copy(
    alloc: Global,
    copies: &mut HashMap<String, Value>,
    name: &String,
    value: &Value,
) -> Result<(), AllocError>
    ensures { OnOk result (fields_of copies.new
        ≡ fin.insert (fields_of copies.old) (string_bytes name.now) (tree value.now)) }
{
    let name = String::from_str(alloc, name)?;
    let value = value.try_clone(alloc)?;
    copies.insert(name, value)?;
    Ok(())
}

/// Copies the entries, in order. It fails only if it is out of memory.
pub(crate) fn copy_entries(alloc: Global, entries: &[StreamId]) -> Result<Vec<StreamId>, AllocError>
    ensures { IfOk result (λ v. entries_of v ≡ map entry_meaning entries.now) }
{
    let mut copies = Vec::with_capacity(alloc, entries.len())?;
    for entry in entries {
        copies.push(entry.try_clone(alloc)?)?;
    }
    Ok(copies)
}
