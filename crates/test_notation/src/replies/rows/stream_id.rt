//! Entries of streams.
ghost use Rattle.std.specs.Prelude.{◌≡◌, [], ◌++◌, IfOk, OnOk, map, string_bytes};
ghost use Rattle.test_notation.specs.Entry.{pair_of, pairs_of, put_all, entry_form, field_form, fields_form, value_form};

use crate::form::{PrintedForm, print_joined};
use redis_resp::{FromRedisValue, ParsingError, Value};
use redis_streams::StreamId;
use std::alloc::{AllocError, Global};
use std::collections::{BTreeMap, HashMap};

/// The id, the fields in the order of their names' bytes, and the two numbers if they are known.
impl PrintedForm for StreamId {
    ghost form = { entry_form };

    #[tactic(auto, unfolding(crate::specs::Entry::entry_form))]
    fn print(&self, alloc: Global, line: &mut String) -> Result<(), AllocError> {
        write!(line, "{}(", self.id)?;
        print_fields(alloc, &self.map, line)?;
        line.push_str(")")?;
        if let Some(elapsed) = self.milliseconds_elapsed_from_delivery {
            write!(line, "@{elapsed}")?;
        }
        if let Some(count) = self.delivered_count {
            write!(line, "#{count}")?;
        }
        Ok(())
    }
}

/// A field of an entry.
#[derive(Drop)]
struct Field<'a> {
    name: &'a str,
    value: &'a Value,
}

/// The name, an equals sign, and the value as a text.
impl PrintedForm for Field<'_> {
    ghost form = { field_form };

    fn print(&self, alloc: Global, line: &mut String) -> Result<(), AllocError> {
        write!(line, "{}=", self.name)?;
        print_value(alloc, self.value, line)
    }
}

/// Appends the text of a value, or a question mark if it is not a text.
pub(crate) fn print_value(alloc: Global, value: &Value, line: &mut String) -> Result<(), AllocError>
    ensures { OnOk result (string_bytes line.new ≡ string_bytes line.old ++ value_form value.now) }
{
    match String::from_redis_value_ref(alloc, value) {
        Ok(text) => line.push_str(&text),
        Err(ParsingError::Memory) => Err(AllocError),
        Err(_) => line.push_str("?"),
    }
}

/// Returns the fields of a map, in the order of their names' bytes.
fn sorted<'a>(
    alloc: Global,
    map: &'a HashMap<String, Value>,
) -> Result<BTreeMap<&'a str, &'a Value>, AllocError>
    ensures { IfOk result (λ fields. pairs_of fields.entries ≡ put_all [] map.now.entries) }
{
    let mut fields = BTreeMap::new(alloc);
    for (name, value) in map {
        fields.insert(name.as_str(), value)?;
    }
    Ok(fields)
}

/// Returns the fields of a map that is sorted, in its order.
fn fields_in<'a>(
    alloc: Global,
    sorted: &BTreeMap<&'a str, &'a Value>,
) -> Result<Vec<Field<'a>>, AllocError>
    ensures { IfOk result (λ fields. map pair_of fields.items ≡ pairs_of sorted.now.entries) }
{
    let mut fields = Vec::with_capacity(alloc, sorted.len())?;
    for (name, value) in sorted {
        fields.push(Field { name, value })?;
    }
    Ok(fields)
}

/// Appends the fields, in the order of their names' bytes, with a comma between each two.
#[tactic(auto, using(crate::proofs::FormLemmas::join_by_map))]
fn print_fields(
    alloc: Global,
    map: &HashMap<String, Value>,
    line: &mut String,
) -> Result<(), AllocError>
    ensures { OnOk result (string_bytes line.new
        ≡ string_bytes line.old ++ fields_form map.now.entries) }
{
    let sorted = sorted(alloc, map)?;
    print_joined(alloc, &fields_in(alloc, &sorted)?, ",", line)
}
