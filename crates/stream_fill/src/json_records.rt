//! Lines of JSON as records.
ghost use Rattle.std.specs.Prelude.{◌≡◌, Some, IfErr, IfOk, option_map};
ghost use Rattle.base64.specs.Engines as named;
ghost use Rattle.base64.specs.GeneralPurpose.{decoded_of};
ghost use Rattle.json.specs.Find.{as_array};
ghost use Rattle.json.specs.Value.{items_view, members_view, value_view};
ghost use Rattle.stream_fill.specs.JsonRecord.{IsNoRecord, IsNoText, IsNoValue, decoded, field_of_member, field_of_pair, fields_of_members, fields_of_object, fields_of_pairs, fields_of_value, is_id, pairs_of, reason_of, record_of_line, text_of, value_of_line};
ghost use Rattle.worker_producer.specs.Records.{field_of, fields_of};

use base64::DecodeAllocError;
use base64::engine::general_purpose::STANDARD;
use json::{Scratch, Value};
use std::alloc::{AllocError, AllocFailed, Global};
use thiserror::Error;
use worker_producer::{Field, Record};

/// Why a line is not a record.
#[derive(Clone, Copy, Debug, Error)]
pub enum NoRecord {
    #[error("is no JSON")]
    NoJson,
    #[error("is no object of texts")]
    NoTexts,
    #[error("has no field")]
    NoField,
    #[error("needs more memory than there is")]
    Memory,
}

impl From<AllocError> for NoRecord {
    ghost use Rattle.std.specs.Prelude.{◌≡◌};
    ghost use Rattle.stream_fill.specs.declared.json_records.NoRecord.TheVariants as causes;

    ghost from_gives = { λ _ e. e ≡ causes.Memory };

    fn from(_error: AllocError) -> NoRecord {
        NoRecord::Memory
    }
}

impl<T: Drop> From<AllocFailed<T>> for NoRecord {
    ghost use Rattle.std.specs.Prelude.{◌≡◌};
    ghost use Rattle.stream_fill.specs.declared.json_records.NoRecord.TheVariants as causes;

    ghost from_gives = { λ _ e. e ≡ causes.Memory };

    fn from(_error: AllocFailed<T>) -> NoRecord {
        NoRecord::Memory
    }
}

/// Parses the record of a line. The line is an object of texts, `{"name":"value",..}`, or a line of
/// `stream_drain`, `{"id":"1-0","fields":[["name","value"],..]}`, whose id is ignored. A text is a string or,
/// if it is not UTF-8, `{"base64":".."}`.
pub fn record_of_json(alloc: Global, scratch: &mut Scratch, line: &[u8]) -> Result<Record, NoRecord>
    ensures ok { IfOk result (λ r. record_of_line line.now ≡ Some (fields_of r)) }
    ensures err { IfErr result (IsNoRecord line.now) }
{
    let value = parse_line(alloc, scratch, line)?;
    let record = parse_value(alloc, &value)?;
    if record.is_empty() {
        return Err(NoRecord::NoField);
    }
    Ok(record)
}

/// Parses the JSON value of a line.
fn parse_line<'a>(
    alloc: Global,
    scratch: &'a mut Scratch,
    line: &'a [u8],
) -> Result<Value<'a>, NoRecord>
    ensures ok { IfOk result (λ value. value_of_line line.now ≡ Some (value_view value)) }
    ensures err { IfErr result (IsNoValue line.now) }
{
    match Value::from_slice(alloc, line, scratch) {
        Ok(value) => Ok(value),
        Err(error) => Err(explain_error(error)),
    }
}

/// Returns why a line is not a JSON value.
fn explain_error(error: json::Error) -> NoRecord
    ensures { result ≡ reason_of error }
{
    match error {
        json::Error::OutOfMemory => NoRecord::Memory,
        json::Error::Invalid | json::Error::TooLong | json::Error::DuplicateKey => NoRecord::NoJson,
    }
}

/// Returns the record of a JSON value.
fn parse_value(alloc: Global, value: &Value<'_>) -> Result<Record, NoRecord>
    ensures ok { IfOk result (λ r. fields_of_value (value_view value.now) ≡ Some (fields_of r)) }
    ensures err { IfErr result (IsNoText (fields_of_value (value_view value.now))) }
{
    match value {
        Value::Object(members) => parse_object(alloc, members),
        _ => Err(NoRecord::NoTexts),
    }
}

/// Returns the record of an object. The object is a line of `stream_drain`, or has one field for each member.
fn parse_object(alloc: Global, members: &[(&str, Value<'_>)]) -> Result<Record, NoRecord>
    ensures ok { IfOk result (λ r. fields_of_object (members_view members.now) ≡ Some (fields_of r)) }
    ensures err { IfErr result (IsNoText (fields_of_object (members_view members.now))) }
{
    match find_pairs(members) {
        Some(pairs) => parse_pairs(alloc, pairs),
        None => parse_members(alloc, members),
    }
}

/// Returns the pairs of a line of `stream_drain`, or `None` if the members are not those of such a line.
fn find_pairs<'m, 'a>(members: &'m [(&str, Value<'a>)]) -> Option<&'m [Value<'a>]>
    ensures { option_map (λ pairs. items_view pairs.now) result ≡ pairs_of (members_view members.now) }
{
    let [id, fields] = members else {
        return None;
    };
    if !is_id(id) {
        return None;
    }
    if fields.0 != "fields" {
        return None;
    }
    find_items(&fields.1)
}

/// Returns the items of an array, or `None` if the value is not an array.
fn find_items<'m, 'a>(value: &'m Value<'a>) -> Option<&'m [Value<'a>]>
    ensures { option_map (λ items. items_view items.now) result ≡ as_array (value_view value.now) }
{
    match value {
        Value::Array(items) => Some(items.as_slice()),
        _ => None,
    }
}

/// Whether the member is the id of a line of `stream_drain`.
fn is_id(member: &(&str, Value<'_>)) -> bool
    ensures { result ≡ is_id member.now.0.now (value_view member.now.1) }
{
    member.0 == "id" && matches!(&member.1, Value::String(_))
}

/// Returns the record with one field for each pair.
fn parse_pairs(alloc: Global, pairs: &[Value<'_>]) -> Result<Record, NoRecord>
    ensures ok { IfOk result (λ r. fields_of_pairs (items_view pairs.now) ≡ Some (fields_of r)) }
    ensures err { IfErr result (IsNoText (fields_of_pairs (items_view pairs.now))) }
{
    let mut record = Vec::new(alloc);
    for pair in pairs {
        record.push(parse_pair(alloc, pair)?)?;
    }
    Ok(record)
}

/// Returns the field of an array with a name and a value.
fn parse_pair(alloc: Global, pair: &Value<'_>) -> Result<Field, NoRecord>
    ensures ok { IfOk result (λ f. field_of_pair (value_view pair.now) ≡ Some (field_of f)) }
    ensures err { IfErr result (IsNoText (field_of_pair (value_view pair.now))) }
{
    let Value::Array(texts) = pair else {
        return Err(NoRecord::NoTexts);
    };
    match texts.as_slice() {
        [name, value] => Ok((parse_text(alloc, name)?, parse_text(alloc, value)?)),
        _ => Err(NoRecord::NoTexts),
    }
}

/// Returns the record with one field for each member.
fn parse_members(alloc: Global, members: &[(&str, Value<'_>)]) -> Result<Record, NoRecord>
    ensures ok { IfOk result (λ r. fields_of_members (members_view members.now) ≡ Some (fields_of r)) }
    ensures err { IfErr result (IsNoText (fields_of_members (members_view members.now))) }
{
    let mut record = Vec::new(alloc);
    for member in members {
        record.push(parse_member(alloc, member)?)?;
    }
    Ok(record)
}

/// Returns the field of a member: the name and the text.
fn parse_member(alloc: Global, member: &(&str, Value<'_>)) -> Result<Field, NoRecord>
    ensures ok { IfOk result (λ f. field_of_member member.now.0.now (value_view member.now.1) ≡ Some (field_of f)) }
    ensures err { IfErr result (IsNoText (field_of_member member.now.0.now (value_view member.now.1))) }
{
    let name = Vec::from_slice(alloc, member.0.as_bytes())?;
    Ok((name, parse_text(alloc, &member.1)?))
}

/// Returns the bytes of a text. A text is a string, or an object with Base64.
fn parse_text(alloc: Global, value: &Value<'_>) -> Result<Vec<u8>, NoRecord>
    ensures ok { IfOk result (λ bytes. text_of (value_view value.now) ≡ Some bytes.items) }
    ensures err { IfErr result (IsNoText (text_of (value_view value.now))) }
{
    match value {
        Value::String(text) => Ok(Vec::from_slice(alloc, text.as_bytes())?),
        Value::Object(members) => match members.as_slice() {
            [member] => decode_member(alloc, member),
            _ => Err(NoRecord::NoTexts),
        },
        _ => Err(NoRecord::NoTexts),
    }
}

/// Decodes the value of the member `base64`.
fn decode_member(alloc: Global, member: &(&str, Value<'_>)) -> Result<Vec<u8>, NoRecord>
    ensures ok { IfOk result (λ bytes. decoded member.now.0.now (value_view member.now.1) ≡ Some bytes.items) }
    ensures err { IfErr result (IsNoText (decoded member.now.0.now (value_view member.now.1))) }
{
    match &member.1 {
        Value::String(text) => {
            if member.0 == "base64" {
                decode_base64(alloc, text)
            } else {
                Err(NoRecord::NoTexts)
            }
        }
        _ => Err(NoRecord::NoTexts),
    }
}

/// Decodes Base64.
#[tactic(auto, unfolding(base64::specs::GeneralPurpose::decoded_of))]
fn decode_base64(alloc: Global, text: &str) -> Result<Vec<u8>, NoRecord>
    ensures ok { IfOk result (λ bytes. decoded_of named.standard text.now ≡ Some bytes.items) }
    ensures err { IfErr result (IsNoText (decoded_of named.standard text.now)) }
{
    match STANDARD.decode(alloc, text.as_bytes()) {
        Ok(bytes) => Ok(bytes),
        Err(DecodeAllocError::OutOfMemory) => Err(NoRecord::Memory),
        Err(DecodeAllocError::DecodeError(_)) => Err(NoRecord::NoTexts),
    }
}
