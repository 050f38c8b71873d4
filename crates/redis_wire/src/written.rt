//! Values as bytes.
ghost use Rattle.std.specs.Prelude.{◌≡◌, ◌≤◌, ◌++◌, ◌*◌, OnOk, map, string_bytes};
ghost use Rattle.std.specs.List.{list_all};
ghost use Rattle.redis_resp.specs.Tree.{trees, pairs};
ghost use Rattle.redis_resp.specs.Value.{tree, tree_of_pair};
ghost use Rattle.redis_wire.specs.Reading.{is_inner};
ghost use Rattle.redis_wire.specs.Written.{line_bytes, count_bytes, nil_bytes, text_bytes};
ghost use Rattle.redis_wire.specs.Written.{boolean_bytes, verbatim_bytes, set_head, map_head};
ghost use Rattle.redis_wire.specs.Written.{attributes_bytes, tree_bytes, trees_bytes, pairs_bytes};
ghost use Rattle.redis_wire.specs.Written.{pair_count};

use crate::command::push_bulk;
use itoa::Buffer;
use redis_resp::Value;
use std::alloc::AllocError;

/// A version of the protocol, which a client chooses with `HELLO`.
#[derive(Clone, Copy, Debug, PartialEq, Eq)]
pub enum Protocol {
    /// `HELLO 2`, and the protocol before any `HELLO`.
    Resp2,
    /// `HELLO 3`.
    Resp3,
}

/// Appends a first byte, a line and CR LF.
pub fn push_line(out: &mut Vec<u8>, mark: u8, line: &[u8]) -> Result<(), AllocError>
    ensures { OnOk result (out.new.items ≡ out.old.items ++ line_bytes mark line.now) }
{
    out.push(mark)?;
    out.extend_from_slice(line)?;
    out.extend_from_slice(b"\r\n")?;
    Ok(())
}

/// Appends a first byte and a length or count.
pub fn push_count(out: &mut Vec<u8>, mark: u8, count: usize) -> Result<(), AllocError>
    ensures { OnOk result (out.new.items ≡ out.old.items ++ count_bytes mark count) }
{
    push_line(out, mark, Buffer::new().format::<usize>(count).as_bytes())
}

/// Appends a null.
fn push_nil(out: &mut Vec<u8>, protocol: Protocol) -> Result<(), AllocError>
    ensures { OnOk result (out.new.items ≡ out.old.items ++ nil_bytes protocol) }
{
    match protocol {
        Protocol::Resp2 => push_line(out, b'$', b"-1"),
        Protocol::Resp3 => push_line(out, b'_', b""),
    }
}

/// Whether a text contains neither CR nor LF.
pub fn is_one_line(text: &[u8]) -> bool
    ensures { result ≡ list_all is_inner text.now }
{
    text.iter().all(|byte| !(*byte == b'\r' || *byte == b'\n'))
}

/// Appends a short text, as a bulk string if it contains CR or LF.
#[tactic(auto, unfolding(crate::specs::Written::text_bytes))]
pub fn push_text(out: &mut Vec<u8>, text: &[u8]) -> Result<(), AllocError>
    ensures { OnOk result (out.new.items ≡ out.old.items ++ text_bytes text.now) }
{
    if is_one_line(text) {
        push_line(out, b'+', text)
    } else {
        push_bulk(out, text)
    }
}

/// Appends a boolean.
fn push_boolean(out: &mut Vec<u8>, protocol: Protocol, is_true: bool) -> Result<(), AllocError>
    ensures { OnOk result (out.new.items ≡ out.old.items ++ boolean_bytes protocol is_true) }
{
    match (protocol, is_true) {
        (Protocol::Resp2, true) => push_line(out, b':', b"1"),
        (Protocol::Resp2, false) => push_line(out, b':', b"0"),
        (Protocol::Resp3, true) => push_line(out, b'#', b"t"),
        (Protocol::Resp3, false) => push_line(out, b'#', b"f"),
    }
}

/// Appends a verbatim string; a bulk string in RESP2, or if the format has not three bytes.
#[tactic(auto, unfolding(crate::specs::Written::verbatim_bytes))]
fn push_verbatim(
    out: &mut Vec<u8>,
    protocol: Protocol,
    format: &[u8],
    text: &[u8],
) -> Result<(), AllocError>
    ensures { OnOk result (out.new.items
        ≡ out.old.items ++ verbatim_bytes protocol format.now text.now) }
{
    if protocol == Protocol::Resp2 || format.len() != 3 {
        return push_bulk(out, text);
    }
    push_count(out, b'=', text.len().saturating_add(4))?;
    out.extend_from_slice(format)?;
    out.push(b':')?;
    out.extend_from_slice(text)?;
    out.extend_from_slice(b"\r\n")?;
    Ok(())
}

/// Appends the header of a set.
fn push_set_head(out: &mut Vec<u8>, protocol: Protocol, count: usize) -> Result<(), AllocError>
    ensures { OnOk result (out.new.items ≡ out.old.items ++ set_head protocol count) }
{
    match protocol {
        Protocol::Resp2 => push_count(out, b'*', count),
        Protocol::Resp3 => push_count(out, b'~', count),
    }
}

/// Appends the header of a map.
fn push_map_head(out: &mut Vec<u8>, protocol: Protocol, count: usize) -> Result<(), AllocError>
    requires { 2 * count ≤ usize.MAX }
    ensures { OnOk result (out.new.items ≡ out.old.items ++ map_head protocol count) }
{
    match protocol {
        Protocol::Resp2 => push_count(out, b'*', 2 * count),
        Protocol::Resp3 => push_count(out, b'%', count),
    }
}

/// Appends a value.
#[cycle(written)]
pub fn push_value(out: &mut Vec<u8>, protocol: Protocol, value: &Value) -> Result<(), AllocError>
    ensures { OnOk result (out.new.items ≡ out.old.items ++ tree_bytes protocol (tree value.now)) }
{
    match value {
        Value::Nil => push_nil(out, protocol),
        Value::Int(n) => push_line(out, b':', Buffer::new().format::<i64>(*n).as_bytes()),
        Value::BulkString(bytes) => push_bulk(out, bytes),
        Value::Array(values) => {
            push_count(out, b'*', values.len())?;
            push_values(out, protocol, values)
        }
        Value::SimpleString(text) => push_text(out, text.as_bytes()),
        Value::Okay => push_line(out, b'+', b"OK"),
        Value::Map(entries) => {
            push_map_head(out, protocol, entries.len())?;
            push_pairs(out, protocol, entries)
        }
        Value::Attribute {
            payload,
            attributes,
        } => {
            push_attributes(out, protocol, attributes)?;
            push_value(out, protocol, payload)
        }
        Value::Set(values) => {
            push_set_head(out, protocol, values.len())?;
            push_values(out, protocol, values)
        }
        Value::Boolean(is_true) => push_boolean(out, protocol, *is_true),
        Value::VerbatimString { format, text } => {
            push_verbatim(out, protocol, format.as_bytes(), text.as_bytes())
        }
        Value::Push { kind, payload } => {
            push_count(out, b'*', payload.len() + 1)?;
            push_bulk(out, kind.as_bytes())?;
            push_values(out, protocol, payload)
        }
    }
}

/// Appends values one after the other.
#[cycle(written)]
pub fn push_values(
    out: &mut Vec<u8>,
    protocol: Protocol,
    values: &Vec<Value>,
) -> Result<(), AllocError>
    ensures { OnOk result (out.new.items
        ≡ out.old.items ++ trees_bytes protocol (trees (map tree values.now.items))) }
{
    for value in values {
        push_value(out, protocol, value)?;
    }
    Ok(())
}

/// Appends keys and values, in turn.
#[cycle(written)]
fn push_pairs(
    out: &mut Vec<u8>,
    protocol: Protocol,
    entries: &Vec<(Value, Value)>,
) -> Result<(), AllocError>
    ensures { OnOk result (out.new.items
        ≡ out.old.items ++ pairs_bytes protocol (pairs (map tree_of_pair entries.now.items))) }
{
    for (key, value) in entries {
        push_value(out, protocol, key)?;
        push_value(out, protocol, value)?;
    }
    Ok(())
}

/// Appends attributes, which RESP2 leaves out.
#[cycle(written)]
fn push_attributes(
    out: &mut Vec<u8>,
    protocol: Protocol,
    attributes: &Vec<(Value, Value)>,
) -> Result<(), AllocError>
    ensures { OnOk result (out.new.items ≡ out.old.items ++ attributes_bytes protocol
        (pair_count (pairs (map tree_of_pair attributes.now.items)))
        (pairs_bytes protocol (pairs (map tree_of_pair attributes.now.items)))) }
{
    match protocol {
        Protocol::Resp2 => Ok(()),
        Protocol::Resp3 => {
            push_count(out, b'|', attributes.len())?;
            push_pairs(out, protocol, attributes)
        }
    }
}
