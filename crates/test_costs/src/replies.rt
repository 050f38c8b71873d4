//! The replies that are read.
ghost use Rattle.std.specs.Prelude.{◌≡◌, [], ◌∷◌, IfOk, map, string_bytes};
ghost use Rattle.redis_resp.specs.Tree.{bulk};
ghost use Rattle.redis_resp.specs.Value.{tree};
ghost use Rattle.test_costs.specs.Below.{below};
ghost use Rattle.test_costs.specs.Replies.{field_trees, fields_tree, id_tree, pair_trees, reply_tree, row_tree, row_trees, stream_tree, claimed_tree};

use crate::job::Operation;
use redis_resp::Value;
use std::alloc::{AllocError, Global};

/// The kind of the rows of a reply.
#[derive(Clone, Copy, Debug)]
enum Row {
    /// An entry with this number of fields, as XRANGE returns it.
    Entry(usize),
    /// An entry with this number of fields, its idle time and its deliveries, as XREADGROUP returns it with
    /// CLAIM.
    Claimed(usize),
    /// An id, as XAUTOCLAIM returns it with JUSTID.
    Id,
    /// A pending entry, as XPENDING returns it with a count.
    Waiting,
}

fn text(text: String) -> Value
    ensures { tree result ≡ bulk (string_bytes text) }
{
    Value::BulkString(text.into_bytes())
}

fn id(alloc: Global, index: usize) -> Result<Value, AllocError>
    ensures { IfOk result (λ v. tree v ≡ id_tree index) }
{
    Ok(text(format!(in alloc; "17134655{index:05}-0")?))
}

#[tactic(auto, using(crate::proofs::BelowLemmas::below_none))]
fn fields(alloc: Global, index: usize, count: usize) -> Result<Value, AllocError>
    ensures { IfOk result (λ v. tree v ≡ fields_tree index count) }
{
    let mut items = Vec::new(alloc);
    for field in 0..count {
        items.push(text(format!(in alloc; "field-{field}")?))?;
        items.push(text(format!(in alloc; "value-{index}-{field}")?))?;
    }
    Ok(Value::Array(items))
}

fn make_row(alloc: Global, row: Row, index: usize) -> Result<Value, AllocError>
    ensures { IfOk result (λ v. tree v ≡ row_tree row index) }
{
    let id = id(alloc, index)?;
    let items = match row {
        Row::Id => return Ok(id),
        Row::Entry(count) => vec![in alloc; id, fields(alloc, index, count)?]?,
        Row::Claimed(count) => {
            let fields = fields(alloc, index, count)?;
            vec![in alloc; id, fields, Value::Int(7), Value::Int(2)]?
        }
        Row::Waiting => {
            let consumer = text(String::from_str(alloc, "worker-1")?);
            vec![in alloc; id, consumer, Value::Int(7), Value::Int(2)]?
        }
    };
    Ok(Value::Array(items))
}

/// Returns `count` rows of this kind.
#[tactic(auto, using(crate::proofs::BelowLemmas::no_rows))]
fn rows(alloc: Global, row: Row, count: usize) -> Result<Vec<Value>, AllocError>
    ensures { IfOk result (λ v. map tree v.items ≡ row_trees row count) }
{
    let mut rows = Vec::new(alloc);
    for index in 0..count {
        rows.push(make_row(alloc, row, index)?)?;
    }
    Ok(rows)
}

/// Returns `count` pairs of a text and a number, one after the other.
#[tactic(auto, using(crate::proofs::BelowLemmas::below_none))]
fn pairs(alloc: Global, count: usize) -> Result<Vec<Value>, AllocError>
    ensures { IfOk result (λ v. map tree v.items ≡ below pair_trees count) }
{
    let mut items = Vec::new(alloc);
    for number in 0..count {
        items.push(text(format!(in alloc; "n{number}")?))?;
        items.push(Value::Int(7))?;
    }
    Ok(items)
}

/// The rows as XREAD returns them of one stream.
fn one_stream(alloc: Global, rows: Vec<Value>) -> Result<Value, AllocError>
    ensures { IfOk result (λ v. tree v ≡ stream_tree (map tree rows.items)) }
{
    let name = text(String::from_str(alloc, "stream")?);
    let stream = Value::Array(vec![in alloc; name, Value::Array(rows)]?);
    Ok(Value::Array(vec![in alloc; stream]?))
}

/// The rows as XAUTOCLAIM returns them at the end of a stream, none of them deleted.
fn claimed_to_the_end(alloc: Global, rows: Vec<Value>) -> Result<Value, AllocError>
    ensures { IfOk result (λ v. tree v ≡ claimed_tree (map tree rows.items)) }
{
    let next = text(String::from_str(alloc, "0-0")?);
    let deleted = Value::Array(Vec::new(alloc));
    Ok(Value::Array(vec![in alloc; next, Value::Array(rows), deleted]?))
}

/// Returns the reply that an operation reads, with `count` rows; nil for `Add`, which reads none.
pub fn reply(alloc: Global, operation: Operation, count: usize) -> Result<Value, AllocError>
    ensures { IfOk result (λ v. tree v ≡ reply_tree operation count) }
{
    match operation {
        Operation::Range => Ok(Value::Array(rows(alloc, Row::Entry(5), count)?)),
        Operation::RangeOfOneField => Ok(Value::Array(rows(alloc, Row::Entry(1), count)?)),
        Operation::Read => one_stream(alloc, rows(alloc, Row::Entry(5), count)?),
        Operation::ReadWithClaim => one_stream(alloc, rows(alloc, Row::Claimed(5), count)?),
        Operation::Autoclaim => claimed_to_the_end(alloc, rows(alloc, Row::Entry(5), count)?),
        Operation::AutoclaimOfIds => claimed_to_the_end(alloc, rows(alloc, Row::Id, count)?),
        Operation::Pending => Ok(Value::Array(rows(alloc, Row::Waiting, count)?)),
        Operation::Table => Ok(Value::Array(pairs(alloc, count)?)),
        Operation::Add => Ok(Value::Nil),
    }
}
