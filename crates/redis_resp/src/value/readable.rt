//! Whether values can be read, decided without allocating memory.
ghost use Rattle.std.specs.Prelude.{◌≡◌};
ghost use Rattle.std.specs.Option.{is_some};
ghost use Rattle.redis_resp.specs.Tree.{plain};
ghost use Rattle.redis_resp.specs.Number.{unsigned_reading};
ghost use Rattle.redis_resp.specs.Reading.{is_nil as nil_tree};
ghost use Rattle.redis_resp.specs.Table.{fields_reading};
ghost use Rattle.redis_resp.specs.Text.{text_reading};
ghost use Rattle.redis_resp.specs.Value.{tree};

use crate::value::Value;
use crate::value::number::usize_of;
use crate::value::pairs_left::{into_pairs, next_left};

/// Returns whether the value is `Nil`, whatever attributes are around it.
pub fn is_nil(v: &Value) -> bool
    ensures { result ≡ nil_tree (plain (tree v.now)) }
{
    matches!(v.as_plain(), Value::Nil)
}

/// Returns whether the value reads as a text.
#[tactic(auto, using(crate::proofs::ReadableLemmas::bulk_reads))]
pub fn is_text(v: &Value) -> bool
    ensures { result ≡ is_some (text_reading (tree v.now)) }
{
    match v.as_plain() {
        Value::BulkString(bytes) => match std::str::from_utf8(bytes) {
            Ok(_) => true,
            Err(_) => false,
        },
        Value::SimpleString(_) => true,
        Value::Okay => true,
        Value::VerbatimString { .. } => true,
        Value::Int(_) => true,
        _ => false,
    }
}

/// Returns whether the value reads as a `usize`.
pub fn is_usize(v: &Value) -> bool
    ensures { result ≡ is_some (unsigned_reading 64 (tree v.now)) }
{
    usize_of(v).is_some()
}

/// Returns whether the value reads as fields: pairs of a text and any value.
#[tactic(auto, using(crate::proofs::ReadableLemmas::fields_told))]
pub fn is_fields(v: &Value) -> bool
    ensures { result ≡ is_some (fields_reading (λ t. Some t) (tree v.now)) }
{
    let Some(mut pairs) = into_pairs(v) else {
        return false;
    };
    while let Some((key, _)) = next_left::<&Value>(&mut pairs) {
        if !is_text(key) {
            return false;
        }
    }
    true
}
