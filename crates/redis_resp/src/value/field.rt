//! Fields by their names.
ghost use Rattle.std.specs.Prelude.{◌≡◌, IfOk, OnErr, option_map};
ghost use Rattle.std.specs.FinMap as fin;
ghost use Rattle.redis_resp.specs.FieldsMeaning.{fields_of};
ghost use Rattle.redis_resp.specs.Refusal.{RefusesField};
ghost use Rattle.redis_resp.specs.Table.{field_record};

use crate::value::Value;
use crate::value::error::ParsingError;
use crate::value::from_value::FromRedisValue;
use std::alloc::{AllocError, Global};
use std::collections::HashMap;

/// Returns the record that the field of this name reads as. Returns `None` if there is no such field or it
/// has no record of the type. It fails only if the field exists and may be refused with `Memory`.
#[tactic(auto, using(crate::proofs::FieldLemmas::get_field))]
pub fn field_of<T: FromRedisValue>(
    alloc: Global,
    fields: &HashMap<String, Value>,
    name: &str,
) -> Result<Option<T>, AllocError>
    ensures record { IfOk result (λ r. option_map T.meaning r
        ≡ field_record T.reading (fields_of fields.now) name.now) }
    ensures memory { OnErr result (RefusesField T.may_refuse
        (fin.get (fields_of fields.now) name.now) ParsingError.Memory) }
{
    let Some(value) = fields.get(name) else {
        return Ok(None);
    };
    match T::from_redis_value_ref(alloc, value) {
        Ok(record) => Ok(Some(record)),
        Err(ParsingError::Memory) => Err(AllocError),
        Err(_) => Ok(None),
    }
}
