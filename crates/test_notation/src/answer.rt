//! The printed results of decoding a value by both readings of a type.
ghost use Rattle.std.specs.Prelude.{◌≡◌, ◌≢◌, IfOk, IfErr, string_bytes};
ghost use Rattle.redis_resp.specs.Value.{tree};
ghost use Rattle.test_notation.specs.Answer.{IsAnswer, compared};
ghost use Rattle.test_notation.specs.Refusal.{answer_form};

use crate::form::PrintedForm;
use redis_resp::{FromRedisValue, ParsingError, Value, from_redis_value, from_redis_value_ref};
use std::alloc::{AllocError, Global};

/// Returns the printed form of the result of both readings of a value, owned and borrowed. Where they
/// differ, it returns both forms. It fails only out of memory.
pub fn both_answers<T: FromRedisValue + PrintedForm>(
    alloc: Global,
    value: Value,
) -> Result<String, AllocError>
    ensures { IfOk result (λ line.
        IsAnswer T.meaning T.reading T.may_refuse T.form (tree value) (string_bytes line)) }
{
    let lent = printed_answer(alloc, from_redis_value_ref::<T>(alloc, &value))?;
    let owned = printed_answer(alloc, from_redis_value::<T>(alloc, value))?;
    compared_forms(alloc, owned, &lent)
}

/// Returns the printed form of a record or a refusal. Passes on the error that memory ran out.
fn printed_answer<T: PrintedForm + Drop>(
    alloc: Global,
    answer: Result<T, ParsingError>,
) -> Result<String, AllocError>
    ensures form { IfOk result (λ text. string_bytes text ≡ answer_form T.form answer) }
    ensures told { IfOk result (λ _. IfErr answer (λ error. error ≢ ParsingError.Memory)) }
{
    match answer {
        Ok(record) => record.printed(alloc),
        Err(ParsingError::Memory) => Err(AllocError),
        Err(error) => error.printed(alloc),
    }
}

/// Returns one form if both are the same, else both forms with their labels.
fn compared_forms(alloc: Global, owned: String, lent: &str) -> Result<String, AllocError>
    ensures { IfOk result (λ line. string_bytes line ≡ compared (string_bytes owned) lent.now) }
{
    if owned.as_str() == lent {
        Ok(owned)
    } else {
        format!(in alloc; "{owned} owned, {lent} lent")
    }
}
