//! Records that are read from values.
ghost use Rattle.std.specs.Prelude.{◌≡◌, IfOk, IfErr, Option, Some, ⊤};
ghost use Rattle.redis_resp.specs.Tree.{Tree};
ghost use Rattle.redis_resp.specs.declared.value.error.ParsingError.{ParsingError};
ghost use Rattle.redis_resp.specs.Record.{HasOneRecord, same_record};
ghost use Rattle.redis_resp.specs.Refusal.{Refuses};
ghost use Rattle.redis_resp.specs.Value.{tree};

use crate::value::Value;
use crate::value::error::ParsingError;
use std::alloc::Global;

/// A record that values are read as.
///
/// A type of your own gives the meaning of its records, a mathematical type, and the meaning that a
/// tree has. It then works inside lists, options, tuples and tables with no change here. If it also
/// gives the errors with which it may refuse a tree, so does each list, option, tuple and table of it.
pub trait FromRedisValue: Drop {
    /// The meaning of a record: two records are the same if their meanings are equal.
    ghost Meaning: { Type 0 };

    /// The meaning of a record.
    ghost meaning: { Self → Meaning };

    /// The one meaning that a tree has, or `None` if it has none.
    ghost reading: { Tree → Option Meaning };

    /// The errors with which a tree may be refused: any error, unless the type specifies them.
    ghost may_refuse: { Tree → ParsingError → Type 0 } = { λ _ _. ⊤ };

    /// Those of these errors with which a consumed value may be refused: all of them, unless the
    /// type specifies them.
    ghost may_refuse_owned: { Tree → ParsingError → Type 0 } = { λ _ _. ⊤ };

    /// Reads the record of a value, and consumes the value.
    ///
    /// An Err is one with which the value may be refused. It means that the value has no record,
    /// unless it is `Memory`.
    fn from_redis_value(alloc: Global, v: Value) -> Result<Self, ParsingError>
        ensures ok { IfOk result (λ r. reading (tree v) ≡ Some (meaning r)) }
        ensures err { IfErr result (Refuses reading may_refuse (tree v)) }
        ensures owned { IfErr result (may_refuse_owned (tree v)) };

    /// Reads the same record from a borrowed value, and copies only what the record keeps.
    fn from_redis_value_ref(alloc: Global, v: &Value) -> Result<Self, ParsingError>
        ensures ok { IfOk result (λ r. reading (tree v.now) ≡ Some (meaning r)) }
        ensures err { IfErr result (Refuses reading may_refuse (tree v.now)) };

    /// A value has one record at most.
    ghost one_record: { HasOneRecord reading meaning } = { same_record reading meaning };
}

/// Reads a value as a record of the requested type, and consumes the value.
pub fn from_redis_value<T: FromRedisValue>(alloc: Global, v: Value) -> Result<T, ParsingError>
    ensures ok { IfOk result (λ r. T.reading (tree v) ≡ Some (T.meaning r)) }
    ensures err { IfErr result (Refuses T.reading T.may_refuse (tree v)) }
    ensures owned { IfErr result (T.may_refuse_owned (tree v)) }
{
    T::from_redis_value(alloc, v)
}

/// Reads a borrowed value as a record of the requested type.
pub fn from_redis_value_ref<T: FromRedisValue>(alloc: Global, v: &Value) -> Result<T, ParsingError>
    ensures ok { IfOk result (λ r. T.reading (tree v.now) ≡ Some (T.meaning r)) }
    ensures err { IfErr result (Refuses T.reading T.may_refuse (tree v.now)) }
{
    T::from_redis_value_ref(alloc, v)
}
