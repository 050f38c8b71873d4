//! The value tree of the RESP protocol, and the readings of plain types.
ghost use Rattle.std.specs.Prelude.{◌≡◌};
ghost use Rattle.redis_resp.specs.Tree.{plain};
ghost use Rattle.redis_resp.specs.Value.{tree};

mod any_value;
mod boolean;
mod bytes;
mod clone;
mod contents;
mod equality;
mod error;
mod field;
mod from_value;
mod laws;
mod list;
mod members;
mod number;
mod option;
mod ordered;
mod pair;
mod pairs_left;
mod readable;
mod source;
mod table;
mod text;
mod tuple;

pub use contents::Contents;
pub use error::ParsingError;
pub use field::field_of;
pub use from_value::{FromRedisValue, from_redis_value, from_redis_value_ref};
pub use laws::equal_parsing_errors;
pub use members::{into_four, into_three, into_two};
pub use number::{signed_in, unsigned_in, usize_of};
pub use pair::{PairList, read_pairs};
pub use pairs_left::{PairsLeft, count_left, into_pairs, next_left};
pub use readable::{is_fields, is_nil, is_text, is_usize};
pub use source::Source;
pub use table::{hash_map_of, index_map_of};

/// A value of the RESP protocol, as a server sends it.
#[derive(Debug, Drop)]
pub enum Value {
    /// No value.
    Nil,
    /// A whole number.
    Int(i64),
    /// Bytes, which need not be text.
    BulkString(Vec<u8>),
    /// Values in order.
    Array(Vec<Value>),
    /// A short text, such as a status.
    SimpleString(String),
    /// The status `OK`.
    Okay,
    /// Keys with their values, in the order in which they were sent.
    Map(Vec<(Value, Value)>),
    /// A value with attributes around it. Every reading ignores the attributes.
    Attribute {
        payload: Box<Value>,
        attributes: Vec<(Value, Value)>,
    },
    /// Values without order.
    Set(Vec<Value>),
    /// A boolean.
    Boolean(bool),
    /// A text with the name of its format, such as `txt` or `mkd`.
    VerbatimString {
        format: String,
        text: String,
    },
    /// A push message, which the server sends outside of any reply, with its kind.
    Push {
        kind: String,
        payload: Vec<Value>,
    },
}

impl Default for Value {
    ghost use Rattle.redis_resp.specs.Tree.{nil};

    ghost is_default = { λ v. tree v ≡ nil };

    /// `Nil`, no value.
    fn default() -> Value {
        Value::Nil
    }
}

impl Value {
    /// Returns the value inside all outer attributes.
    pub fn into_plain(self) -> Value
        ensures { tree result ≡ plain (tree self) }
    {
        match self {
            Value::Attribute {
                payload,
                attributes,
            } => {
                drop(attributes);
                Box::into_inner(payload).into_plain()
            }
            other => other,
        }
    }

    /// Returns the value inside all outer attributes.
    pub fn as_plain(&self) -> &Value
        ensures { tree result.now ≡ plain (tree self.now) }
    {
        match self {
            Value::Attribute { payload, .. } => payload.as_plain(),
            other => other,
        }
    }
}
