//! A notation of values on one line.
//!
//! ```text
//! value  = Nil | Okay | Int n | Boolean(true) | Boolean(false) | Simple(text) | Verbatim(text, text)
//!        | Bytes(byte, ..) | Array[value, ..] | Set[value, ..] | Map[value: value, ..]
//!        | Push(text)[value, ..] | Attr(value) | Attr(value; value: value, ..) | bulk
//! bulk   = a bare word, or a quoted one
//! text   = nothing, or a bulk that is UTF-8
//! ```
//!
//! A bare word has no blank, no control character and none of `[ ] ( ) , : ; " \`, and is none of
//! the words above: such a word is quoted where it is meant as a bulk string. Between quotes `\"`,
//! `\\`, `\n`, `\t` and `\xNN`, the byte of two hexadecimal digits, are one byte each. Blanks
//! (spaces and tabs) may precede each part. `Attr(v; k: x)` is the value `v` with the attribute
//! `k: x` around it.
ghost use Rattle.std.specs.Prelude.{◌<◌, IfOk, length};

mod error;
mod quoted;
mod scan;
mod value;

pub use error::NotationError;
use redis_resp::Value;
use scan::skip_blanks;
use std::alloc::Global;
use value::value_in;

/// Parses the whole of `text` as a value.
pub fn read_value(alloc: Global, text: &str) -> Result<Value, NotationError>
    ensures { IfOk result (λ _. 0 < length text.now) }
{
    let (value, rest) = value_in(alloc, text.as_bytes())?;
    if skip_blanks(rest).is_empty() {
        Ok(value)
    } else {
        drop(value);
        Err(NotationError::TextBehindValue)
    }
}
