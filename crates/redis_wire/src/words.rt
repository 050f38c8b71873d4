//! The words of decoded commands.
ghost use Rattle.std.specs.Prelude.{◌≡◌, IfOk, map, option_map};
ghost use Rattle.redis_resp.specs.Reading.{traverse};
ghost use Rattle.redis_resp.specs.Value.{tree};
ghost use Rattle.redis_wire.specs.Reply.{answer, value};
ghost use Rattle.redis_wire.specs.Words.{AreUnpacked, AreWordsOf, bulk_text, words_in};

use crate::reply::Reply;
use redis_resp::Value;
use std::alloc::{AllocError, Global};

/// Returns the words of a command, as `pack_args` takes them; `None` if the reply is not an array of bulk
/// strings. The bytes of the words are moved. It fails only if memory runs out.
pub fn command_words(alloc: Global, command: Reply) -> Result<Option<Vec<Vec<u8>>>, AllocError>
    // They are exactly the words of the command that the reply is, and `None` if it is no command.
    ensures words { IfOk result (λ words. AreWordsOf (answer command)
        (option_map (λ v. map (λ word. word.items) v.items) words)) }
    // For a reply decoded from the bytes that `pack_args` writes, they are the words that were packed.
    ensures packed { IfOk result (λ words. AreUnpacked (answer command)
        (option_map (λ v. map (λ word. word.items) v.items) words)) }
{
    match command {
        Reply::Value(value) => read_array_texts(alloc, value),
        _ => Ok(None),
    }
}

/// Returns the bytes of each member of an array of bulk strings; `None` for any other value.
fn read_array_texts(alloc: Global, v: Value) -> Result<Option<Vec<Vec<u8>>>, AllocError>
    ensures { IfOk result (λ words. option_map (λ v. map (λ word. word.items) v.items) words
        ≡ words_in (value (tree v))) }
{
    match v {
        Value::Array(values) => read_texts(alloc, values),
        _ => Ok(None),
    }
}

/// Returns the bytes of each value; `None` if one of them is not a bulk string.
fn read_texts(alloc: Global, values: Vec<Value>) -> Result<Option<Vec<Vec<u8>>>, AllocError>
    ensures { IfOk result (λ words. option_map (λ v. map (λ word. word.items) v.items) words
        ≡ traverse bulk_text (map tree values.items)) }
{
    let mut words = Vec::with_capacity(alloc, values.len())?;
    for value in values {
        let Value::BulkString(word) = value else {
            return Ok(None);
        };
        words.push(word)?;
    }
    Ok(Some(words))
}
