//! The code of the README.
ghost use Rattle.std.specs.Prelude.{◌≡◌, ◌≢◌, [], ◌∷◌, Some, None, codes, decimal, map};
ghost use Rattle.std.specs.Prelude.{option_map, string_bytes, IfOk, IfErr};
ghost use Rattle.redis.specs.Words.{rows_reading, tree};
ghost use Rattle.examples.specs.Readme.{first_text};

use redis::commands::{AtLeastOne, xread_options};
use redis::streams::{StreamRangeReply, StreamReadOptions};
use redis::{ParsingError, ToRedisArgs, Value, from_redis_value};
use std::alloc::{AllocError, Global};

/// Returns `XREADGROUP GROUP workers ann COUNT 10 STREAMS orders >`. The order of the setters does not matter.
pub fn read_arguments(alloc: Global) -> Result<Vec<Vec<u8>>, AllocError>
    ensures { IfOk result (λ list. map (λ arg. arg.items) list.items ≡
        codes "XREADGROUP" ∷ codes "GROUP" ∷ codes "workers" ∷ codes "ann"
        ∷ codes "COUNT" ∷ decimal 10 ∷ codes "STREAMS" ∷ codes "orders" ∷ codes ">" ∷ []) }
{
    let options = StreamReadOptions::default()
        .count(10)
        .group(alloc, "workers", "ann")?;
    xread_options(AtLeastOne::one(&("orders", ">")), &options).to_redis_args(alloc)
}

/// Returns the customer of the first entry in a reply to XRANGE.
pub fn first_customer(alloc: Global, answer: Value) -> Result<Option<String>, ParsingError>
    ensures customer { IfOk result (λ customer. option_map (first_text (codes "customer"))
        (rows_reading (tree answer)) ≡ Some (option_map string_bytes customer)) }
    ensures err { IfErr result (λ e. e ≢ ParsingError.Memory
        → rows_reading (tree answer) ≡ None) }
{
    let reply: StreamRangeReply = from_redis_value(alloc, answer)?; // moves the texts, copies none
    match reply.ids.first() {
        Some(entry) => Ok(entry.get(alloc, "customer")?),
        None => Ok(None),
    }
}
