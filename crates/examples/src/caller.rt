//! A caller as in a repository of its own. Its code and its contracts name only the crate `redis`. It sends an
//! order as bytes, and reads the reply from bytes.
ghost use Rattle.std.specs.Prelude.{◌≡◌, ◌≢◌, [], ◌∷◌, codes, string_bytes, Some, None, IfOk, IfErr};
ghost use Rattle.redis.specs.Words.{command_bytes, text_reading, tree};

use redis::wire::{PackError, pack_command};
use redis::{ParsingError, Value, from_redis_value};
use std::alloc::Global;

/// Returns the bytes of `XADD orders * customer NAME`.
pub fn order_bytes(alloc: Global, customer: &str) -> Result<Vec<u8>, PackError>
    ensures { IfOk result (λ bytes. bytes.items ≡ command_bytes (codes "XADD" ∷ codes "orders"
        ∷ codes "*" ∷ codes "customer" ∷ customer.now ∷ [])) }
{
    pack_command(alloc, &("XADD", "orders", "*", ("customer", customer)))
}

/// Returns the id of the added order.
pub fn order_id(alloc: Global, answer: Value) -> Result<String, ParsingError>
    ensures ok { IfOk result (λ id. text_reading (tree answer) ≡ Some (string_bytes id)) }
    ensures err { IfErr result (λ e. e ≢ ParsingError.Memory → text_reading (tree answer) ≡ None) }
{
    from_redis_value(alloc, answer)
}
