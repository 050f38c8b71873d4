//! Replies taken out of bytes that are fed in pieces.
ghost use Rattle.std.specs.Prelude.{IfOk};
ghost use Rattle.test_costs.specs.Found.{IsNext};

use redis_wire::ReplyStream;
use std::alloc::Global;

/// Takes the next reply out and drops it. Returns its length in bytes, or `None` if none is complete yet.
pub fn next_len(alloc: Global, stream: &mut ReplyStream) -> Result<Option<usize>, anyhow::Error>
    ensures { IfOk result (λ len. IsNext stream.old len stream.new) }
{
    let held = stream.held();
    match stream.next(alloc)? {
        Some(reply) => {
            drop(reply);
            Ok(Some(held - stream.held()))
        }
        None => Ok(None),
    }
}
