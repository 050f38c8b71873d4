//! Arguments that are written without allocating.
ghost use Rattle.std.specs.Prelude.{◌≡◌, [], IfOk, IfErr, IsOk};
ghost use Rattle.redis_args.specs.Room.{HasRoom};

use redis_resp::{FixedArgs, ToRedisArgs, WriteError};

/// Writes the arguments of a value into a buffer of a fixed size. It takes no memory.
///
/// If there is room for all of them, at most `N` arguments of at most `B` bytes together, the
/// result is Ok. Otherwise it is `Full`.
#[tactic(auto, using(redis_args::proofs::RoomLemmas::room_is_enough))]
pub fn fixed_args_of<T: ToRedisArgs, const N: usize, const B: usize>(
    value: &T,
) -> Result<FixedArgs<N, B>, WriteError>
    ensures ok { IfOk result (λ fixed. fixed ≡ T.args value.now) }
    ensures room { HasRoom N B [] (T.args value.now) → IsOk result }
    ensures err { IfErr result (λ error. error ≡ WriteError.Full) }
{
    let mut fixed = FixedArgs::new();
    value.write_redis_args(&mut fixed)?;
    Ok(fixed)
}
