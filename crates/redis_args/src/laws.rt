//! Laws: unequal numbers have unequal arguments, and a writer of a fixed size accepts all that it has
//! room for. A derived `==` and a derived copy are exact.
ghost use Rattle.std.specs.Prelude.{◌≡◌, ◌↔◌, ◌<◌, ◌^◌, ◌++◌, IsTrue, ℕ, ℤ, FitsSigned, decimal};
ghost use Rattle.std.specs.Prelude.{IsOk, IfErr, Ok, OnOk};
ghost use Rattle.std.specs.Fmt.{signed_decimal};
ghost use Rattle.std.specs.Int.{w64};
ghost use Rattle.redis_args.specs.Room.{HasRoom};

use crate::fixed_args::FixedArgs;
use crate::raw_bytes::RawBytes;
use crate::to_redis_args::ToRedisArgs;
use crate::writer::WriteError;
use std::alloc::AllocError;

/// Two numbers of up to 64 bits that are written as the same argument are equal.
#[tactic(auto, using(crate::proofs::DecimalLemmas::decimals_differ))]
pub fn unique_decimal()
    ensures unsigned { (m n : ℕ) → m < 2 ^ 64 → n < 2 ^ 64 → decimal m ≡ decimal n → m ≡ n }
    ensures signed { (y z : ℤ) → FitsSigned w64 y → FitsSigned w64 z
        → signed_decimal y ≡ signed_decimal z → y ≡ z }
{}

/// Appends the arguments of a value to a `FixedArgs`. Returns Ok if there is room for all of them: at
/// most `N` arguments of at most `B` bytes, counting those written already. It allocates no memory, so
/// its one error is `Full`.
#[tactic(auto, using(crate::proofs::RoomLemmas::room_is_enough))]
pub fn write_with_room<T: ToRedisArgs, const N: usize, const B: usize>(
    value: &T,
    out: &mut FixedArgs<N, B>,
) -> Result<(), WriteError>
    ensures room { HasRoom N B out.old (T.args value.now) → IsOk result }
    ensures written { OnOk result (out.new ≡ out.old ++ T.args value.now) }
    ensures full { IfErr result (λ error. error ≡ WriteError.Full) }
{
    value.write_redis_args(out)
}

/// `==` holds of two `WriteError` exactly if they are the same. It allocates no memory.
pub fn equal_write_errors(a: WriteError, b: WriteError) -> bool
    ensures { IsTrue result ↔ (a ≡ b) }
{
    a == b
}

/// Returns a copy of a `WriteError`, which is equal to it. It allocates no memory and is always Ok.
pub fn copied_write_error(error: &WriteError) -> Result<WriteError, AllocError>
    ensures { result ≡ Ok error.now }
{
    error.clone()
}

/// `==` holds of two `RawBytes` exactly if they are the same bytes, whatever the capacity of their
/// buffers. It allocates no memory.
pub fn equal_bytes(a: &RawBytes, b: &RawBytes) -> bool
    ensures { IsTrue result ↔ (a.now.0.items ≡ b.now.0.items) }
{
    a == b
}
