//! Writes commands into a buffer.
ghost use Rattle.std.specs.Prelude.{◌≡◌, ◌≢◌, ◌++◌, [], OnOk, OnErr};
ghost use Rattle.redis_wire.specs.Packed.{command_bytes};

use redis_resp::{ToRedisArgs, WriteError};
use redis_wire::PackError;
use std::alloc::Global;

/// Appends the bytes of a command, which has at least a name. An `Err` changes nothing.
pub fn append_command<T: ToRedisArgs>(
    alloc: Global,
    out: &mut Vec<u8>,
    command: &T,
) -> Result<(), WriteError>
    requires { T.args command.now ≢ [] }
    ensures ok { OnOk result (out.new.items ≡ out.old.items ++ command_bytes (T.args command.now)) }
    ensures err { OnErr result (out.new.items ≡ out.old.items) }
{
    match redis_wire::append_command(alloc, out, command) {
        Ok(()) => Ok(()),
        Err(PackError::Memory) => Err(WriteError::Memory),
        Err(PackError::Full) => Err(WriteError::Full),
        Err(PackError::NoArguments) => unreachable!(),
    }
}
