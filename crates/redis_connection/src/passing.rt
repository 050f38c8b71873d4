//! Push messages of a server, which are no reply to a command.
ghost use Rattle.std.specs.Prelude.{◌↔◌, IsTrue};
ghost use Rattle.redis_wire.specs.Reply.{answer};
ghost use Rattle.redis_connection.specs.Passing.{BeginsAsMessage, IsMessage};

use redis_wire::Reply;

/// Returns whether a reply is a push message.
pub fn is_message(reply: &Reply) -> bool
    ensures { IsTrue result ↔ IsMessage (answer reply.now) }
{
    matches!(reply, Reply::Push { .. })
}

/// Returns whether the bytes begin with `>`, as a push message does and no reply to a command.
pub fn begins_as_message(bytes: &[u8]) -> bool
    ensures { IsTrue result ↔ BeginsAsMessage bytes.now }
{
    matches!(bytes, [b'>', ..])
}
