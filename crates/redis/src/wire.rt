//! The bytes of the RESP protocol: decoding replies and encoding commands.
pub use redis_wire::{
    Decoded, Fault, Found, GroupKind, Limits, Node, PackError, PackedCommand, Protocol, RedisError,
    Reply, ReplyError, ReplyStream, ServerError, WireError, append_answer, append_command,
    command_words, decode, find_nodes, from_reply, nodes_in, pack_args, pack_command,
};
