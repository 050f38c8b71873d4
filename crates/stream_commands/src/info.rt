//! Information about a stream: XINFO.
ghost use Rattle.std.specs.Prelude.{◌≡◌, [], ◌∷◌, ◌++◌, codes, decimal};

use crate::command::{Command, Word};
use redis_resp::ToSingleRedisArg;
use redis_streams::{
    StreamInfoConsumersReply, StreamInfoFullReply, StreamInfoGroupsReply, StreamInfoStreamReply,
    StreamInfoStreamReplyWithIdempotency,
};

/// `XINFO STREAM key`: information about the stream.
///
/// ```text
/// xinfo_stream("orders")                          // XINFO STREAM orders
/// ```
pub fn xinfo_stream<'w, K: ToSingleRedisArg>(
    key: K,
) -> Command<(Word<'w>, Word<'w>, K), StreamInfoStreamReply>
    ensures { result ≡ codes "XINFO" ∷ codes "STREAM" ∷ K.args key }
{
    Command::new((Word("XINFO"), Word("STREAM"), key))
}

/// `XINFO STREAM key`: information about the stream, and how it recognizes entries that are sent twice.
///
/// ```text
/// xinfo_stream_with_idempotency("orders")         // XINFO STREAM orders
/// ```
pub fn xinfo_stream_with_idempotency<'w, K: ToSingleRedisArg>(
    key: K,
) -> Command<(Word<'w>, Word<'w>, K), StreamInfoStreamReplyWithIdempotency>
    ensures { result ≡ codes "XINFO" ∷ codes "STREAM" ∷ K.args key }
{
    Command::new((Word("XINFO"), Word("STREAM"), key))
}

/// `XINFO GROUPS key`: information about the groups of the stream.
///
/// ```text
/// xinfo_groups("orders")                          // XINFO GROUPS orders
/// ```
pub fn xinfo_groups<'w, K: ToSingleRedisArg>(
    key: K,
) -> Command<(Word<'w>, Word<'w>, K), StreamInfoGroupsReply>
    ensures { result ≡ codes "XINFO" ∷ codes "GROUPS" ∷ K.args key }
{
    Command::new((Word("XINFO"), Word("GROUPS"), key))
}

/// `XINFO CONSUMERS key group`: information about the consumers of the group.
///
/// ```text
/// xinfo_consumers("orders", "g")                  // XINFO CONSUMERS orders g
/// ```
pub fn xinfo_consumers<'w, K: ToSingleRedisArg, G: ToSingleRedisArg>(
    key: K,
    group: G,
) -> Command<(Word<'w>, Word<'w>, K, G), StreamInfoConsumersReply>
    ensures { result ≡ codes "XINFO" ∷ codes "CONSUMERS" ∷ K.args key ++ G.args group }
{
    Command::new((Word("XINFO"), Word("CONSUMERS"), key, group))
}

/// `XINFO STREAM key FULL`: the stream with its first entries, its groups and their consumers, and
/// the pending entries of each; at most the first ten of each list.
///
/// ```text
/// xinfo_stream_full("orders")                     // XINFO STREAM orders FULL
/// ```
pub fn xinfo_stream_full<'w, K: ToSingleRedisArg>(
    key: K,
) -> Command<(Word<'w>, Word<'w>, K, Word<'w>), StreamInfoFullReply>
    ensures { result ≡ codes "XINFO" ∷ codes "STREAM" ∷ K.args key ++ codes "FULL" ∷ [] }
{
    Command::new((Word("XINFO"), Word("STREAM"), key, Word("FULL")))
}

/// `XINFO STREAM key FULL COUNT count`: the same, with at most the first `count` of each list; all of
/// them if it is 0.
///
/// ```text
/// xinfo_stream_full_count("orders", 100)          // XINFO STREAM orders FULL COUNT 100
/// ```
pub fn xinfo_stream_full_count<'w, K: ToSingleRedisArg>(
    key: K,
    count: usize,
) -> Command<(Word<'w>, Word<'w>, K, Word<'w>, Word<'w>, usize), StreamInfoFullReply>
    ensures { result ≡ codes "XINFO" ∷ codes "STREAM" ∷ K.args key ++ codes "FULL"
        ∷ codes "COUNT" ∷ decimal count ∷ [] }
{
    Command::new((
        Word("XINFO"),
        Word("STREAM"),
        key,
        Word("FULL"),
        Word("COUNT"),
        count,
    ))
}
