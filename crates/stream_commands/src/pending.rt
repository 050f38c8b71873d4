//! Entries that were delivered and are not yet acknowledged: XPENDING.
ghost use Rattle.std.specs.Prelude.{◌≡◌, [], ◌∷◌, ◌++◌, codes, decimal};

use crate::command::{Command, Word};
use redis_resp::ToSingleRedisArg;
use redis_streams::{StreamPendingCountReply, StreamPendingReply};

/// `XPENDING key group`: the number of entries pending for the group, their first and last id, and
/// their consumers.
///
/// ```text
/// xpending("orders", "g")                         // XPENDING orders g
/// ```
pub fn xpending<'w, K: ToSingleRedisArg, G: ToSingleRedisArg>(
    key: K,
    group: G,
) -> Command<(Word<'w>, K, G), StreamPendingReply>
    ensures { result ≡ codes "XPENDING" ∷ K.args key ++ G.args group }
{
    Command::new((Word("XPENDING"), key, group))
}

/// `XPENDING key group start end count`: at most `count` of the pending entries from `start` to
/// `end`, both included.
///
/// ```text
/// xpending_count("orders", "g", "-", "+", 10)     // XPENDING orders g - + 10
/// ```
pub fn xpending_count<
    'w,
    K: ToSingleRedisArg,
    G: ToSingleRedisArg,
    S: ToSingleRedisArg,
    E: ToSingleRedisArg,
>(
    key: K,
    group: G,
    start: S,
    end: E,
    count: usize,
) -> Command<(Word<'w>, K, G, S, E, usize), StreamPendingCountReply>
    ensures { result ≡ codes "XPENDING" ∷ K.args key ++ (G.args group
        ++ (S.args start ++ (E.args end ++ decimal count ∷ []))) }
{
    Command::new((Word("XPENDING"), key, group, start, end, count))
}

/// `XPENDING key group start end count consumer`: the same, for those pending for this consumer.
///
/// ```text
/// xpending_consumer_count("orders", "g", "-", "+", 10, "c")
///                                                 // XPENDING orders g - + 10 c
/// ```
pub fn xpending_consumer_count<
    'w,
    K: ToSingleRedisArg,
    G: ToSingleRedisArg,
    S: ToSingleRedisArg,
    E: ToSingleRedisArg,
    C: ToSingleRedisArg,
>(
    key: K,
    group: G,
    start: S,
    end: E,
    count: usize,
    consumer: C,
) -> Command<(Word<'w>, K, G, S, E, (usize, C)), StreamPendingCountReply>
    ensures { result ≡ codes "XPENDING" ∷ K.args key ++ (G.args group
        ++ (S.args start ++ (E.args end ++ decimal count ∷ C.args consumer))) }
{
    Command::new((Word("XPENDING"), key, group, start, end, (count, consumer)))
}

/// `XPENDING key group IDLE ms start end count`: the same as `xpending_count`, for those that are
/// idle for at least `min_idle` milliseconds.
///
/// ```text
/// xpending_idle_count("orders", "g", 60000, "-", "+", 10)
///                                                 // XPENDING orders g IDLE 60000 - + 10
/// ```
pub fn xpending_idle_count<
    'w,
    K: ToSingleRedisArg,
    G: ToSingleRedisArg,
    S: ToSingleRedisArg,
    E: ToSingleRedisArg,
>(
    key: K,
    group: G,
    min_idle: usize,
    start: S,
    end: E,
    count: usize,
) -> Command<(Word<'w>, K, G, (Word<'w>, usize), S, (E, usize)), StreamPendingCountReply>
    ensures { result ≡ codes "XPENDING" ∷ K.args key ++ (G.args group
        ++ codes "IDLE" ∷ decimal min_idle ∷ S.args start ++ (E.args end ++ decimal count ∷ [])) }
{
    Command::new((
        Word("XPENDING"),
        key,
        group,
        (Word("IDLE"), min_idle),
        start,
        (end, count),
    ))
}

/// `XPENDING key group IDLE ms start end count consumer`: the same, for those pending for this
/// consumer.
///
/// ```text
/// xpending_idle_consumer_count("orders", "g", 60000, "-", "+", 10, "c")
///                                                 // XPENDING orders g IDLE 60000 - + 10 c
/// ```
pub fn xpending_idle_consumer_count<
    'w,
    K: ToSingleRedisArg,
    G: ToSingleRedisArg,
    S: ToSingleRedisArg,
    E: ToSingleRedisArg,
    C: ToSingleRedisArg,
>(
    key: K,
    group: G,
    min_idle: usize,
    start: S,
    end: E,
    count: usize,
    consumer: C,
) -> Command<(Word<'w>, K, G, (Word<'w>, usize), S, (E, usize, C)), StreamPendingCountReply>
    ensures { result ≡ codes "XPENDING" ∷ K.args key ++ (G.args group
        ++ codes "IDLE" ∷ decimal min_idle ∷ S.args start
        ++ (E.args end ++ decimal count ∷ C.args consumer)) }
{
    Command::new((
        Word("XPENDING"),
        key,
        group,
        (Word("IDLE"), min_idle),
        start,
        (end, count, consumer),
    ))
}
