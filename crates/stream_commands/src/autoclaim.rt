//! Claiming idle entries, whatever their ids: XAUTOCLAIM.
ghost use Rattle.std.specs.Prelude.{◌≡◌, ◌↔◌, [], ◌∷◌, ◌++◌, true, codes, decimal, IfOk, IsErr, IsTrue};
ghost use Rattle.stream_options.specs.AutoClaim.{autoclaim_sentence};

use crate::command::{Command, Word};
use crate::error::JustIdIsSet;
use redis_resp::ToSingleRedisArg;
use redis_streams::{StreamAutoClaimJustIdReply, StreamAutoClaimReply};
use stream_options::StreamAutoClaimOptions;

/// `XAUTOCLAIM key group consumer min-idle start [options]`: claims entries from `start` on that are
/// idle for at least `min_idle` milliseconds for the consumer. The reply has them with their fields,
/// and the id from which the next call continues. Returns `JustIdIsSet` if the options have `JUSTID`,
/// whose reply has no fields: `xautoclaim_justid` is for that.
///
/// ```text
/// let options = StreamAutoClaimOptions::default().count(10);
/// xautoclaim_options("orders", "g", "c", 60000, "0-0", &options)?
///                                                 // XAUTOCLAIM orders g c 60000 0-0 COUNT 10
/// ```
pub fn xautoclaim_options<
    'w,
    'a,
    K: ToSingleRedisArg + Drop,
    G: ToSingleRedisArg + Drop,
    C: ToSingleRedisArg + Drop,
    S: ToSingleRedisArg + Drop,
>(
    key: K,
    group: G,
    consumer: C,
    min_idle: usize,
    start: S,
    options: &'a StreamAutoClaimOptions,
) -> Result<
    Command<(Word<'w>, K, G, C, usize, (S, &'a StreamAutoClaimOptions)), StreamAutoClaimReply>,
    JustIdIsSet,
>
    ensures ok { IfOk result (λ command. command
        ≡ codes "XAUTOCLAIM" ∷ K.args key ++ (G.args group ++ (C.args consumer
        ++ decimal min_idle ∷ S.args start ++ autoclaim_sentence options.now))) }
    ensures refused { IsErr result ↔ IsTrue options.now.justid }
{
    if options.has_justid() {
        return Err(JustIdIsSet);
    }
    Ok(Command::new((
        Word("XAUTOCLAIM"),
        key,
        group,
        consumer,
        min_idle,
        (start, options),
    )))
}

/// `XAUTOCLAIM key group consumer min-idle start [options] JUSTID`: the same, with `JUSTID` added to
/// the options if they do not have it. The reply has only the ids of the entries, and the id
/// from which the next call continues. The claim does not count as a delivery.
///
/// ```text
/// let options = StreamAutoClaimOptions::default();
/// xautoclaim_justid("orders", "g", "c", 60000, "0-0", options)
///                                                 // XAUTOCLAIM orders g c 60000 0-0 JUSTID
/// ```
pub fn xautoclaim_justid<
    'w,
    K: ToSingleRedisArg,
    G: ToSingleRedisArg,
    C: ToSingleRedisArg,
    S: ToSingleRedisArg,
>(
    key: K,
    group: G,
    consumer: C,
    min_idle: usize,
    start: S,
    options: StreamAutoClaimOptions,
) -> Command<(Word<'w>, K, G, C, usize, (S, StreamAutoClaimOptions)), StreamAutoClaimJustIdReply>
    ensures { result ≡ codes "XAUTOCLAIM" ∷ K.args key ++ (G.args group ++ (C.args consumer
        ++ decimal min_idle ∷ S.args start
        ++ autoclaim_sentence (record options { justid = true }))) }
{
    Command::new((
        Word("XAUTOCLAIM"),
        key,
        group,
        consumer,
        min_idle,
        (start, options.with_justid()),
    ))
}

/// `XAUTOCLAIM key group consumer min-idle start`: claims entries from `start` on that are idle for at
/// least `min_idle` milliseconds for the consumer, at most 100. The reply has them with their
/// fields, and the id from which the next call continues.
///
/// ```text
/// xautoclaim("orders", "g", "c", 60000, "0-0")    // XAUTOCLAIM orders g c 60000 0-0
/// ```
pub fn xautoclaim<
    'w,
    K: ToSingleRedisArg,
    G: ToSingleRedisArg,
    C: ToSingleRedisArg,
    S: ToSingleRedisArg,
>(
    key: K,
    group: G,
    consumer: C,
    min_idle: usize,
    start: S,
) -> Command<(Word<'w>, K, G, C, usize, S), StreamAutoClaimReply>
    ensures { result ≡ codes "XAUTOCLAIM" ∷ K.args key ++ (G.args group ++ (C.args consumer
        ++ decimal min_idle ∷ S.args start)) }
{
    Command::new((Word("XAUTOCLAIM"), key, group, consumer, min_idle, start))
}

/// `XAUTOCLAIM key group consumer min-idle start COUNT count`: the same, at most `count`.
///
/// ```text
/// xautoclaim_count("orders", "g", "c", 60000, "0-0", 10)
///                                                 // XAUTOCLAIM orders g c 60000 0-0 COUNT 10
/// ```
pub fn xautoclaim_count<
    'w,
    K: ToSingleRedisArg,
    G: ToSingleRedisArg,
    C: ToSingleRedisArg,
    S: ToSingleRedisArg,
>(
    key: K,
    group: G,
    consumer: C,
    min_idle: usize,
    start: S,
    count: usize,
) -> Command<(Word<'w>, K, G, C, usize, (S, Word<'w>, usize)), StreamAutoClaimReply>
    ensures { result ≡ codes "XAUTOCLAIM" ∷ K.args key ++ (G.args group ++ (C.args consumer
        ++ decimal min_idle ∷ S.args start ++ codes "COUNT" ∷ decimal count ∷ [])) }
{
    Command::new((
        Word("XAUTOCLAIM"),
        key,
        group,
        consumer,
        min_idle,
        (start, Word("COUNT"), count),
    ))
}
