//! Claiming pending entries for another consumer: XCLAIM.
ghost use Rattle.std.specs.Prelude.{◌≡◌, ◌↔◌, ◌∷◌, ◌++◌, true, codes, decimal, IfOk, IsErr, IsTrue};
ghost use Rattle.std.specs.List.{flat_map};
ghost use Rattle.stream_commands.specs.NonEmpty.{all};
ghost use Rattle.stream_options.specs.Claim.{claim_sentence};

use crate::at_least_one::AtLeastOne;
use crate::command::{Command, Word};
use crate::error::JustIdIsSet;
use redis_resp::ToSingleRedisArg;
use redis_streams::StreamClaimReply;
use stream_options::StreamClaimOptions;

/// `XCLAIM key group consumer min-idle id ..`: claims those of these entries that are idle for at least
/// `min_idle` milliseconds for the consumer. The reply has them with their fields.
///
/// ```text
/// xclaim("orders", "g", "c", 60000, AtLeastOne::one(&"1-0"))
///                                                 // XCLAIM orders g c 60000 1-0
/// ```
pub fn xclaim<
    'w,
    'a,
    K: ToSingleRedisArg,
    G: ToSingleRedisArg,
    C: ToSingleRedisArg,
    I: ToSingleRedisArg,
>(
    key: K,
    group: G,
    consumer: C,
    min_idle: usize,
    ids: AtLeastOne<'a, I>,
) -> Command<(Word<'w>, K, G, C, usize, AtLeastOne<'a, I>), StreamClaimReply>
    ensures { result ≡ codes "XCLAIM" ∷ K.args key ++ (G.args group ++ (C.args consumer
        ++ decimal min_idle ∷ flat_map I.args (all ids.entry))) }
{
    Command::new((Word("XCLAIM"), key, group, consumer, min_idle, ids))
}

/// The arguments of a claim with options: the name of the command, key, group, consumer, idle time, ids
/// and options.
pub type ClaimArgs<'w, 'a, K, G, C, I, O> = (Word<'w>, K, G, C, usize, (AtLeastOne<'a, I>, O));

/// `XCLAIM key group consumer min-idle id .. [options]`: the same as `xclaim`, with options.
/// Returns `JustIdIsSet` if they have `JUSTID`, whose reply has no entries: `xclaim_justid` is for that.
///
/// ```text
/// let options = StreamClaimOptions::default().retry(3);
/// xclaim_options("orders", "g", "c", 60000, AtLeastOne::one(&"1-0"), &options)?
///                                                 // XCLAIM orders g c 60000 1-0 RETRYCOUNT 3
/// ```
pub fn xclaim_options<
    'w,
    'a,
    K: ToSingleRedisArg + Drop,
    G: ToSingleRedisArg + Drop,
    C: ToSingleRedisArg + Drop,
    I: ToSingleRedisArg + Drop,
>(
    key: K,
    group: G,
    consumer: C,
    min_idle: usize,
    ids: AtLeastOne<'a, I>,
    options: &'a StreamClaimOptions,
) -> Result<
    Command<ClaimArgs<'w, 'a, K, G, C, I, &'a StreamClaimOptions>, StreamClaimReply>,
    JustIdIsSet,
>
    ensures ok { IfOk result (λ command. command
        ≡ codes "XCLAIM" ∷ K.args key ++ (G.args group ++ (C.args consumer
        ++ decimal min_idle ∷ flat_map I.args (all ids.entry) ++ claim_sentence options.now))) }
    ensures refused { IsErr result ↔ IsTrue options.now.justid }
{
    if options.has_justid() {
        return Err(JustIdIsSet);
    }
    Ok(Command::new((
        Word("XCLAIM"),
        key,
        group,
        consumer,
        min_idle,
        (ids, options),
    )))
}

/// `XCLAIM key group consumer min-idle id .. [options] JUSTID`: the same, with `JUSTID` added to
/// the options if they do not have it. The reply has only the ids of the entries, and the claim
/// does not count as a delivery.
///
/// ```text
/// let options = StreamClaimOptions::default();
/// xclaim_justid("orders", "g", "c", 60000, AtLeastOne::one(&"1-0"), options)
///                                                 // XCLAIM orders g c 60000 1-0 JUSTID
/// ```
pub fn xclaim_justid<
    'w,
    'a,
    K: ToSingleRedisArg,
    G: ToSingleRedisArg,
    C: ToSingleRedisArg,
    I: ToSingleRedisArg,
>(
    key: K,
    group: G,
    consumer: C,
    min_idle: usize,
    ids: AtLeastOne<'a, I>,
    options: StreamClaimOptions,
) -> Command<ClaimArgs<'w, 'a, K, G, C, I, StreamClaimOptions>, Vec<String>>
    ensures { result ≡ codes "XCLAIM" ∷ K.args key ++ (G.args group ++ (C.args consumer
        ++ decimal min_idle ∷ flat_map I.args (all ids.entry)
        ++ claim_sentence (record options { justid = true }))) }
{
    Command::new((
        Word("XCLAIM"),
        key,
        group,
        consumer,
        min_idle,
        (ids, options.with_justid()),
    ))
}
