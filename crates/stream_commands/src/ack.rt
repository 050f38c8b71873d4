//! Acknowledging entries: XACK and XACKDEL.
ghost use Rattle.std.specs.Prelude.{◌≡◌, ◌∷◌, ◌++◌, codes, decimal, length};
ghost use Rattle.std.specs.List.{flat_map};
ghost use Rattle.stream_commands.specs.NonEmpty.{all};
ghost use Rattle.stream_options.specs.Policy.{policy_word};
ghost use Rattle.stream_options.specs.View.{policy_of};

use crate::at_least_one::AtLeastOne;
use crate::command::{Command, Word};
use crate::counted::CountedIds;
use redis_resp::ToSingleRedisArg;
use redis_streams::XAckDelStatusCode;
use stream_options::StreamDeletionPolicy;

/// `XACK key group id ..`: acknowledges these entries, so that they are no longer pending for the group. The reply is
/// the number of entries that were pending.
///
/// ```text
/// xack("orders", "g", AtLeastOne::one(&"1-0"))    // XACK orders g 1-0
/// ```
pub fn xack<'w, 'a, K: ToSingleRedisArg, G: ToSingleRedisArg, I: ToSingleRedisArg>(
    key: K,
    group: G,
    ids: AtLeastOne<'a, I>,
) -> Command<(Word<'w>, K, G, AtLeastOne<'a, I>), usize>
    ensures { result
        ≡ codes "XACK" ∷ K.args key ++ (G.args group ++ flat_map I.args (all ids.entry)) }
{
    Command::new((Word("XACK"), key, group, ids))
}

/// `XACKDEL key group policy IDS n id ..`: acknowledges these entries, and deletes them as the
/// policy defines. The reply has a code for each id.
///
/// ```text
/// xack_del("orders", "g", AtLeastOne::one(&"1-0"), StreamDeletionPolicy::Acked)
///                                                 // XACKDEL orders g ACKED IDS 1 1-0
/// ```
pub fn xack_del<'w, 'a, K: ToSingleRedisArg, G: ToSingleRedisArg, I: ToSingleRedisArg>(
    key: K,
    group: G,
    ids: AtLeastOne<'a, I>,
    policy: StreamDeletionPolicy,
) -> Command<
    (
        Word<'w>,
        K,
        G,
        StreamDeletionPolicy,
        Word<'w>,
        CountedIds<'a, I>,
    ),
    Vec<XAckDelStatusCode>,
>
    ensures { result ≡ codes "XACKDEL" ∷ K.args key
        ++ (G.args group ++ policy_word (policy_of policy)
        ∷ codes "IDS" ∷ decimal (length (all ids.entry)) ∷ flat_map I.args (all ids.entry)) }
{
    Command::new((
        Word("XACKDEL"),
        key,
        group,
        policy,
        Word("IDS"),
        CountedIds(ids),
    ))
}
