//! Deleting entries: XDEL and XDELEX.
ghost use Rattle.std.specs.Prelude.{◌≡◌, ◌∷◌, ◌++◌, codes, decimal, length};
ghost use Rattle.std.specs.List.{flat_map};
ghost use Rattle.stream_commands.specs.NonEmpty.{all};
ghost use Rattle.stream_options.specs.Policy.{policy_word};
ghost use Rattle.stream_options.specs.View.{policy_of};

use crate::at_least_one::AtLeastOne;
use crate::command::{Command, Word};
use crate::counted::CountedIds;
use redis_resp::ToSingleRedisArg;
use redis_streams::XDelExStatusCode;
use stream_options::StreamDeletionPolicy;

/// `XDEL key id ..`: deletes these entries. The reply is the number of entries deleted.
///
/// ```text
/// xdel("orders", AtLeastOne::one(&"1-0"))         // XDEL orders 1-0
/// ```
pub fn xdel<'w, 'a, K: ToSingleRedisArg, I: ToSingleRedisArg>(
    key: K,
    ids: AtLeastOne<'a, I>,
) -> Command<(Word<'w>, K, AtLeastOne<'a, I>), usize>
    ensures { result ≡ codes "XDEL" ∷ K.args key ++ flat_map I.args (all ids.entry) }
{
    Command::new((Word("XDEL"), key, ids))
}

/// `XDELEX key policy IDS n id ..`: deletes these entries as the policy defines. The reply has a
/// code for each id.
///
/// ```text
/// xdel_ex("orders", AtLeastOne::one(&"1-0"), StreamDeletionPolicy::KeepRef)
///                                                 // XDELEX orders KEEPREF IDS 1 1-0
/// ```
pub fn xdel_ex<'w, 'a, K: ToSingleRedisArg, I: ToSingleRedisArg>(
    key: K,
    ids: AtLeastOne<'a, I>,
    policy: StreamDeletionPolicy,
) -> Command<
    (
        Word<'w>,
        K,
        StreamDeletionPolicy,
        (Word<'w>, CountedIds<'a, I>),
    ),
    Vec<XDelExStatusCode>,
>
    ensures { result ≡ codes "XDELEX" ∷ K.args key ++ policy_word (policy_of policy)
        ∷ codes "IDS" ∷ decimal (length (all ids.entry)) ∷ flat_map I.args (all ids.entry) }
{
    Command::new((Word("XDELEX"), key, policy, (Word("IDS"), CountedIds(ids))))
}
