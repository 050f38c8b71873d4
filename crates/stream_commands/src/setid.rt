//! What a stream records about its entries: XSETID.
ghost use Rattle.std.specs.Prelude.{◌≡◌, [], ◌∷◌, ◌++◌, codes, decimal};

use crate::command::{Command, Word};
use redis_resp::ToSingleRedisArg;

/// `XSETID key last-id`: the stream generates ids after `last_id` from now on. The reply is `OK`;
/// the server refuses an id below that of the last entry, and refuses if the stream does not exist.
///
/// ```text
/// xsetid("orders", "9-0")                         // XSETID orders 9-0
/// ```
pub fn xsetid<'w, K: ToSingleRedisArg, I: ToSingleRedisArg>(
    key: K,
    last_id: I,
) -> Command<(Word<'w>, K, I), String>
    ensures { result ≡ codes "XSETID" ∷ K.args key ++ I.args last_id }
{
    Command::new((Word("XSETID"), key, last_id))
}

/// `XSETID key last-id ENTRIESADDED entries-added MAXDELETEDID max-deleted-id`: the same, and sets the
/// number of entries added in all, and the highest id of those deleted.
///
/// ```text
/// xsetid_entries_added("orders", "9-0", 9, "4-0")
///                                 // XSETID orders 9-0 ENTRIESADDED 9 MAXDELETEDID 4-0
/// ```
pub fn xsetid_entries_added<'w, K: ToSingleRedisArg, I: ToSingleRedisArg, D: ToSingleRedisArg>(
    key: K,
    last_id: I,
    entries_added: usize,
    max_deleted_id: D,
) -> Command<(Word<'w>, K, I, (Word<'w>, usize), (Word<'w>, D)), String>
    ensures { result ≡ codes "XSETID" ∷ K.args key ++ (I.args last_id
        ++ codes "ENTRIESADDED" ∷ decimal entries_added ∷ codes "MAXDELETEDID"
        ∷ D.args max_deleted_id) }
{
    Command::new((
        Word("XSETID"),
        key,
        last_id,
        (Word("ENTRIESADDED"), entries_added),
        (Word("MAXDELETEDID"), max_deleted_id),
    ))
}
