//! Consumer groups: XGROUP.
ghost use Rattle.std.specs.Prelude.{◌≡◌, [], ◌∷◌, ◌++◌, codes, decimal};

use crate::command::{Command, Word};
use redis_resp::ToSingleRedisArg;

/// `XGROUP CREATE key group id`: creates a group that receives the entries after `id`. The reply
/// is `OK`; the server refuses if the stream does not exist.
///
/// ```text
/// xgroup_create("orders", "g", "$")               // XGROUP CREATE orders g $
/// ```
pub fn xgroup_create<'w, K: ToSingleRedisArg, G: ToSingleRedisArg, I: ToSingleRedisArg>(
    key: K,
    group: G,
    id: I,
) -> Command<(Word<'w>, Word<'w>, K, (G, I)), String>
    ensures { result ≡ codes "XGROUP" ∷ codes "CREATE"
        ∷ K.args key ++ (G.args group ++ I.args id) }
{
    Command::new((Word("XGROUP"), Word("CREATE"), key, (group, id)))
}

/// `XGROUP CREATE key group id MKSTREAM`: the same, and creates the stream if it does not exist.
///
/// ```text
/// xgroup_create_mkstream("orders", "g", "$")      // XGROUP CREATE orders g $ MKSTREAM
/// ```
pub fn xgroup_create_mkstream<'w, K: ToSingleRedisArg, G: ToSingleRedisArg, I: ToSingleRedisArg>(
    key: K,
    group: G,
    id: I,
) -> Command<(Word<'w>, Word<'w>, K, G, I, Word<'w>), String>
    ensures { result ≡ codes "XGROUP" ∷ codes "CREATE"
        ∷ K.args key ++ (G.args group ++ (I.args id ++ codes "MKSTREAM" ∷ [])) }
{
    Command::new((
        Word("XGROUP"),
        Word("CREATE"),
        key,
        group,
        id,
        Word("MKSTREAM"),
    ))
}

/// `XGROUP CREATECONSUMER key group consumer`: creates a consumer. The reply is the number created,
/// 0 if the group already has it.
///
/// ```text
/// xgroup_createconsumer("orders", "g", "c")       // XGROUP CREATECONSUMER orders g c
/// ```
pub fn xgroup_createconsumer<'w, K: ToSingleRedisArg, G: ToSingleRedisArg, C: ToSingleRedisArg>(
    key: K,
    group: G,
    consumer: C,
) -> Command<(Word<'w>, Word<'w>, K, (G, C)), usize>
    ensures { result ≡ codes "XGROUP" ∷ codes "CREATECONSUMER"
        ∷ K.args key ++ (G.args group ++ C.args consumer) }
{
    Command::new((
        Word("XGROUP"),
        Word("CREATECONSUMER"),
        key,
        (group, consumer),
    ))
}

/// `XGROUP SETID key group id`: the group receives the entries after `id` from now on. The reply
/// is `OK`.
///
/// ```text
/// xgroup_setid("orders", "g", "0-0")              // XGROUP SETID orders g 0-0
/// ```
pub fn xgroup_setid<'w, K: ToSingleRedisArg, G: ToSingleRedisArg, I: ToSingleRedisArg>(
    key: K,
    group: G,
    id: I,
) -> Command<(Word<'w>, Word<'w>, K, (G, I)), String>
    ensures { result ≡ codes "XGROUP" ∷ codes "SETID" ∷ K.args key ++ (G.args group ++ I.args id) }
{
    Command::new((Word("XGROUP"), Word("SETID"), key, (group, id)))
}

/// `XGROUP DESTROY key group`: removes a group and its pending entries. The reply is the number of
/// groups removed, 0 if it did not exist.
///
/// ```text
/// xgroup_destroy("orders", "g")                   // XGROUP DESTROY orders g
/// ```
pub fn xgroup_destroy<'w, K: ToSingleRedisArg, G: ToSingleRedisArg>(
    key: K,
    group: G,
) -> Command<(Word<'w>, Word<'w>, K, G), usize>
    ensures { result ≡ codes "XGROUP" ∷ codes "DESTROY" ∷ K.args key ++ G.args group }
{
    Command::new((Word("XGROUP"), Word("DESTROY"), key, group))
}

/// `XGROUP DELCONSUMER key group consumer`: removes a consumer and its pending entries. The
/// reply is the number of entries that were pending.
///
/// ```text
/// xgroup_delconsumer("orders", "g", "c")          // XGROUP DELCONSUMER orders g c
/// ```
pub fn xgroup_delconsumer<'w, K: ToSingleRedisArg, G: ToSingleRedisArg, C: ToSingleRedisArg>(
    key: K,
    group: G,
    consumer: C,
) -> Command<(Word<'w>, Word<'w>, K, (G, C)), usize>
    ensures { result ≡ codes "XGROUP" ∷ codes "DELCONSUMER"
        ∷ K.args key ++ (G.args group ++ C.args consumer) }
{
    Command::new((Word("XGROUP"), Word("DELCONSUMER"), key, (group, consumer)))
}

/// `XGROUP CREATE key group id ENTRIESREAD entries-read`: creates a group that receives the entries
/// after `id`. The argument gives the number of entries up to there, so that the server can compute
/// the group's lag. The reply is `OK`; the server refuses if the stream does not exist.
///
/// ```text
/// xgroup_create_entries_read("orders", "g", "3-0", 3)
///                                                 // XGROUP CREATE orders g 3-0 ENTRIESREAD 3
/// ```
pub fn xgroup_create_entries_read<
    'w,
    K: ToSingleRedisArg,
    G: ToSingleRedisArg,
    I: ToSingleRedisArg,
>(
    key: K,
    group: G,
    id: I,
    entries_read: usize,
) -> Command<(Word<'w>, Word<'w>, K, G, I, (Word<'w>, usize)), String>
    ensures { result ≡ codes "XGROUP" ∷ codes "CREATE" ∷ K.args key ++ (G.args group
        ++ (I.args id ++ codes "ENTRIESREAD" ∷ decimal entries_read ∷ [])) }
{
    Command::new((
        Word("XGROUP"),
        Word("CREATE"),
        key,
        group,
        id,
        (Word("ENTRIESREAD"), entries_read),
    ))
}

/// `XGROUP SETID key group id ENTRIESREAD entries-read`: the group receives the entries after `id`
/// from now on; the argument gives the number of entries up to there. The reply is `OK`.
///
/// ```text
/// xgroup_setid_entries_read("orders", "g", "0-0", 0)
///                                                 // XGROUP SETID orders g 0-0 ENTRIESREAD 0
/// ```
pub fn xgroup_setid_entries_read<'w, K: ToSingleRedisArg, G: ToSingleRedisArg, I: ToSingleRedisArg>(
    key: K,
    group: G,
    id: I,
    entries_read: usize,
) -> Command<(Word<'w>, Word<'w>, K, G, I, (Word<'w>, usize)), String>
    ensures { result ≡ codes "XGROUP" ∷ codes "SETID" ∷ K.args key ++ (G.args group
        ++ (I.args id ++ codes "ENTRIESREAD" ∷ decimal entries_read ∷ [])) }
{
    Command::new((
        Word("XGROUP"),
        Word("SETID"),
        key,
        group,
        id,
        (Word("ENTRIESREAD"), entries_read),
    ))
}
