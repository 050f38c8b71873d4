//! Entries between two ids, and the number of entries: XRANGE, XREVRANGE, XLEN.
ghost use Rattle.std.specs.Prelude.{◌≡◌, [], ◌∷◌, ◌++◌, codes, decimal};

use crate::command::{Command, Word};
use redis_resp::ToSingleRedisArg;
use redis_streams::StreamRangeReply;

/// `XLEN key`: the number of entries, 0 if the stream does not exist.
///
/// ```text
/// xlen("orders")                                  // XLEN orders
/// ```
pub fn xlen<'w, K: ToSingleRedisArg>(key: K) -> Command<(Word<'w>, K), usize>
    ensures { result ≡ codes "XLEN" ∷ K.args key }
{
    Command::new((Word("XLEN"), key))
}

/// `XRANGE key start end`: the entries from `start` to `end`, both included, in ascending order.
///
/// ```text
/// xrange("orders", "1-0", "+")                    // XRANGE orders 1-0 +
/// ```
pub fn xrange<'w, K: ToSingleRedisArg, S: ToSingleRedisArg, E: ToSingleRedisArg>(
    key: K,
    start: S,
    end: E,
) -> Command<(Word<'w>, K, S, E), StreamRangeReply>
    ensures { result ≡ codes "XRANGE" ∷ K.args key ++ (S.args start ++ E.args end) }
{
    Command::new((Word("XRANGE"), key, start, end))
}

/// `XRANGE key - +`: all entries, in ascending order.
///
/// ```text
/// xrange_all("orders")                            // XRANGE orders - +
/// ```
pub fn xrange_all<'w, K: ToSingleRedisArg>(
    key: K,
) -> Command<(Word<'w>, K, Word<'w>, Word<'w>), StreamRangeReply>
    ensures { result ≡ codes "XRANGE" ∷ K.args key ++ codes "-" ∷ codes "+" ∷ [] }
{
    Command::new((Word("XRANGE"), key, Word("-"), Word("+")))
}

/// `XRANGE key start end COUNT n`: the same as `xrange`, with at most `count` entries.
///
/// ```text
/// xrange_count("orders", "-", "+", 10)            // XRANGE orders - + COUNT 10
/// ```
pub fn xrange_count<'w, K: ToSingleRedisArg, S: ToSingleRedisArg, E: ToSingleRedisArg>(
    key: K,
    start: S,
    end: E,
    count: usize,
) -> Command<(Word<'w>, K, S, E, Word<'w>, usize), StreamRangeReply>
    ensures { result ≡ codes "XRANGE" ∷ K.args key
        ++ (S.args start ++ (E.args end ++ codes "COUNT" ∷ decimal count ∷ [])) }
{
    Command::new((Word("XRANGE"), key, start, end, Word("COUNT"), count))
}

/// `XREVRANGE key end start`: the entries from `end` back to `start`, both included, in descending
/// order.
///
/// ```text
/// xrevrange("orders", "+", "1-0")                 // XREVRANGE orders + 1-0
/// ```
pub fn xrevrange<'w, K: ToSingleRedisArg, E: ToSingleRedisArg, S: ToSingleRedisArg>(
    key: K,
    end: E,
    start: S,
) -> Command<(Word<'w>, K, E, S), StreamRangeReply>
    ensures { result ≡ codes "XREVRANGE" ∷ K.args key ++ (E.args end ++ S.args start) }
{
    Command::new((Word("XREVRANGE"), key, end, start))
}

/// `XREVRANGE key + -`: all entries, in descending order.
///
/// ```text
/// xrevrange_all("orders")                         // XREVRANGE orders + -
/// ```
pub fn xrevrange_all<'w, K: ToSingleRedisArg>(
    key: K,
) -> Command<(Word<'w>, K, Word<'w>, Word<'w>), StreamRangeReply>
    ensures { result ≡ codes "XREVRANGE" ∷ K.args key ++ codes "+" ∷ codes "-" ∷ [] }
{
    Command::new((Word("XREVRANGE"), key, Word("+"), Word("-")))
}

/// `XREVRANGE key end start COUNT n`: the same as `xrevrange`, with at most `count` entries.
///
/// ```text
/// xrevrange_count("orders", "+", "-", 1)          // XREVRANGE orders + - COUNT 1
/// ```
pub fn xrevrange_count<'w, K: ToSingleRedisArg, E: ToSingleRedisArg, S: ToSingleRedisArg>(
    key: K,
    end: E,
    start: S,
    count: usize,
) -> Command<(Word<'w>, K, E, S, Word<'w>, usize), StreamRangeReply>
    ensures { result ≡ codes "XREVRANGE" ∷ K.args key
        ++ (E.args end ++ (S.args start ++ codes "COUNT" ∷ decimal count ∷ [])) }
{
    Command::new((Word("XREVRANGE"), key, end, start, Word("COUNT"), count))
}
