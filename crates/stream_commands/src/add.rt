//! Adding entries: XADD.
ghost use Rattle.std.specs.Prelude.{◌≡◌, ◌∷◌, ◌++◌, codes};
ghost use Rattle.stream_options.specs.Add.{add_sentence};
ghost use Rattle.stream_options.specs.Maxlen.{maxlen_sentence};
ghost use Rattle.stream_options.specs.View.{maxlen_of};

use crate::command::{Command, Word};
use crate::fields::ToFieldArgs;
use redis_resp::ToSingleRedisArg;
use stream_options::{StreamAddOptions, StreamMaxlen};

/// `XADD key id field value ..`: adds an entry with these fields. The reply is its id, which the
/// server generates if `id` is `*`.
///
/// ```text
/// xadd("orders", "*", ("item", "tea"))            // XADD orders * item tea
/// ```
pub fn xadd<'w, K: ToSingleRedisArg, I: ToSingleRedisArg, F: ToFieldArgs>(
    key: K,
    id: I,
    fields: F,
) -> Command<(Word<'w>, K, I, F), String>
    ensures { result ≡ codes "XADD" ∷ K.args key ++ (I.args id ++ F.args fields) }
{
    Command::new((Word("XADD"), key, id, fields))
}

/// `XADD key [options] id field value ..`: adds an entry with these fields and options. The reply is
/// its id, or `None` if the options have `NOMKSTREAM` and the stream does not exist.
///
/// ```text
/// let options = StreamAddOptions::default().nomkstream();
/// xadd_options("orders", "*", ("item", "tea"), &options)
///                                                 // XADD orders NOMKSTREAM * item tea
/// ```
pub fn xadd_options<'w, 'a, K: ToSingleRedisArg, I: ToSingleRedisArg, F: ToFieldArgs>(
    key: K,
    id: I,
    fields: F,
    options: &'a StreamAddOptions,
) -> Command<(Word<'w>, K, &'a StreamAddOptions, (I, F)), Option<String>>
    ensures { result
        ≡ codes "XADD" ∷ K.args key ++ (add_sentence options.now ++ (I.args id ++ F.args fields)) }
{
    Command::new((Word("XADD"), key, options, (id, fields)))
}

/// `XADD key MAXLEN mode n id field value ..`: adds an entry with these fields, and trims the stream
/// to this length. The reply is its id.
///
/// ```text
/// xadd_maxlen("orders", StreamMaxlen::Approx(1000), "*", ("item", "tea"))
///                                                 // XADD orders MAXLEN ~ 1000 * item tea
/// ```
pub fn xadd_maxlen<'w, K: ToSingleRedisArg, I: ToSingleRedisArg, F: ToFieldArgs>(
    key: K,
    maxlen: StreamMaxlen,
    id: I,
    fields: F,
) -> Command<(Word<'w>, K, StreamMaxlen, (I, F)), String>
    ensures { result ≡ codes "XADD" ∷ K.args key
        ++ (maxlen_sentence (maxlen_of maxlen) ++ (I.args id ++ F.args fields)) }
{
    Command::new((Word("XADD"), key, maxlen, (id, fields)))
}
