//! Trimming streams: XTRIM.
ghost use Rattle.std.specs.Prelude.{◌≡◌, ◌∷◌, ◌++◌, codes};
ghost use Rattle.stream_options.specs.Maxlen.{maxlen_sentence};
ghost use Rattle.stream_options.specs.Trim.{trim_sentence};
ghost use Rattle.stream_options.specs.View.{maxlen_of};

use crate::command::{Command, Word};
use redis_resp::ToSingleRedisArg;
use stream_options::{StreamMaxlen, StreamTrimOptions};

/// `XTRIM key MAXLEN mode n`: trims the stream to this length. The reply is the number of entries
/// removed.
///
/// ```text
/// xtrim("orders", StreamMaxlen::Equals(1000))     // XTRIM orders MAXLEN = 1000
/// ```
pub fn xtrim<'w, K: ToSingleRedisArg>(
    key: K,
    maxlen: StreamMaxlen,
) -> Command<(Word<'w>, K, StreamMaxlen), usize>
    ensures { result ≡ codes "XTRIM" ∷ K.args key ++ maxlen_sentence (maxlen_of maxlen) }
{
    Command::new((Word("XTRIM"), key, maxlen))
}

/// `XTRIM key options`: trims the stream as the options define. The reply is the number of entries
/// removed.
///
/// ```text
/// let options = StreamTrimOptions::maxlen(StreamTrimmingMode::Approx, 1000).limit(50);
/// xtrim_options("orders", &options)               // XTRIM orders MAXLEN ~ 1000 LIMIT 50
/// ```
pub fn xtrim_options<'w, 'a, K: ToSingleRedisArg>(
    key: K,
    options: &'a StreamTrimOptions,
) -> Command<(Word<'w>, K, &'a StreamTrimOptions), usize>
    ensures { result ≡ codes "XTRIM" ∷ K.args key ++ trim_sentence options.now }
{
    Command::new((Word("XTRIM"), key, options))
}
