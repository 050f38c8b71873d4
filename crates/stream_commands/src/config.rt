//! How a stream recognizes entries that are sent twice: XCFGSET.
ghost use Rattle.std.specs.Prelude.{◌≡◌, ◌∷◌, ◌++◌, codes};
ghost use Rattle.stream_options.specs.Config.{config_sentence};

use crate::command::{Command, Word};
use redis_resp::ToSingleRedisArg;
use stream_options::StreamConfigOptions;

/// `XCFGSET key options`: sets how long the ids of a producer are kept, and how many of them. The
/// reply is `OK`.
///
/// ```text
/// let options = StreamConfigOptions::with_idempotency_seconds(300)?;
/// xcfgset("orders", &options)                     // XCFGSET orders IDMP-DURATION 300
/// ```
pub fn xcfgset<'w, 'a, K: ToSingleRedisArg>(
    key: K,
    options: &'a StreamConfigOptions,
) -> Command<(Word<'w>, K, &'a StreamConfigOptions), String>
    ensures { result ≡ codes "XCFGSET" ∷ K.args key ++ config_sentence options.now }
{
    Command::new((Word("XCFGSET"), key, options))
}
