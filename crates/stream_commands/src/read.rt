//! Reading entries from streams: XREAD and XREADGROUP.
ghost use Rattle.std.specs.Prelude.{◌≡◌, ◌∷◌, ◌++◌, codes};
ghost use Rattle.std.specs.List.{flat_map};
ghost use Rattle.stream_commands.specs.NonEmpty.{all};
ghost use Rattle.stream_commands.specs.Read.{read_word};
ghost use Rattle.stream_options.specs.Read.{read_sentence};

use crate::at_least_one::AtLeastOne;
use crate::command::{Command, Word};
use crate::streams::Streams;
use redis_resp::ToSingleRedisArg;
use redis_streams::StreamReadReply;
use stream_options::StreamReadOptions;

/// `XREAD STREAMS key .. id ..`: the entries after the given id of each stream. The reply is `None`
/// if there are none.
///
/// ```text
/// xread(AtLeastOne::one(&("orders", "1-0")))      // XREAD STREAMS orders 1-0
/// ```
pub fn xread<'w, 'a, K: ToSingleRedisArg, I: ToSingleRedisArg>(
    streams: AtLeastOne<'a, (K, I)>,
) -> Command<(Word<'w>, Word<'w>, Streams<'a, K, I>), Option<StreamReadReply>>
    ensures { result ≡ codes "XREAD" ∷ codes "STREAMS"
        ∷ flat_map (λ s. K.args s.0) (all streams.entry)
        ++ flat_map (λ s. I.args s.1) (all streams.entry) }
{
    Command::new((Word("XREAD"), Word("STREAMS"), Streams(streams)))
}

/// `XREAD [options] STREAMS key .. id ..`: the entries after the given id of each stream. It is
/// `XREADGROUP` instead of `XREAD` exactly if the options have a group, which they write as
/// `GROUP g c`. The reply is `None` if none arrived in time.
///
/// ```text
/// let options = StreamReadOptions::default().count(10).group(alloc, "g", "c")?;
/// xread_options(AtLeastOne::one(&("orders", ">")), &options)
///                         // XREADGROUP GROUP g c COUNT 10 STREAMS orders >
/// ```
pub fn xread_options<'w, 'a, K: ToSingleRedisArg, I: ToSingleRedisArg>(
    streams: AtLeastOne<'a, (K, I)>,
    options: &'a StreamReadOptions,
) -> Command<
    (Word<'w>, &'a StreamReadOptions, Word<'w>, Streams<'a, K, I>),
    Option<StreamReadReply>,
>
    ensures { result ≡ read_word options.now ∷ read_sentence options.now ++ codes "STREAMS"
        ∷ flat_map (λ s. K.args s.0) (all streams.entry)
        ++ flat_map (λ s. I.args s.1) (all streams.entry) }
{
    let name = if options.read_only() {
        "XREAD"
    } else {
        "XREADGROUP"
    };
    Command::new((Word(name), options, Word("STREAMS"), Streams(streams)))
}
