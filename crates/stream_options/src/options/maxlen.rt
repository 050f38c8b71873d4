//! The length that a stream is trimmed to.
ghost use Rattle.stream_options.specs.Maxlen.{maxlen_sentence};
ghost use Rattle.stream_options.specs.View.{maxlen_of};

use crate::options::trim::StreamTrimmingMode;
use redis_args::{RedisWrite, ToRedisArgs, WriteError};

/// The maximum number of entries of a stream: `MAXLEN = n` or `MAXLEN ~ n` of `XADD` and `XTRIM`.
#[derive(Clone, Copy, Debug, PartialEq, Eq)]
pub enum StreamMaxlen {
    /// `MAXLEN =`: exactly this number of entries.
    Equals(usize),
    /// `MAXLEN ~`: this number of entries, or some more if that is more efficient.
    Approx(usize),
}

impl ToRedisArgs for StreamMaxlen {
    ghost args = { λ maxlen. maxlen_sentence (maxlen_of maxlen) };

    fn write_redis_args<W: RedisWrite>(&self, out: &mut W) -> Result<(), WriteError> {
        match self {
            StreamMaxlen::Equals(count) => {
                ("MAXLEN", StreamTrimmingMode::Exact, count).write_redis_args(out)
            }
            StreamMaxlen::Approx(count) => {
                ("MAXLEN", StreamTrimmingMode::Approx, count).write_redis_args(out)
            }
        }
    }
}
