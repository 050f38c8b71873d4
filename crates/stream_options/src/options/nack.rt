//! The options of `XNACK`, which returns entries that a consumer did not process.
ghost use Rattle.std.specs.Prelude.{◌≡◌, refl};
ghost use Rattle.stream_options.specs.Nack.{nack_sentence};
ghost use Rattle.stream_options.specs.View.{nack_of};

use redis_args::{RedisWrite, ToRedisArgs, ToSingleRedisArg, WriteError};
use std::marker::Model;

/// Why a consumer returns an entry: the word `SILENT`, `FAIL` or `FATAL` of `XNACK`.
#[derive(Clone, Copy, Debug, PartialEq, Eq)]
pub enum StreamNackMode {
    /// `SILENT`: it reports no reason, and the delivery is not counted.
    Silent,
    /// `FAIL`: processing failed, and may be retried.
    Fail,
    /// `FATAL`: the entry cannot be processed.
    Fatal,
}

impl ToRedisArgs for StreamNackMode {
    ghost args = { λ mode. nack_sentence (nack_of mode) };

    fn write_redis_args<W: RedisWrite>(&self, out: &mut W) -> Result<(), WriteError> {
        match self {
            StreamNackMode::Silent => out.write_arg(b"SILENT"),
            StreamNackMode::Fail => out.write_arg(b"FAIL"),
            StreamNackMode::Fatal => out.write_arg(b"FATAL"),
        }
    }
}

impl ToSingleRedisArg for StreamNackMode {
    ghost single = { λ _. refl };
}

/// The options of `XNACK`: its mode.
#[derive(Debug, Drop)]
pub struct StreamNackOptions {
    mode: StreamNackMode,
}

impl Model for StreamNackOptions {
    ghost use Rattle.stream_options.specs.Nack.{Nack};
    ghost use Rattle.stream_options.specs.View.{nack_of};

    ghost Value = { Nack };

    ghost view = { λ options. nack_of options.mode };
}

impl StreamNackOptions {
    /// `SILENT`, `FAIL` or `FATAL`: returns options with this mode.
    pub fn new(mode: StreamNackMode) -> Self
        ensures { result ≡ nack_of mode }
    {
        StreamNackOptions { mode }
    }
}

impl ToRedisArgs for StreamNackOptions {
    ghost args = { nack_sentence };

    fn write_redis_args<W: RedisWrite>(&self, out: &mut W) -> Result<(), WriteError> {
        self.mode.write_redis_args(out)
    }
}
