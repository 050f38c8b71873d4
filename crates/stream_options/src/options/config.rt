//! The options of `XCFGSET`: how a stream detects duplicate entries.
ghost use Rattle.std.specs.Prelude.{◌≡◌, OkIff, IfOk, IfErr};
ghost use Rattle.redis_args.specs.Writer.{Wrote};
ghost use Rattle.stream_options.specs.Config.{IsDuration, IsMaxsize, IsConfig, config_sentence};

use crate::options::clause::ValueClause;
use redis_args::{RedisWrite, ToRedisArgs, WriteError};
use std::marker::Model;
use thiserror::Error;

/// `IDMP-DURATION`: the shortest time, in seconds, that a stream can be set to keep an id.
pub const IDMP_DURATION_MIN: u32 = 1;
/// `IDMP-DURATION`: the longest time, in seconds, that a stream can be set to keep an id: a day.
pub const IDMP_DURATION_MAX: u32 = 86400;
/// `IDMP-MAXSIZE`: the fewest ids of a producer that a stream can be set to keep.
pub const IDMP_MAXSIZE_MIN: u16 = 1;
/// `IDMP-MAXSIZE`: the most ids of a producer that a stream can be set to keep.
pub const IDMP_MAXSIZE_MAX: u16 = 10000;

// The Redis documentation gives these four numbers.
const _: () = prove!(IDMP_DURATION_MIN == 1);

const _: () = prove!(IDMP_DURATION_MAX == 86400);

const _: () = prove!(IDMP_MAXSIZE_MIN == 1);

const _: () = prove!(IDMP_MAXSIZE_MAX == 10000);

/// A number outside the range of its setting.
#[derive(Debug, Drop, PartialEq, Eq, Error)]
pub enum ConfigError {
    /// Seconds for `IDMP-DURATION` outside `IDMP_DURATION_MIN..=IDMP_DURATION_MAX`.
    #[error("IDMP-DURATION must be between {min} and {max} seconds, got: {0}", min = IDMP_DURATION_MIN, max = IDMP_DURATION_MAX)]
    Seconds(u32),
    /// A number of entries for `IDMP-MAXSIZE` outside `IDMP_MAXSIZE_MIN..=IDMP_MAXSIZE_MAX`.
    #[error("IDMP-MAXSIZE must be between {min} and {max} entries, got: {0}", min = IDMP_MAXSIZE_MIN, max = IDMP_MAXSIZE_MAX)]
    Maxsize(u16),
}

/// The options of `XCFGSET`: `[IDMP-DURATION d] [IDMP-MAXSIZE m]`, at least one of them, and each
/// in its range.
#[derive(Debug, Drop)]
pub struct StreamConfigOptions {
    seconds: Option<u32>,
    maxsize: Option<u16>,
}

impl Model for StreamConfigOptions {
    ghost use Rattle.stream_options.specs.Config.{Config, IsConfig};

    ghost Value = { Config };

    ghost view = { λ options. record { seconds = options.seconds; maxsize = options.maxsize } };

    ghost invariant = { λ options. IsConfig (record {
      seconds = options.seconds;
      maxsize = options.maxsize;
    }) };
}

impl StreamConfigOptions {
    /// `IDMP-DURATION`: ids are kept for `seconds`. The error is `Seconds` if it is not in 1..=86400.
    pub fn with_idempotency_seconds(seconds: u32) -> Result<Self, ConfigError>
        ensures ok { OkIff result (IsDuration seconds) (record {
          seconds = Some seconds;
          maxsize = None;
        }) }
        ensures refused { IfErr result (λ error. error ≡ ConfigError.Seconds seconds) }
    {
        Ok(StreamConfigOptions {
            seconds: Some(seconds_in_range(seconds)?),
            maxsize: None,
        })
    }

    /// `IDMP-MAXSIZE`: the ids of `maxsize` entries are kept for each producer. The error is `Maxsize`
    /// if it is not in 1..=10000.
    pub fn with_idempotency_maxsize(maxsize: u16) -> Result<Self, ConfigError>
        ensures ok { OkIff result (IsMaxsize maxsize) (record {
          seconds = None;
          maxsize = Some maxsize;
        }) }
        ensures refused { IfErr result (λ error. error ≡ ConfigError.Maxsize maxsize) }
    {
        Ok(StreamConfigOptions {
            seconds: None,
            maxsize: Some(maxsize_in_range(maxsize)?),
        })
    }

    /// `IDMP-DURATION`: ids are kept for `seconds`. It replaces any earlier duration.
    ///
    /// The error is `Seconds` if it is not in 1..=86400; the options are then dropped.
    pub fn idempotency_seconds(mut self, seconds: u32) -> Result<Self, ConfigError>
        ensures ok { OkIff result (IsDuration seconds) (record self { seconds = Some seconds }) }
        ensures valid { IfOk result IsConfig }
        ensures refused { IfErr result (λ error. error ≡ ConfigError.Seconds seconds) }
    {
        self.seconds = Some(seconds_in_range(seconds)?);
        Ok(self)
    }

    /// `IDMP-MAXSIZE`: the ids of `maxsize` entries are kept for each producer. It replaces any earlier
    /// number.
    ///
    /// The error is `Maxsize` if it is not in 1..=10000; the options are then dropped.
    pub fn idempotency_maxsize(mut self, maxsize: u16) -> Result<Self, ConfigError>
        ensures ok { OkIff result (IsMaxsize maxsize) (record self { maxsize = Some maxsize }) }
        ensures valid { IfOk result IsConfig }
        ensures refused { IfErr result (λ error. error ≡ ConfigError.Maxsize maxsize) }
    {
        self.maxsize = Some(maxsize_in_range(maxsize)?);
        Ok(self)
    }
}

/// Returns the seconds if they are in range.
fn seconds_in_range(seconds: u32) -> Result<u32, ConfigError>
    ensures ok { OkIff result (IsDuration seconds) seconds }
    ensures refused { IfErr result (λ error. error ≡ ConfigError.Seconds seconds) }
{
    if (IDMP_DURATION_MIN..=IDMP_DURATION_MAX).contains(&seconds) {
        Ok(seconds)
    } else {
        Err(ConfigError::Seconds(seconds))
    }
}

/// Returns the number of entries if it is in range.
fn maxsize_in_range(maxsize: u16) -> Result<u16, ConfigError>
    ensures ok { OkIff result (IsMaxsize maxsize) maxsize }
    ensures refused { IfErr result (λ error. error ≡ ConfigError.Maxsize maxsize) }
{
    if (IDMP_MAXSIZE_MIN..=IDMP_MAXSIZE_MAX).contains(&maxsize) {
        Ok(maxsize)
    } else {
        Err(ConfigError::Maxsize(maxsize))
    }
}

impl ToRedisArgs for StreamConfigOptions {
    ghost args = { config_sentence };

    /// At least one setting is written, and each is in its range.
    fn write_redis_args<W: RedisWrite>(&self, out: &mut W) -> Result<(), WriteError>
        ensures written { Wrote result (W.written out.old) (config_sentence self.now)
            (W.written out.new) (W.may_refuse out.new) }
        ensures valid { IsConfig self.now }
    {
        (
            ValueClause("IDMP-DURATION", &self.seconds),
            ValueClause("IDMP-MAXSIZE", &self.maxsize),
        )
            .write_redis_args(out)
    }
}
