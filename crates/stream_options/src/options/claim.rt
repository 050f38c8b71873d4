//! The options of `XCLAIM`, which claims entries by their ids.
ghost use Rattle.std.specs.Prelude.{◌≡◌, true, string_bytes};
ghost use Rattle.stream_options.specs.Claim.{default_claim, claim_sentence};

use crate::options::clause::{FlagClause, ValueClause};
use redis_args::{RedisWrite, ToRedisArgs, WriteError};
use std::marker::Model;

/// The options of `XCLAIM`: `[IDLE n] [TIME n] [RETRYCOUNT n] [FORCE] [JUSTID] [LASTID id]`, written
/// in this order whatever the order of the calls. The default has no setting, and writes no argument.
#[derive(Debug, Drop)]
pub struct StreamClaimOptions {
    idle: Option<usize>,
    time: Option<usize>,
    retry: Option<usize>,
    force: bool,
    justid: bool,
    lastid: Option<String>,
}

impl Model for StreamClaimOptions {
    ghost use Rattle.std.specs.Prelude.{string_bytes, option_map};
    ghost use Rattle.stream_options.specs.Claim.{Claim};

    ghost Value = { Claim };

    ghost view = { λ options. record {
      idle = options.idle;
      time = options.time;
      retry = options.retry;
      force = options.force;
      justid = options.justid;
      lastid = option_map string_bytes options.lastid;
    } };
}

impl Default for StreamClaimOptions {
    ghost is_default = { λ options. options ≡ default_claim };

    fn default() -> StreamClaimOptions {
        StreamClaimOptions {
            idle: None,
            time: None,
            retry: None,
            force: false,
            justid: false,
            lastid: None,
        }
    }
}

impl StreamClaimOptions {
    /// Returns whether `JUSTID` is set: the reply then has only ids.
    pub fn has_justid(&self) -> bool
        ensures { result ≡ self.now.justid }
    {
        self.justid
    }

    /// `IDLE`: sets the idle time of the entries, in milliseconds.
    pub fn idle(mut self, milliseconds: usize) -> Self
        ensures { result ≡ record self { idle = Some milliseconds } }
    {
        self.idle = Some(milliseconds);
        self
    }

    /// `TIME`: sets the last delivery time of the entries, in milliseconds of Unix time.
    pub fn time(mut self, milliseconds: usize) -> Self
        ensures { result ≡ record self { time = Some milliseconds } }
    {
        self.time = Some(milliseconds);
        self
    }

    /// `RETRYCOUNT`: sets the delivery count of the entries.
    pub fn retry(mut self, count: usize) -> Self
        ensures { result ≡ record self { retry = Some count } }
    {
        self.retry = Some(count);
        self
    }

    /// `FORCE`: an entry that is not pending for any consumer is claimed too.
    pub fn with_force(mut self) -> Self
        ensures { result ≡ record self { force = true } }
    {
        self.force = true;
        self
    }

    /// `JUSTID`: the reply has only ids, and the claim is not counted as a delivery.
    pub fn with_justid(mut self) -> Self
        ensures { result ≡ record self { justid = true } }
    {
        self.justid = true;
        self
    }

    /// `LASTID`: gives this id as the last delivered id of the group.
    pub fn with_lastid(mut self, lastid: String) -> Self
        ensures { result ≡ record self { lastid = Some (string_bytes lastid) } }
    {
        self.lastid = Some(lastid);
        self
    }
}

impl ToRedisArgs for StreamClaimOptions {
    ghost args = { claim_sentence };

    fn write_redis_args<W: RedisWrite>(&self, out: &mut W) -> Result<(), WriteError> {
        (
            ValueClause("IDLE", &self.idle),
            ValueClause("TIME", &self.time),
            ValueClause("RETRYCOUNT", &self.retry),
            FlagClause("FORCE", self.force),
            FlagClause("JUSTID", self.justid),
            ValueClause("LASTID", &self.lastid),
        )
            .write_redis_args(out)
    }
}
