//! The options of `XAUTOCLAIM`, which claims idle entries without naming them.
ghost use Rattle.std.specs.Prelude.{◌≡◌, true};
ghost use Rattle.stream_options.specs.AutoClaim.{default_autoclaim, autoclaim_sentence};

use crate::options::clause::{FlagClause, ValueClause};
use redis_args::{RedisWrite, ToRedisArgs, WriteError};
use std::marker::Model;

/// The options of `XAUTOCLAIM`: `[COUNT n] [JUSTID]`. The default has no setting, and writes no
/// argument.
#[derive(Debug, Drop)]
pub struct StreamAutoClaimOptions {
    count: Option<usize>,
    justid: bool,
}

impl Model for StreamAutoClaimOptions {
    ghost use Rattle.stream_options.specs.AutoClaim.{AutoClaim};

    ghost Value = { AutoClaim };

    ghost view = { λ options. record { count = options.count; justid = options.justid } };
}

impl Default for StreamAutoClaimOptions {
    ghost is_default = { λ options. options ≡ default_autoclaim };

    fn default() -> StreamAutoClaimOptions {
        StreamAutoClaimOptions {
            count: None,
            justid: false,
        }
    }
}

impl StreamAutoClaimOptions {
    /// Returns whether `JUSTID` is set: the reply then has only ids.
    pub fn has_justid(&self) -> bool
        ensures { result ≡ self.now.justid }
    {
        self.justid
    }

    /// `COUNT`: at most `count` entries are claimed.
    pub fn count(mut self, count: usize) -> Self
        ensures { result ≡ record self { count = Some count } }
    {
        self.count = Some(count);
        self
    }

    /// `JUSTID`: the reply has only ids, and the claim is not counted as a delivery.
    pub fn with_justid(mut self) -> Self
        ensures { result ≡ record self { justid = true } }
    {
        self.justid = true;
        self
    }
}

impl ToRedisArgs for StreamAutoClaimOptions {
    ghost args = { autoclaim_sentence };

    fn write_redis_args<W: RedisWrite>(&self, out: &mut W) -> Result<(), WriteError> {
        (
            ValueClause("COUNT", &self.count),
            FlagClause("JUSTID", self.justid),
        )
            .write_redis_args(out)
    }
}
