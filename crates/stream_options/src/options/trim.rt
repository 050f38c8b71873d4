//! The options of trimming.
ghost use Rattle.std.specs.Prelude.{◌≡◌, [], ◌∷◌, string_bytes};
ghost use Rattle.stream_options.specs.Trim.{max_len, min_id, unlimited, mode_word, strategy_sentence, trim_sentence};
ghost use Rattle.stream_options.specs.View.{mode_of, strategy_of, policy_of};

use crate::options::clause::ValueClause;
use crate::options::policy::StreamDeletionPolicy;
use redis_args::{RedisWrite, ToRedisArgs, WriteError};
use std::marker::Model;

/// How exactly a stream is trimmed: the word `=` or `~`.
#[derive(Debug, Drop)]
pub enum StreamTrimmingMode {
    /// `=`: to exactly the bound.
    Exact,
    /// `~`: to approximately the bound, if that is more efficient.
    Approx,
}

impl ToRedisArgs for StreamTrimmingMode {
    ghost args = { λ mode. mode_word (mode_of mode) ∷ [] };

    fn write_redis_args<W: RedisWrite>(&self, out: &mut W) -> Result<(), WriteError> {
        match self {
            StreamTrimmingMode::Exact => out.write_arg(b"="),
            StreamTrimmingMode::Approx => out.write_arg(b"~"),
        }
    }
}

/// How a stream is trimmed: `MAXLEN mode n [LIMIT l]` or `MINID mode id [LIMIT l]` of `XTRIM` and `XADD`.
///
/// The last member is `LIMIT`: the maximum number of entries that one call removes.
#[derive(Debug, Drop)]
pub enum StreamTrimStrategy {
    /// `MAXLEN`: the mode, the number of entries to keep, the newest ones, and the limit.
    MaxLen(StreamTrimmingMode, usize, Option<usize>),
    /// `MINID`: the mode, the id below which entries are removed, and the limit.
    MinId(StreamTrimmingMode, String, Option<usize>),
}

impl StreamTrimStrategy {
    /// `MAXLEN`: at most `max_entries` entries are kept; no limit is set yet.
    pub fn maxlen(trim: StreamTrimmingMode, max_entries: usize) -> Self
        ensures { strategy_of result ≡ unlimited (max_len (mode_of trim) max_entries) }
    {
        StreamTrimStrategy::MaxLen(trim, max_entries, None)
    }

    /// `MINID`: entries with ids from `stream_id` on are kept; no limit is set yet.
    pub fn minid(trim: StreamTrimmingMode, stream_id: String) -> Self
        ensures { strategy_of result ≡ unlimited (min_id (mode_of trim) (string_bytes stream_id)) }
    {
        StreamTrimStrategy::MinId(trim, stream_id, None)
    }

    /// `LIMIT`: one call removes at most `limit` entries. It replaces any earlier limit.
    pub fn limit(self, limit: usize) -> Self
        ensures { strategy_of result ≡ record (strategy_of self) { limit = Some limit } }
    {
        match self {
            StreamTrimStrategy::MaxLen(mode, max_entries, _) => {
                StreamTrimStrategy::MaxLen(mode, max_entries, Some(limit))
            }
            StreamTrimStrategy::MinId(mode, stream_id, _) => {
                StreamTrimStrategy::MinId(mode, stream_id, Some(limit))
            }
        }
    }
}

impl ToRedisArgs for StreamTrimStrategy {
    ghost args = { λ strategy. strategy_sentence (strategy_of strategy) };

    fn write_redis_args<W: RedisWrite>(&self, out: &mut W) -> Result<(), WriteError> {
        match self {
            StreamTrimStrategy::MaxLen(mode, max_entries, limit) => {
                ("MAXLEN", mode, max_entries, ValueClause("LIMIT", limit)).write_redis_args(out)
            }
            StreamTrimStrategy::MinId(mode, stream_id, limit) => {
                ("MINID", mode, stream_id, ValueClause("LIMIT", limit)).write_redis_args(out)
            }
        }
    }
}

/// The options of `XTRIM`: `strategy [policy]`, and nothing else. The policy says what is done with
/// the references of consumer groups to trimmed entries.
#[derive(Debug, Drop)]
pub struct StreamTrimOptions {
    strategy: StreamTrimStrategy,
    policy: Option<StreamDeletionPolicy>,
}

impl Model for StreamTrimOptions {
    ghost use Rattle.std.specs.Prelude.{option_map};
    ghost use Rattle.stream_options.specs.Trim.{Trim};
    ghost use Rattle.stream_options.specs.View.{strategy_of, policy_of};

    ghost Value = { Trim };

    ghost view = { λ options. record {
      strategy = strategy_of options.strategy;
      policy = option_map policy_of options.policy;
    } };
}

impl StreamTrimOptions {
    /// `MAXLEN`: at most `max_entries` entries are kept; no limit and no policy is set yet.
    pub fn maxlen(mode: StreamTrimmingMode, max_entries: usize) -> Self
        ensures strategy { result.strategy ≡ unlimited (max_len (mode_of mode) max_entries) }
        ensures policy { result.policy ≡ None }
    {
        StreamTrimOptions {
            strategy: StreamTrimStrategy::maxlen(mode, max_entries),
            policy: None,
        }
    }

    /// `MINID`: entries with ids from `stream_id` on are kept; no limit and no policy is set yet.
    pub fn minid(mode: StreamTrimmingMode, stream_id: String) -> Self
        ensures strategy { result.strategy
            ≡ unlimited (min_id (mode_of mode) (string_bytes stream_id)) }
        ensures policy { result.policy ≡ None }
    {
        StreamTrimOptions {
            strategy: StreamTrimStrategy::minid(mode, stream_id),
            policy: None,
        }
    }

    /// `LIMIT`: one call removes at most `limit` entries. It replaces any earlier limit.
    pub fn limit(mut self, limit: usize) -> Self
        ensures { result ≡ record self { strategy = record self.strategy { limit = Some limit } } }
    {
        self.strategy = self.strategy.limit(limit);
        self
    }

    /// `KEEPREF`, `DELREF` or `ACKED`: what is done with the references of consumer groups to trimmed
    /// entries. It replaces any earlier policy.
    pub fn set_deletion_policy(mut self, deletion_policy: StreamDeletionPolicy) -> Self
        ensures { result ≡ record self { policy = Some (policy_of deletion_policy) } }
    {
        self.policy = Some(deletion_policy);
        self
    }
}

impl ToRedisArgs for StreamTrimOptions {
    ghost args = { trim_sentence };

    fn write_redis_args<W: RedisWrite>(&self, out: &mut W) -> Result<(), WriteError> {
        (&self.strategy, &self.policy).write_redis_args(out)
    }
}
