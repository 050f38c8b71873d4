//! What is done with references to an entry that is deleted.
ghost use Rattle.std.specs.Prelude.{◌≡◌, refl};
ghost use Rattle.stream_options.specs.Policy.{policy_sentence};
ghost use Rattle.stream_options.specs.View.{policy_of};
ghost use Rattle.stream_options.specs.declared.options.policy.StreamDeletionPolicy.TheVariants.{KeepRef};

use redis_args::{RedisWrite, ToRedisArgs, ToSingleRedisArg, WriteError};

/// What is done with the references of consumer groups to deleted entries: the word
/// `KEEPREF`, `DELREF` or `ACKED` of `XTRIM`, `XADD`, `XDELEX` and `XACKDEL`.
#[derive(Clone, Debug, Drop)]
pub enum StreamDeletionPolicy {
    /// `KEEPREF`: the references are kept.
    KeepRef,
    /// `DELREF`: the references are removed as well.
    DelRef,
    /// `ACKED`: only entries that all groups have acknowledged are deleted.
    Acked,
}

impl Default for StreamDeletionPolicy {
    ghost is_default = { λ policy. policy ≡ KeepRef };

    fn default() -> StreamDeletionPolicy {
        StreamDeletionPolicy::KeepRef
    }
}

impl ToRedisArgs for StreamDeletionPolicy {
    ghost args = { λ policy. policy_sentence (policy_of policy) };

    fn write_redis_args<W: RedisWrite>(&self, out: &mut W) -> Result<(), WriteError> {
        match self {
            StreamDeletionPolicy::KeepRef => out.write_arg(b"KEEPREF"),
            StreamDeletionPolicy::DelRef => out.write_arg(b"DELREF"),
            StreamDeletionPolicy::Acked => out.write_arg(b"ACKED"),
        }
    }
}

impl ToSingleRedisArg for StreamDeletionPolicy {
    ghost single = { λ _. refl };
}
