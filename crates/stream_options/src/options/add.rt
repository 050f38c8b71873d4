//! The options of `XADD`.
ghost use Rattle.std.specs.Prelude.{◌≡◌, true, string_bytes};
ghost use Rattle.stream_options.specs.Add.{default_add, add_sentence};
ghost use Rattle.stream_options.specs.Idempotency.{manual, automatic};
ghost use Rattle.stream_options.specs.View.{strategy_of, policy_of};

use crate::options::clause::FlagClause;
use crate::options::idempotency::StreamIdempotencyMode;
use crate::options::policy::StreamDeletionPolicy;
use crate::options::trim::StreamTrimStrategy;
use redis_args::{RedisWrite, ToRedisArgs, WriteError};
use std::marker::Model;

/// The options of `XADD`: `[NOMKSTREAM] [policy] [idempotency] [strategy]`, written in this order
/// whatever the order of the calls. The default has no setting, and writes no argument.
#[derive(Debug, Drop)]
pub struct StreamAddOptions {
    nomkstream: bool,
    policy: Option<StreamDeletionPolicy>,
    idempotency: Option<StreamIdempotencyMode>,
    trim: Option<StreamTrimStrategy>,
}

impl Model for StreamAddOptions {
    ghost use Rattle.std.specs.Prelude.{option_map};
    ghost use Rattle.stream_options.specs.Add.{Add};
    ghost use Rattle.stream_options.specs.View.{strategy_of, policy_of, idempotency_of};

    ghost Value = { Add };

    ghost view = { λ options. record {
      nomkstream = options.nomkstream;
      policy = option_map policy_of options.policy;
      idempotency = option_map idempotency_of options.idempotency;
      trim = option_map strategy_of options.trim;
    } };
}

impl Default for StreamAddOptions {
    ghost is_default = { λ options. options ≡ default_add };

    fn default() -> StreamAddOptions {
        StreamAddOptions {
            nomkstream: false,
            policy: None,
            idempotency: None,
            trim: None,
        }
    }
}

impl StreamAddOptions {
    /// `NOMKSTREAM`: a stream that does not exist is not created.
    pub fn nomkstream(mut self) -> Self
        ensures { result ≡ record self { nomkstream = true } }
    {
        self.nomkstream = true;
        self
    }

    /// `MAXLEN` or `MINID`, and `LIMIT`: the stream is trimmed by this strategy. It replaces any
    /// earlier strategy with its limit.
    pub fn trim(mut self, strategy: StreamTrimStrategy) -> Self
        ensures { result ≡ record self { trim = Some (strategy_of strategy) } }
    {
        self.trim = Some(strategy);
        self
    }

    /// `KEEPREF`, `DELREF` or `ACKED`: what is done with the references of consumer groups to trimmed
    /// entries. It replaces any earlier policy.
    pub fn set_deletion_policy(mut self, deletion_policy: StreamDeletionPolicy) -> Self
        ensures { result ≡ record self { policy = Some (policy_of deletion_policy) } }
    {
        self.policy = Some(deletion_policy);
        self
    }

    /// `IDMP`: a duplicate entry is detected by the id that its producer gives it. It replaces any
    /// earlier `idmp` or `idmpauto`.
    pub fn idmp(mut self, producer_id: String, idempotent_id: String) -> Self
        ensures { let mode = manual (string_bytes producer_id) (string_bytes idempotent_id) in
            result ≡ record self { idempotency = Some mode } }
    {
        self.idempotency = Some(StreamIdempotencyMode::Manual {
            producer_id,
            idempotent_id,
        });
        self
    }

    /// `IDMPAUTO`: a duplicate entry is detected by its producer and its content. It replaces any
    /// earlier `idmp` or `idmpauto`.
    pub fn idmpauto(mut self, producer_id: String) -> Self
        ensures { result ≡ record self {
          idempotency = Some (automatic (string_bytes producer_id));
        } }
    {
        self.idempotency = Some(StreamIdempotencyMode::Automatic { producer_id });
        self
    }
}

impl ToRedisArgs for StreamAddOptions {
    ghost args = { add_sentence };

    fn write_redis_args<W: RedisWrite>(&self, out: &mut W) -> Result<(), WriteError> {
        (
            FlagClause("NOMKSTREAM", self.nomkstream),
            &self.policy,
            &self.idempotency,
            &self.trim,
        )
            .write_redis_args(out)
    }
}
