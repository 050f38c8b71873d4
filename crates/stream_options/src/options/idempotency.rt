//! How a duplicate entry is detected.
ghost use Rattle.std.specs.Prelude.{◌≡◌, IfOk};
ghost use Rattle.stream_options.specs.Idempotency.{idempotency_sentence};
ghost use Rattle.stream_options.specs.View.{idempotency_of};

use redis_args::{RedisWrite, ToRedisArgs, WriteError};
use std::alloc::{AllocError, Global};

/// How a duplicate entry is detected: `IDMP producer idempotent` or `IDMPAUTO producer` of
/// `XADD`.
#[derive(Debug, Drop)]
pub enum StreamIdempotencyMode {
    /// `IDMP`: by an id that its producer gives it.
    Manual {
        /// The producer of the entry.
        producer_id: String,
        /// The id that the producer gives this one entry.
        idempotent_id: String,
    },
    /// `IDMPAUTO`: by an id that the server derives from its content.
    Automatic {
        /// The producer of the entry.
        producer_id: String,
    },
}

impl StreamIdempotencyMode {
    /// Returns a copy with the same ids. It fails only if it runs out of memory.
    pub fn try_clone(&self, alloc: Global) -> Result<Self, AllocError>
        ensures { IfOk result (λ copy. idempotency_of copy ≡ idempotency_of self.now) }
    {
        match self {
            StreamIdempotencyMode::Manual {
                producer_id,
                idempotent_id,
            } => Ok(StreamIdempotencyMode::Manual {
                producer_id: String::from_str(alloc, producer_id)?,
                idempotent_id: String::from_str(alloc, idempotent_id)?,
            }),
            StreamIdempotencyMode::Automatic { producer_id } => {
                Ok(StreamIdempotencyMode::Automatic {
                    producer_id: String::from_str(alloc, producer_id)?,
                })
            }
        }
    }
}

impl ToRedisArgs for StreamIdempotencyMode {
    ghost args = { λ mode. idempotency_sentence (idempotency_of mode) };

    fn write_redis_args<W: RedisWrite>(&self, out: &mut W) -> Result<(), WriteError> {
        match self {
            StreamIdempotencyMode::Manual {
                producer_id,
                idempotent_id,
            } => ("IDMP", producer_id, idempotent_id).write_redis_args(out),
            StreamIdempotencyMode::Automatic { producer_id } => {
                ("IDMPAUTO", producer_id).write_redis_args(out)
            }
        }
    }
}
