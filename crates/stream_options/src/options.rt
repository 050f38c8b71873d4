//! The option types, one module for each command or part of one.

mod add;
mod autoclaim;
mod claim;
mod clause;
mod config;
mod group;
mod idempotency;
mod maxlen;
mod nack;
mod policy;
mod read;
mod trim;

pub use add::StreamAddOptions;
pub use autoclaim::StreamAutoClaimOptions;
pub use claim::StreamClaimOptions;
pub use config::{
    ConfigError, IDMP_DURATION_MAX, IDMP_DURATION_MIN, IDMP_MAXSIZE_MAX, IDMP_MAXSIZE_MIN,
    StreamConfigOptions,
};
pub use idempotency::StreamIdempotencyMode;
pub use maxlen::StreamMaxlen;
pub use nack::{StreamNackMode, StreamNackOptions};
pub use policy::StreamDeletionPolicy;
pub use read::StreamReadOptions;
pub use trim::{StreamTrimOptions, StreamTrimStrategy, StreamTrimmingMode};
