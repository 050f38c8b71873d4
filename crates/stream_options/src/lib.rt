//! The options of the Redis stream commands, as builders that write their arguments.
//!
//! ```text
//! let options = StreamTrimOptions::maxlen(StreamTrimmingMode::Approx, 1000).limit(50);
//! options.to_redis_args(alloc)?;                     // `MAXLEN`, `~`, `1000`, `LIMIT`, `50`
//! ```
//!
//! A contract sees options as their settings, and what they write as the arguments of these.
#![tactic(auto)]

pub mod laws;
pub mod options;

pub use options::{
    ConfigError, IDMP_DURATION_MAX, IDMP_DURATION_MIN, IDMP_MAXSIZE_MAX, IDMP_MAXSIZE_MIN,
    StreamAddOptions, StreamAutoClaimOptions, StreamClaimOptions, StreamConfigOptions,
    StreamDeletionPolicy, StreamIdempotencyMode, StreamMaxlen, StreamNackMode, StreamNackOptions,
    StreamReadOptions, StreamTrimOptions, StreamTrimStrategy, StreamTrimmingMode,
};
