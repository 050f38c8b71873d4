//! Parses the options of the Redis stream commands from their arguments: for a server, a proxy
//! or a log tool.
//!
//! ```text
//! // the arguments `MAXLEN`, `~`, `10`, `LIMIT`, `5`, `x`
//! let (options, k) = read_trim(alloc, args)?;        // and k is 5
//! ```
//!
//! Each reader returns the options whose arguments are the first `k` arguments. What follows
//! begins with no fixed word of the type. At most one result is possible.
//!
//! A reader whose name ends in `_parts` returns the settings one by one, and a call like `add_with`
//! makes the options of them.
#![tactic(auto)]

mod add;
mod answer;
mod autoclaim;
mod claim;
mod clauses;
mod config;
mod device;
mod error;
pub mod laws;
mod lines;
mod nack;
mod pieces;
mod policy;
mod read;
mod run_error;
mod strategy;
mod trim;
mod values;

pub use add::{AddParts, add_with, read_add, read_add_parts};
pub use autoclaim::{AutoClaimParts, autoclaim_with, read_autoclaim, read_autoclaim_parts};
pub use claim::{ClaimParts, claim_with, read_claim, read_claim_parts};
pub use config::read_config;
pub use error::SentenceError;
pub use lines::run;
pub use nack::read_nack;
pub use read::{GroupNames, ReadParts, read_read, read_read_parts, read_with};
pub use run_error::RunError;
pub use trim::{TrimParts, read_trim, read_trim_parts, trim_with};
