//! A producer that adds records to a stream and repeats none, whatever fails. It is a state machine without input and
//! output: it writes the next bytes to send and takes the replies.
//!
//! Records are numbered from 1, and the record k has the id `(base + k)-0`. They are sent in batches of `MULTI`, `XADD`
//! for each, `EXEC`. After a failure the producer reads the last id from the server, and goes on after it.
#![tactic(auto)]

mod ahead;
mod batch;
mod confirmed;
mod confirming;
mod counts;
mod error;
mod executed;
mod executed_reply;
mod filling;
mod kept;
mod last_id;
pub mod laws;
mod producer;
mod queued;
mod session;
mod settings;
mod source;
mod stage;

pub use confirmed::ConfirmedError;
pub use counts::Counts;
pub use error::{FeedError, RequestError, RunError};
pub use filling::{FillError, fill};
pub use last_id::ask_last_id;
pub use producer::Producer;
pub use settings::{Settings, SettingsError};
pub use source::{Field, NotRead, Record, Source};
pub use stage::{Asked, OnTheWay, Stage};
