//! A worker of a consumer group that loses no entry. The worker is a state machine without input and output. It
//! writes the next command, takes the reply, and acknowledges only what its handler has done and committed.
#![tactic(auto)]

mod commands;
pub mod confirm;
pub mod dead_letters;
mod entries;
pub mod entry_json;
mod error;
mod gathered;
mod handler;
pub mod laws;
mod letters;
pub mod outbox;
mod packing;
mod phases;
mod pipelined;
mod reading;
mod session;
mod state;
mod worker;

pub use error::{AnswerError, InPlaceError, RequestError, RunError, WorkerError};
pub use gathered::Gathered;
pub use handler::{Handler, NotCommitted, Verdict};
pub use letters::{DeadLetters, LetterAsked, LetterError};
pub use pipelined::Pipelined;
pub use session::Round;
pub use state::{Asked, MakeGroup, Phase, Settings, SettingsError};
pub use stream_in_place::EntryRef;
pub use worker::{Progress, Worker};
