//! A connection to a server over any reader and any writer: sends a whole command, and reads its
//! reply as the requested type.
//!
//! It opens nothing: the streams may be a socket, standard input and output, or bytes in memory. No
//! error loses bytes that were received, so each call may be repeated, unless the server breaks the
//! protocol or its limits.
#![tactic(auto)]

mod confirming;
mod connection;
mod early;
mod error;
mod incoming;
mod outgoing;
mod passing;
mod sink;
mod source;
mod wait;

pub use confirming::{ConfirmError, confirm};
pub use connection::Connection;
pub use early::{EarlyWriter, WriteEarly};
pub use error::{AskError, ConnectionError};
pub use wait::{Wait, WaitError};
