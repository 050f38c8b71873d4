//! For a program that connects to a server: the address, the first commands of a connection, the pauses between
//! attempts, and what to do after an error. Nothing here opens a socket.
#![tactic(auto)]

mod address;
mod backoff;
pub mod cluster;
mod cut;
mod greeting;
mod next;
mod number;
mod parts;
mod settings;
mod socket;
pub mod topology;

pub use address::{Address, AddressError, Login, Protocol};
pub use backoff::Backoff;
pub use greeting::greet;
pub use next::{
    Next, next_after_answer, next_after_code, next_after_connection, next_after_server,
};
pub use socket::{TimedStream, connection_over};
