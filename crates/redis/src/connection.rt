//! A connection over any reader and any writer.
pub use redis_connection::{AskError, Connection, ConnectionError};
