//! A table of rows in a SQLite file, which `sqlite3` can read.
//!
//! The key of a row is in the columns `milliseconds` and `sequence`. The `Form` of the table defines the other
//! columns. `Form::usual` is a table `entries` with one such column, `fields`.
//!
//! `SqliteOutbox` is such a table with an outbox. The outbox is the table `outbox` of the same file.
#![tactic(auto)]

mod error;
mod form;
mod table;
mod values;

pub use error::OpenError;
pub use form::Form;
pub use table::{OUTBOX, OUTBOX_CREATE, SqliteOutbox, SqliteTable, Waiting};
