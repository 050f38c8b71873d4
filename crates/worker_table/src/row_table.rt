//! Rows in a table whose keys are pairs of numbers.
//!
//! A `Table` is a table of a database with transactions: begin, insert or find rows, and commit or roll back.
//! `put_all` inserts rows in one transaction. A row whose key exists is skipped if the existing row has the
//! same values, and otherwise is an error.
//!
//! A `WithOutbox` is a table that also has an outbox. The outbox contains posts: the commands to send for rows.
//! `put_all_posted` inserts rows with their posts in one transaction.

mod cell;
mod error;
pub mod laws;
mod memory;
mod outbox;
mod post;
mod put;
mod put_posted;
mod row;
mod table;

pub use cell::{Cell, Column, Kind};
pub use error::TableError;
pub use memory::{MemoryOutbox, MemoryTable};
pub use outbox::WithOutbox;
pub use post::{Post, PostedRow};
pub use put::{ROWS_AT_ONCE, put_all};
pub use put_posted::put_all_posted;
pub use row::Row;
pub use table::Table;
