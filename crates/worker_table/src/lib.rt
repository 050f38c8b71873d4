//! A worker's handler that stores entries as rows of a table.
//!
//! The key of a row is the id of the entry, two numbers. If no columns are named, the row has one value: a text
//! with all fields as JSON. Otherwise each column has the field of its name, as a text, an integer or bytes.
//!
//! A batch is one transaction of the table. The entries are acknowledged after the commit. An entry whose id
//! already has a row is skipped if it has the same fields. Otherwise it is an error. Therefore each id has one
//! row, however often and to whichever consumer the entry is redelivered.
//!
//! `Forwarding` also forwards entries to another stream. The commands to send are in an outbox beside the
//! table. They are inserted in the transaction of the row. After the commit `send_posts` adds each entry under
//! its own id, and then removes the command from the outbox. Therefore a crash loses no command, and the server
//! refuses a command that is sent again because of its id.
#![tactic(auto)]

mod columns;
mod fields;
mod forwarding;
mod handler;
pub mod laws;
mod posts;
pub mod row_table;
mod sending;

pub use fields::fields_text;
pub use forwarding::Forwarding;
pub use handler::{Fault, Rows};
pub use sending::{PostError, SendError, send_posts, target_of};
