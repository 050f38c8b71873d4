//! A file of lines that a crash does not undo.
//!
//! Lines are gathered, and `commit` makes one write and one sync of them. Once `commit` has returned `Ok`, a
//! crash at any moment leaves a file that begins with all committed lines. Opening the file cuts off a last
//! line without a line feed.
//!
//! A line of an entry is its id and its fields, in order and with repeated ones, separated by tabs. In each
//! text a backslash, a tab, a line feed and a carriage return are written as `\\`, `\t`, `\n` and `\r`. So an
//! entry is one line. Other bytes stay as they are.
#![tactic(auto)]

mod device;
mod entry_line;
mod error;
mod escape;
pub mod known_ids;
mod last_lines;
pub mod laws;
mod log;
mod memory;
mod opening;
mod system;
mod torn;

pub use device::LogFile;
pub use entry_line::{LineEntry, entry_in, push_field};
pub use error::LogError;
pub use escape::push_escaped;
pub use log::LineLog;
pub use memory::MemoryFile;
pub use opening::repair;
pub use system::SystemFile;
pub use torn::TornFile;
