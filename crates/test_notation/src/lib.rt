//! Redis values, stream options and replies as lines of text, for tests and for programs that compare
//! results: a notation for values (`notation`), the printed forms of options and replies (`form`,
//! `options`, `replies`), the printed result of both readings (`answer`), options that a sequence of
//! calls makes (`call_sequences`), vectors with their rows (`vectors`) and the lines of these rows
//! (`row_lines`). `laws` states what `==` of its errors means.
//!
//! ```text
//! let reply = read_value(alloc, "Array[Array[1-0, Array[f, v]]]")?;
//! let range: StreamRangeReply = from_redis_value(alloc, reply)?;
//! range.printed(alloc)?;                                           // `1-0(f=v)`
//! ```
#![tactic(auto)]

pub mod answer;
pub mod call_sequences;
pub mod form;
pub mod laws;
pub mod notation;
pub mod options;
pub mod replies;
pub mod row_lines;
pub mod vectors;

pub use answer::both_answers;
pub use form::PrintedForm;
pub use notation::{NotationError, read_value};
