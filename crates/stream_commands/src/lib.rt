//! Whole stream commands of Redis, each with the type of its reply. It opens no connection.
//!
//! ```text
//! let command = xlen("orders");                          // `XLEN orders`
//! let args = command.to_redis_args(alloc)?;              // or into any `RedisWrite`
//! let length = command.read(alloc, answer)?;             // the reply, as a `usize`
//! ```
//!
//! Keys, groups, consumers and ids are of any type that is a single argument. A contract gives the
//! whole list of a command's arguments, as in the documentation of the server.
#![tactic(auto)]

pub mod ack;
pub mod add;
pub mod at_least_one;
pub mod autoclaim;
pub mod claim;
pub mod command;
pub mod config;
pub mod counted;
pub mod delete;
pub mod error;
pub mod fields;
pub mod group;
pub mod info;
pub mod laws;
pub mod monitor;
pub mod pending;
pub mod range;
pub mod read;
pub mod replicas;
pub mod setid;
pub mod streams;
pub mod trim;

pub use ack::{xack, xack_del};
pub use add::{xadd, xadd_maxlen, xadd_options};
pub use at_least_one::AtLeastOne;
pub use autoclaim::{xautoclaim, xautoclaim_count, xautoclaim_justid, xautoclaim_options};
pub use claim::{ClaimArgs, xclaim, xclaim_justid, xclaim_options};
pub use command::{Command, Word};
pub use config::xcfgset;
pub use counted::CountedIds;
pub use delete::{xdel, xdel_ex};
pub use error::JustIdIsSet;
pub use fields::{FieldsThen, ToAnyFieldArgs, ToFieldArgs, pair_fields};
pub use group::{
    xgroup_create, xgroup_create_entries_read, xgroup_create_mkstream, xgroup_createconsumer,
    xgroup_delconsumer, xgroup_destroy, xgroup_setid, xgroup_setid_entries_read,
};
pub use info::{
    xinfo_consumers, xinfo_groups, xinfo_stream, xinfo_stream_full, xinfo_stream_full_count,
    xinfo_stream_with_idempotency,
};
pub use pending::{
    xpending, xpending_consumer_count, xpending_count, xpending_idle_consumer_count,
    xpending_idle_count,
};
pub use range::{
    xlen, xrange, xrange_all, xrange_count, xrevrange, xrevrange_all, xrevrange_count,
};
pub use read::{xread, xread_options};
pub use replicas::{wait, wait_aof};
pub use setid::{xsetid, xsetid_entries_added};
pub use streams::Streams;
pub use trim::{xtrim, xtrim_options};
