//! A static library for C and other languages: stream replies parsed in place, commands written into buffers,
//! and the partitions of a stream. Everything is passed as numbers and byte slices. Its header is `redis_streams.h`.
//!
//! Each export calls a function of the other crates, and repeats its contract.
#![tactic(auto)]

mod adding;
mod argument;
mod at_places;
mod claiming;
mod claims;
mod cluster;
mod code;
mod commands;
mod copying;
mod entries;
mod groups;
mod info;
mod nodes;
mod option_commands;
mod other;
mod outcome;
mod packing;
mod parts;
mod placed;
mod ranges;
mod records;
mod replies;
mod server;
mod settings;
mod trimming;

pub use at_places::{redis_xack_entries, redis_xadd_fields, redis_xclaim_entries};
pub use claims::{redis_find_autoclaim, redis_find_justid};
pub use cluster::{redis_key_slot, redis_partition_name, redis_partition_of};
pub use commands::{
    ReadSettings, redis_xack, redis_xautoclaim, redis_xpending, redis_xreadgroup, redis_xtrim,
};
pub use entries::{redis_find_range, redis_find_streams};
pub use groups::{redis_xgroup_create, redis_xgroup_destroy, redis_xgroup_setid};
pub use info::{
    redis_xinfo_consumers, redis_xinfo_groups, redis_xinfo_stream, redis_xpending_summary,
};
pub use nodes::redis_find_nodes;
pub use option_commands::{
    redis_xadd_options, redis_xautoclaim_options, redis_xclaim_options, redis_xpending_options,
    redis_xread_streams, redis_xreadgroup_streams, redis_xtrim_options,
};
pub use outcome::Found;
pub use ranges::{
    redis_xdel, redis_xdel_entries, redis_xlen, redis_xrange, redis_xrange_count, redis_xrevrange,
    redis_xrevrange_count,
};
pub use records::{ConsumerRecord, GroupRecord, PendingRecord, RecordsFound, SummaryRecord};
pub use replies::{redis_xinfo_groups_reply, redis_xpending_reply, redis_xpending_summary_reply};
pub use server::{
    GroupPlace, redis_read_add, redis_read_autoclaim, redis_read_claim, redis_read_read,
    redis_read_trim,
};
pub use settings::{AddSettings, AutoClaimSettings, ClaimSettings, PendingSettings, TrimSettings};
