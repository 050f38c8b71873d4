//! Whole commands, each with the type of its reply.
pub use stream_commands::{
    AtLeastOne, ClaimArgs, Command, CountedIds, FieldsThen, JustIdIsSet, Streams, ToAnyFieldArgs,
    ToFieldArgs, Word, pair_fields, xack, xack_del, xadd, xadd_maxlen, xadd_options, xautoclaim,
    xautoclaim_count, xautoclaim_justid, xautoclaim_options, xcfgset, xclaim, xclaim_justid,
    xclaim_options, xdel, xdel_ex, xgroup_create, xgroup_create_entries_read,
    xgroup_create_mkstream, xgroup_createconsumer, xgroup_delconsumer, xgroup_destroy,
    xgroup_setid, xgroup_setid_entries_read, xinfo_consumers, xinfo_groups, xinfo_stream,
    xinfo_stream_full, xinfo_stream_full_count, xinfo_stream_with_idempotency, xlen, xpending,
    xpending_consumer_count, xpending_count, xpending_idle_consumer_count, xpending_idle_count,
    xrange, xrange_all, xrange_count, xread, xread_options, xrevrange, xrevrange_all,
    xrevrange_count, xsetid, xsetid_entries_added, xtrim, xtrim_options,
};
