//! The nesting depth of replies with entries.

/// The depth of a range: the array of rows, a row, the array of its fields, and a bulk string.
pub const RANGE_DEPTH: u8 = 4;

/// The depth of streams: around a range are the array of all streams, and that of one.
pub const STREAMS_DEPTH: u8 = 6;

/// The depth of the reply of XAUTOCLAIM: one array is around a range.
pub const CLAIM_DEPTH: u8 = 5;

/// The depth of the reply with `JUSTID`: the array, that of the ids, and a bulk string.
pub const IDS_DEPTH: u8 = 3;
