//! The status codes of the header that calls return to C.

/// Success.
pub const OK: u32 = 0;
/// There is too little room; the needed sizes are returned.
pub const ROOM: u32 = 1;
/// The reply is not complete.
pub const INCOMPLETE: u32 = 2;
/// The server sent an error.
pub const SERVER_ERROR: u32 = 3;
/// A reply of another shape than the call expects.
pub const OTHER: u32 = 4;
/// Out of memory.
pub const MEMORY: u32 = 5;
/// An argument has 2^32 bytes or more.
pub const TOO_LARGE: u32 = 6;
/// A place is outside the bytes.
pub const OUTSIDE: u32 = 7;
/// No entry, field or stream was passed, and the server needs one.
pub const NOTHING: u32 = 8;
/// The settings are invalid.
pub const SETTINGS: u32 = 9;
/// The arguments do not begin with options.
pub const NO_OPTIONS: u32 = 10;
/// There are 0 partitions or more than 65,535, or the number of one is above 65,535.
pub const NO_PARTITION: u32 = 11;

/// The first byte of a value names no type of the protocol.
pub const FAULT_UNKNOWN_TYPE: u32 = 16;
/// A streamed value, without a length.
pub const FAULT_STREAMED: u32 = 17;
/// A line or a bulk string does not end in CR LF.
pub const FAULT_BAD_END: u32 = 18;
/// An invalid length.
pub const FAULT_BAD_LENGTH: u32 = 19;
/// A length over 512 MiB.
pub const FAULT_TOO_LONG: u32 = 20;
/// A line over 64 KiB.
pub const FAULT_LONG_LINE: u32 = 21;
/// More than 128 levels of values.
pub const FAULT_TOO_DEEP: u32 = 22;
/// Not a number of 64 bits.
pub const FAULT_BAD_NUMBER: u32 = 23;
/// A null with bytes of its own.
pub const FAULT_BAD_NULL: u32 = 24;
/// Neither `t` nor `f`.
pub const FAULT_BAD_BOOLEAN: u32 = 25;
/// A text that has to be UTF-8 and is not.
pub const FAULT_NOT_UTF8: u32 = 26;
/// Not a verbatim string.
pub const FAULT_BAD_VERBATIM: u32 = 27;
/// Not a push.
pub const FAULT_BAD_PUSH: u32 = 28;
/// No call of this crate returns it.
pub const FAULT_OVERFULL: u32 = 29;
/// More than 16,777,216 values.
pub const FAULT_TOO_MANY: u32 = 30;
