//! Tests of what is read from a server's values (`redis_resp`, `redis_streams` and `test_notation`)
//! and from its bytes (`redis_wire` and `stream_in_place`).
mod answers;
mod memory;
mod moved;
mod notation;
mod refs;
mod refusals;
mod row_lines;
mod status;
mod user;
mod value;
mod wire;
