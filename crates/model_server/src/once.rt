//! A producer that adds records to a stream, and a consumer that writes a line for each into a file, as state machines.
//! Both may crash at any time. It runs nothing: its functions are laws.

pub mod laws;
