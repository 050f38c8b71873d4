//! Workers that fulfil the contracts of `worker`, over one server, each with a file of
//! lines, and what holds after every schedule. It runs nothing: its functions are laws.

pub mod laws;
