//! The vectors of options: the program `streams_bench` prints them, and tests write them into buffers
//! of each size.
pub mod add;
pub mod claim;
pub mod config;
pub mod read;
pub mod trim;
