//! Tests of commands: their arguments and options, the parsers of option lists, whole commands
//! compared with fixed words, and replies that commands read.
mod answer;
mod args;
mod call_sequences;
mod entry;
mod group;
mod justid;
mod laws;
mod memory;
mod options;
mod sentences;
mod vectors;
