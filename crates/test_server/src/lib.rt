//! Tests of a worker over the server in memory, to copy from. The program `test_sessions` has scripts for the
//! replies of the server and for workers that crash or lose their connection. Beside them are tests of other
//! parts of a worker: the commands WAIT and WAITAOF, the ids in its file, rows in a table, and bytes sent early.
//!
//! They are in a crate of their own, since a check of tests proves the functions of their crate a second time.
#![tactic(auto)]

#[cfg(test)]
mod confirm;
#[cfg(test)]
mod early;
#[cfg(test)]
mod example;
#[cfg(test)]
mod known;
#[cfg(test)]
mod tables;

#[cfg(test)]
use std::fmt::Debug;
#[cfg(test)]
use std::process::Abort;

/// Checks that the two values are equal. (`assert_eq!` at each place costs many times as much to prove.)
#[cfg(test)]
fn check_same<T: PartialEq + Debug + Drop>(rt: &impl Abort, found: T, wanted: T) {
    assert_eq!(rt; found, wanted);
}
