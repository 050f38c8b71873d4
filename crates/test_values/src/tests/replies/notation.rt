//! Texts in the notation that hold a tab or a line feed, the text of the error that memory ran out, and
//! equality of refusals. The program `test_cases` has the texts of one line.
use std::process::Abort;
use test_notation::laws::equal_notation_errors;
use test_notation::{NotationError, read_value};

/// Checks that `Debug` prints the value of the notation like this.
fn check_value(rt: &(impl AllocGlobal + Abort), notation: &str, shown: &str) {
    let value = read_value(rt.alloc(), notation).expect(rt, "a value");
    let told = format!(in rt.alloc(); "{value:?}").expect(rt, "memory");
    assert!(rt; told.as_str() == shown, "{told}, not {shown}");
}

#[test]
fn tabs_are_blanks_and_a_line_feed_is_none(rt: HostRuntime) {
    check_value(&rt, "\tSet [ ] ", "Set([])");
    check_value(&rt, " \t+2 ", "BulkString([43, 50])");
    let refused = read_value(rt.alloc(), "\n");
    assert!(rt; matches!(refused, Err(NotationError::NoWord)));
}

#[test]
fn that_memory_ran_out_is_printed(rt: HostRuntime) {
    let error = NotationError::Memory.to_string(rt.alloc());
    let told = error.expect(&rt, "memory");
    assert!(rt; told.as_str() == "out of memory");
}

#[test]
fn equal_refusals_are_told(rt: HostRuntime) {
    let comma = &NotationError::NoMark(',');
    assert!(rt; equal_notation_errors(comma, &NotationError::NoMark(',')));
    assert!(rt; !equal_notation_errors(comma, &NotationError::NoMark(':')));
    let word = &NotationError::NoWord;
    assert!(rt; !equal_notation_errors(word, &NotationError::NotNumber));
}
