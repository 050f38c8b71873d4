//! Equal errors, and unequal ones.
use stream_option_parsing::laws::{equal_run_errors, equal_sentence_errors};
use stream_option_parsing::{RunError, SentenceError};

#[test]
fn equal_errors_are_told(rt: HostRuntime) {
    assert!(rt; equal_sentence_errors(SentenceError::Memory, SentenceError::Memory));
    assert!(rt; !equal_sentence_errors(SentenceError::NotASentence, SentenceError::Memory));
    assert!(rt; equal_run_errors(RunError::Write, RunError::Write));
    assert!(rt; !equal_run_errors(RunError::Read, RunError::Write));
    assert!(rt; !equal_run_errors(RunError::Write, RunError::Memory));
}
