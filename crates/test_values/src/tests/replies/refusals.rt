//! Facts of refusals that no value can show: the text of the error that memory ran out, and equality of
//! refusals, as a caller can prove it.
use crate::tests::check_same;
use redis_resp::{ParsingError, equal_parsing_errors};
use test_notation::PrintedForm;

#[test]
fn that_memory_ran_out_is_printed(rt: HostRuntime) {
    let error = ParsingError::Memory;
    let number = error.printed(rt.alloc()).expect(&rt, "memory");
    let text = format!(in rt.alloc(); "{number} {error:?}: {error}").expect(&rt, "memory");
    check_same(&rt, text.as_str(), "refused 18 Memory: out of memory");
}

#[test]
fn equal_refusals_are_told(rt: HostRuntime) {
    let two = &ParsingError::NotTuple(2);
    assert!(rt; equal_parsing_errors(two, &ParsingError::NotTuple(2)));
    assert!(rt; !equal_parsing_errors(two, &ParsingError::NotTuple(4)));
    let list = &ParsingError::NotList;
    assert!(rt; !equal_parsing_errors(list, &ParsingError::NotPairs));
    assert!(rt; !equal_parsing_errors(list, &ParsingError::Memory));
}
