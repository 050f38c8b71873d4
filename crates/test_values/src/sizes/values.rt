//! Large values: their readings as plain types, and their copies.
use crate::check_value;
use crate::sizes::{Line, line_of, value_of};
use indexmap::IndexMap;
use std::process::Abort;

#[test]
fn large_values_are_read(rt: HostRuntime) {
    let list = line_of(&rt, ("Array[", "Int $", ", ", "]"), 10_000);
    let shown = line_of(&rt, ("Ok([", "$", ", ", "])"), 10_000);
    check_value::<Vec<i64>>(&rt, &list, &shown);
    let table = line_of(&rt, ("Map[", "n$: Int $", ", ", "]"), 10_000);
    let shown = line_of(&rt, ("Ok({", "\"n$\": $", ", ", "})"), 10_000);
    check_value::<IndexMap<String, u16>>(&rt, &table, &shown);
    let text = line_of(&rt, ("", "x", "", ""), 65_536);
    let shown = line_of(&rt, ("Ok(\"", "x", "", "\")"), 65_536);
    check_value::<String>(&rt, &text, &shown);
}

const KINDS: [Line<'static>; 8] = [
    ("\"", "x", "", "\""),
    ("Simple(\"", "x", "", "\")"),
    ("Verbatim(txt, \"", "x", "", "\")"),
    ("Array[", "Int $", ", ", "]"),
    ("Set[", "Int $", ", ", "]"),
    ("Map[", "Int $: Okay", ", ", "]"),
    ("Push(p)[", "Int $", ", ", "]"),
    ("Attr(Nil; ", "Int $: Okay", ", ", ")"),
];

/// Checks that a copy of the value of this number of items is equal to it.
fn check_copy(rt: &(impl AllocGlobal + Abort), items: Line<'_>, length: usize) {
    let value = value_of(rt, items, length);
    let copy = value.try_clone(rt.alloc()).expect(rt, "memory");
    assert!(rt; copy == value, "{length} items of {}", items.0);
}

#[test]
fn values_of_each_length_are_copied(rt: HostRuntime) {
    for kind in &KINDS {
        for length in 1..65 {
            check_copy(&rt, *kind, length);
        }
    }
}
