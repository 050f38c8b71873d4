//! The vectors of options, written into buffers of each size, and after the elements of a list by a writer
//! that refuses at each position.
ghost use Rattle.std.specs.Prelude.{⊤, map};

use crate::tests::{holds, words_of};
use redis_args::{FixedArgs, RedisWrite, ToRedisArgs, WriteError};
use std::process::Abort;
use test_notation::vectors::OptionsVector;
use test_notation::vectors::options::{add, claim, config, read, trim};

/// A list that accepts `room` more arguments, and then refuses each.
#[derive(Drop)]
struct Bounded {
    list: Vec<Vec<u8>>,
    room: usize,
}

impl RedisWrite for Bounded {
    ghost written = { λ out. map (λ arg. arg.items) out.list.items };

    ghost may_refuse = { λ _ _ _. ⊤ };

    fn write_arg(&mut self, arg: &[u8]) -> Result<(), WriteError> {
        if self.room == 0 {
            return Err(WriteError::Full);
        }
        self.list.write_arg(arg)?;
        self.room -= 1;
        Ok(())
    }
}

/// The result of writing all of `words` to a writer with this room.
fn result_of(words: &[Vec<u8>], room: usize) -> Result<(), WriteError> {
    if room < words.len() {
        Err(WriteError::Full)
    } else {
        Ok(())
    }
}

/// Checks that a buffer for `N` arguments has all of these words, or the first `N` and refuses the next.
fn check_room<T: ToRedisArgs, const N: usize>(
    rt: &impl Abort,
    mut place: FixedArgs<N, 128>,
    value: &T,
    words: &[Vec<u8>],
) {
    assert!(rt; value.write_redis_args(&mut place) == result_of(words, N));
    assert!(rt; holds(&place, &words[..N.min(words.len())]), "of {N}");
}

/// Checks buffers for these numbers of arguments.
macro_rules! check_rooms {
    ($rt:expr, $value:expr, $words:expr, $($rooms:literal)*) => {
        $(check_room($rt, FixedArgs::<$rooms, 128>::new(), $value, $words);)*
    };
}

/// Checks that a list with room for `room` more keeps its elements, and has the words before the refusal.
fn check_refusal<T: ToRedisArgs>(
    rt: &(impl AllocGlobal + Abort),
    value: &T,
    words: &[Vec<u8>],
    room: usize,
) {
    let held = words_of(rt, "held");
    let mut out = Bounded {
        list: words_of(rt, "held"),
        room,
    };
    assert!(rt; value.write_redis_args(&mut out) == result_of(words, room));
    assert!(rt; out.list.get(..1) == Some(held.as_slice()), "room {room}");
    let begun = &words[..room.min(words.len())];
    assert!(rt; out.list.get(1..) == Some(begun), "room {room}");
}

/// Checks that the options write the words of this text, `-` for none.
fn check_value<T: ToRedisArgs>(rt: &(impl AllocGlobal + Abort), value: &T, stored: &str) {
    let words = words_of(rt, if stored == "-" { "" } else { stored });
    check_rooms!(rt, value, &words, 0 1 2 3 4 5 6 7 8 9 10);
    for room in 0..words.len() + 1 {
        check_refusal(rt, value, &words, room);
    }
}

fn check_vectors<T: ToRedisArgs>(rt: &(impl AllocGlobal + Abort), vectors: &[OptionsVector<T>]) {
    for (_name, options, stored) in vectors {
        check_value(rt, options, stored);
    }
}

#[test]
fn vectors_of_trims(rt: HostRuntime) {
    check_vectors(&rt, &trim::trim_vectors(rt.alloc()).expect(&rt, "memory"));
    check_vectors(&rt, &trim::maxlen_vectors());
}

#[test]
fn vectors_of_additions(rt: HostRuntime) {
    check_vectors(&rt, &add::trimmed_vectors());
    check_vectors(
        &rt,
        &add::idempotent_vectors(rt.alloc()).expect(&rt, "memory"),
    );
    check_vectors(&rt, &add::full_vectors(rt.alloc()).expect(&rt, "memory"));
    check_vectors(&rt, &add::keyword_vectors(rt.alloc()).expect(&rt, "memory"));
}

#[test]
fn vectors_of_configurations(rt: HostRuntime) {
    for (_name, answer, stored) in &config::accepted_vectors() {
        match answer {
            Ok(options) => check_value(&rt, options, stored),
            Err(error) => assert!(rt; false, "refused: {error}"),
        }
    }
}

#[test]
fn vectors_of_claims(rt: HostRuntime) {
    check_vectors(&rt, &claim::autoclaim_vectors());
    check_vectors(&rt, &claim::claim_vectors(rt.alloc()).expect(&rt, "memory"));
    check_vectors(
        &rt,
        &claim::keyword_vectors(rt.alloc()).expect(&rt, "memory"),
    );
}

#[test]
fn vectors_of_reads(rt: HostRuntime) {
    check_vectors(&rt, &read::read_vectors(rt.alloc()).expect(&rt, "memory"));
    check_vectors(&rt, &read::nack_vectors());
    check_vectors(&rt, &read::names_vectors(rt.alloc()).expect(&rt, "memory"));
}
