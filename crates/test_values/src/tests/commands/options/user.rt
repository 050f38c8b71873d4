//! A writer of a user's own, and a writer with little room. `replies` has a value of a user's own.
ghost use Rattle.std.specs.Prelude.{◌≡◌, ◌⊎◌, codes};
ghost use Rattle.redis_args.specs.Room.{MayRefuse};
ghost use Rattle.redis_args.specs.declared.writer.WriteError.TheVariants.{Full};

use crate::tests::{check_place, holds, text, words_of};
use redis_args::{FixedArgs, RedisWrite, ToRedisArgs, WriteError};
use std::process::Abort;
use stream_options::{StreamDeletionPolicy, StreamTrimOptions, StreamTrimmingMode};

/// Room for eight arguments of 64 bytes in all; it refuses the word `LIMIT`.
#[derive(Drop)]
struct WithoutLimit {
    store: FixedArgs<8, 64>,
}

impl RedisWrite for WithoutLimit {
    ghost written = { λ out. out.store };

    ghost may_refuse = { λ out arg error.
        ((arg ≡ codes "LIMIT") × (error ≡ Full)) ⊎ MayRefuse 8 64 out.store arg error };

    fn write_arg(&mut self, arg: &[u8]) -> Result<(), WriteError> {
        if arg == b"LIMIT".as_slice() {
            return Err(WriteError::Full);
        }
        self.store.write_arg(arg)
    }
}

/// Checks the result of writing these options to a writer that refuses `LIMIT`, and what it then holds.
fn check_without_limit(
    rt: &(impl AllocGlobal + Abort),
    options: &StreamTrimOptions,
    answer: Result<(), WriteError>,
    line: &str,
) {
    let mut out = WithoutLimit {
        store: FixedArgs::new(),
    };
    assert!(rt; options.write_redis_args(&mut out) == answer);
    assert!(rt; holds(&out.store, &words_of(rt, line)));
}

#[test]
fn a_writer_without_limit(rt: HostRuntime) {
    let spelled = StreamTrimOptions::minid(StreamTrimmingMode::Exact, text(&rt, "LIMIT"));
    let spelled = spelled.set_deletion_policy(StreamDeletionPolicy::Acked);
    check_without_limit(&rt, &spelled, Err(WriteError::Full), "MINID =");
}

#[test]
fn a_limit_for_a_writer_without_limit(rt: HostRuntime) {
    let about = StreamTrimOptions::maxlen(StreamTrimmingMode::Approx, 10);
    check_without_limit(&rt, &about, Ok(()), "MAXLEN ~ 10");
    let full = Err(WriteError::Full);
    check_without_limit(&rt, &about.limit(5), full, "MAXLEN ~ 10");
}

#[test]
fn little_room(rt: HostRuntime) {
    let options = StreamTrimOptions::maxlen(StreamTrimmingMode::Approx, 10);
    let full = Err(WriteError::Full);
    check_place(&rt, FixedArgs::<2, 64>::new(), &options, full, "MAXLEN ~");
    check_place(&rt, FixedArgs::<3, 8>::new(), &options, full, "MAXLEN ~");
    check_place(
        &rt,
        FixedArgs::<3, 9>::new(),
        &options,
        Ok(()),
        "MAXLEN ~ 10",
    );
}
