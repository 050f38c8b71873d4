//! Whole commands of texts are the argument lists of the laws.
ghost use Rattle.std.specs.Prelude.{◌≡◌, [], ◌∷◌, map, IfOk, IfSome};
ghost use Rattle.stream_commands.specs.WholeCommands.{add_list, trim_list, read_list, claim_list, autoclaim_list};

use crate::tests::check;
use redis_resp::ToRedisArgs;
use std::alloc::{AllocError, Global};
use stream_commands::{
    AtLeastOne, xadd_options, xautoclaim_options, xclaim_options, xread_options, xtrim_options,
};
use stream_options::{
    StreamAddOptions, StreamAutoClaimOptions, StreamClaimOptions, StreamReadOptions,
    StreamTrimOptions, StreamTrimStrategy, StreamTrimmingMode,
};

fn add_arguments(
    alloc: Global,
    key: &str,
    id: &str,
    name: &str,
    value: &str,
    options: &StreamAddOptions,
) -> Result<Vec<Vec<u8>>, AllocError>
    ensures { IfOk result (λ list. map (λ arg. arg.items) list.items ≡ add_list (record {
      key = key.now;
      options = options.now;
      id = id.now;
      fields = name.now ∷ value.now ∷ [];
    })) }
{
    xadd_options(key, id, (name, value), options).to_redis_args(alloc)
}

fn trim_arguments(
    alloc: Global,
    key: &str,
    options: &StreamTrimOptions,
) -> Result<Vec<Vec<u8>>, AllocError>
    ensures { IfOk result (λ list. map (λ arg. arg.items) list.items ≡ trim_list (record {
      key = key.now;
      options = options.now;
    })) }
{
    xtrim_options(key, options).to_redis_args(alloc)
}

fn read_arguments(
    alloc: Global,
    key: &str,
    id: &str,
    options: &StreamReadOptions,
) -> Result<Vec<Vec<u8>>, AllocError>
    ensures { IfOk result (λ list. map (λ arg. arg.items) list.items ≡ read_list (record {
      options = options.now;
      streams = (key.now, id.now) ∷ [];
    })) }
{
    xread_options(AtLeastOne::one(&(key, id)), options).to_redis_args(alloc)
}

fn claim_arguments(
    alloc: Global,
    key: &str,
    group: &str,
    consumer: &str,
    min_idle: usize,
    id: &str,
    options: &StreamClaimOptions,
) -> Option<Vec<Vec<u8>>>
    ensures { IfSome result (λ list. map (λ arg. arg.items) list.items ≡ claim_list (record {
      key = key.now;
      group = group.now;
      consumer = consumer.now;
      min_idle = min_idle;
      ids = id.now ∷ [];
      options = options.now;
    })) }
{
    let ids = AtLeastOne::one(&id);
    let command = xclaim_options(key, group, consumer, min_idle, ids, options).ok()?;
    command.to_redis_args(alloc).ok()
}

fn autoclaim_arguments(
    alloc: Global,
    key: &str,
    group: &str,
    consumer: &str,
    min_idle: usize,
    start: &str,
    options: &StreamAutoClaimOptions,
) -> Option<Vec<Vec<u8>>>
    ensures { IfSome result (λ list. map (λ arg. arg.items) list.items ≡ autoclaim_list (record {
      key = key.now;
      group = group.now;
      consumer = consumer.now;
      min_idle = min_idle;
      start = start.now;
      options = options.now;
    })) }
{
    let command = xautoclaim_options(key, group, consumer, min_idle, start, options).ok()?;
    command.to_redis_args(alloc).ok()
}

#[test]
fn added_entries_are_lists(rt: HostRuntime) {
    let strategy = StreamTrimStrategy::maxlen(StreamTrimmingMode::Exact, 10);
    let options = StreamAddOptions::default().nomkstream().trim(strategy);
    let arguments = add_arguments(rt.alloc(), "orders", "4-0", "item", "tea", &options);
    let line = "XADD orders NOMKSTREAM MAXLEN = 10 4-0 item tea";
    check(&rt, &arguments.expect(&rt, "memory"), line);
}

#[test]
fn trims_are_lists(rt: HostRuntime) {
    let options = StreamTrimOptions::maxlen(StreamTrimmingMode::Approx, 1).limit(50);
    let arguments = trim_arguments(rt.alloc(), "orders", &options);
    let line = "XTRIM orders MAXLEN ~ 1 LIMIT 50";
    check(&rt, &arguments.expect(&rt, "memory"), line);
}

#[test]
fn reads_are_lists(rt: HostRuntime) {
    let options = StreamReadOptions::default().block(5).count(2);
    let options = options.group(rt.alloc(), "g", "c").expect(&rt, "memory");
    let arguments = read_arguments(rt.alloc(), "orders", ">", &options);
    let line = "XREADGROUP GROUP g c BLOCK 5 COUNT 2 STREAMS orders >";
    check(&rt, &arguments.expect(&rt, "memory"), line);
}

#[test]
fn claims_are_lists(rt: HostRuntime) {
    let options = StreamClaimOptions::default().with_force().retry(3);
    let arguments = claim_arguments(rt.alloc(), "orders", "g", "d", 0, "3-0", &options);
    let line = "XCLAIM orders g d 0 3-0 RETRYCOUNT 3 FORCE";
    check(&rt, &arguments.expect(&rt, "arguments"), line);
}

#[test]
fn automatic_claims_are_lists(rt: HostRuntime) {
    let options = StreamAutoClaimOptions::default().count(10);
    let arguments = autoclaim_arguments(rt.alloc(), "orders", "g", "d", 0, "0-0", &options);
    let line = "XAUTOCLAIM orders g d 0 0-0 COUNT 10";
    check(&rt, &arguments.expect(&rt, "arguments"), line);
}
