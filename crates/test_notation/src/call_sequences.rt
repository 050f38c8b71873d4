//! Options that a sequence of builder calls makes.
ghost use Rattle.std.specs.Prelude.{◌≡◌, map, IfOk};
ghost use Rattle.stream_options.specs.Add.{default_add};
ghost use Rattle.stream_options.specs.AddCalls.{final_add, after_add};
ghost use Rattle.stream_options.specs.Read.{default_read};
ghost use Rattle.stream_options.specs.ReadCalls.{final_read, after_read};
ghost use Rattle.test_notation.specs.CallsMeaning.{add_call_of, read_call_of};

use redis_resp::RawBytes;
use std::alloc::{AllocError, Global};
use stream_options::{
    StreamAddOptions, StreamDeletionPolicy, StreamReadOptions, StreamTrimStrategy,
};

/// A call on the options of `XADD`.
#[derive(Drop)]
pub enum AddCall {
    Nomkstream,
    Trim(StreamTrimStrategy),
    Policy(StreamDeletionPolicy),
    Idmp(String, String),
    Idmpauto(String),
}

/// A call on the options of `XREAD` and `XREADGROUP`; `Block` and `Claim` are in milliseconds.
#[derive(Drop)]
pub enum ReadCall {
    Noack,
    Block(usize),
    Count(usize),
    Claim(usize),
    /// The parts of the group's name and those of the consumer's, each one argument.
    Group(Vec<RawBytes>, Vec<RawBytes>),
}

/// Applies these calls to the default options, in order. It takes no memory.
#[tactic(auto, using(crate::proofs::PlayLemmas::add_final_push))]
pub fn play_add(calls: Vec<AddCall>) -> StreamAddOptions
    ensures { result ≡ final_add default_add (map add_call_of calls.items) }
{
    let mut options = StreamAddOptions::default();
    for call in calls {
        options = play_add_call(options, call);
    }
    options
}

fn play_add_call(options: StreamAddOptions, call: AddCall) -> StreamAddOptions
    ensures { result ≡ after_add options (add_call_of call) }
{
    match call {
        AddCall::Nomkstream => options.nomkstream(),
        AddCall::Trim(strategy) => options.trim(strategy),
        AddCall::Policy(policy) => options.set_deletion_policy(policy),
        AddCall::Idmp(producer_id, idempotent_id) => options.idmp(producer_id, idempotent_id),
        AddCall::Idmpauto(producer_id) => options.idmpauto(producer_id),
    }
}

/// Applies these calls to the default options, in order. It fails only out of memory, and then
/// drops what was made.
#[tactic(auto, using(crate::proofs::PlayLemmas::read_final_push))]
pub fn play_read(alloc: Global, calls: Vec<ReadCall>) -> Result<StreamReadOptions, AllocError>
    ensures { IfOk result (λ options. options
        ≡ final_read default_read (map read_call_of calls.items)) }
{
    let mut options = StreamReadOptions::default();
    for call in calls {
        options = play_read_call(alloc, options, call)?;
    }
    Ok(options)
}

fn play_read_call(
    alloc: Global,
    options: StreamReadOptions,
    call: ReadCall,
) -> Result<StreamReadOptions, AllocError>
    ensures { IfOk result (λ made. made ≡ after_read options (read_call_of call)) }
{
    match call {
        ReadCall::Noack => Ok(options.noack()),
        ReadCall::Block(milliseconds) => Ok(options.block(milliseconds)),
        ReadCall::Count(entries) => Ok(options.count(entries)),
        ReadCall::Claim(milliseconds) => Ok(options.claim(milliseconds)),
        ReadCall::Group(group, consumer) => options.group(alloc, group, consumer),
    }
}
