//! A server of stream commands in memory for one connection, at its standard input and
//! output: commands come in as bytes of RESP, and replies go out.
//!
//! An argument that is a number of milliseconds is its clock, which then does not move.
#![tactic(auto)]

ghost use Rattle.std.specs.Prelude.{◌≡◌, IfSome, OnErr, OnOk};
ghost use Rattle.stream_serve.specs.Served.{Ends, Stops, beginning};

mod output;
mod words;

use crate::output::{Output, send};
use crate::words::fixed_time;
use anyhow::{Result, bail};
use server_commands::{Client, Server};
use std::alloc::Global;
use std::io::Read;
use std::rt::Clock;
use std::time::{SystemTime, UNIX_EPOCH};
use std::{env, io};

/// Replies to commands until the input or the connection ends.
fn serve<R: Read, W: Output, C: Clock>(
    alloc: Global,
    clock: &C,
    fixed: Option<u64>,
    input: &mut R,
    output: &mut W,
) -> Result<()>
    ensures ok { OnOk result (Ends R.remaining W.contents W.is_flushed
        (beginning input.old output.old) input.new output.new) }
    ensures err { OnErr result (Stops R.remaining W.contents W.is_flushed
        (beginning input.old output.old) input.new output.new) }
{
    let mut server = Server::new(alloc);
    let mut client = Client::new(alloc);
    let mut replies = Vec::new(alloc);
    let mut piece = [0u8; 65536];
    for _turn in 0..u64::MAX {
        let len = input.read(&mut piece)?;
        if len == 0 {
            return Ok(());
        }
        let now = find_time(clock, fixed)?;
        client.answer(alloc, &mut server, now, &piece[..len], &mut replies)?;
        send(&mut replies, output)?;
        if client.has_ended() {
            return Ok(());
        }
    }
    bail!("the input has no end")
}

/// The time of a piece, in milliseconds since 1970: the fixed one, or else that of the clock.
fn find_time<C: Clock>(clock: &C, fixed: Option<u64>) -> Result<u64>
    ensures { IfSome fixed (λ time. result ≡ Ok time) }
{
    match fixed {
        Some(time) => Ok(time),
        None => read_clock(clock),
    }
}

/// Milliseconds since 1970.
fn read_clock<C: Clock>(clock: &C) -> Result<u64> {
    let now = SystemTime::now(clock)?;
    match now.duration_since(UNIX_EPOCH) {
        Ok(duration) => Ok(u64::try_from(duration.as_millis()).unwrap_or(u64::MAX)),
        Err(_) => bail!("the clock is before 1970"),
    }
}

fn main(rt: HostRuntime) -> Result<()> {
    let words = read_arguments(&rt)?;
    let fixed = fixed_time(&words);
    serve(
        rt.alloc(),
        &rt,
        fixed,
        &mut rt.reader(),
        &mut io::writer(&rt),
    )
}

/// The arguments of the program.
fn read_arguments(rt: &HostRuntime) -> Result<Vec<String>> {
    let mut words = Vec::new(rt.alloc());
    for word in env::args(rt)?.skip(1) {
        words.push(word)?;
    }
    Ok(words)
}
