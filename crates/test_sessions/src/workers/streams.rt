//! One consumer of several streams: a worker for each, over one connection and with one handler.
//!
//! The words of the first line are the protocol, the number of turns of each worker, and the streams.
ghost use Rattle.std.specs.Prelude.{◌≡◌, IfOk};
ghost use Rattle.test_sessions.specs.Scripts.{is_streams_script};

use crate::workers::{ScriptHandler, read_reply};
use crate::{
    Peer, format_commands, make_group_settings, parse_number, push_exchange, push_line,
    run_command, run_lines, split_at_mark,
};
use redis_wire::{Decoded, Limits, command_words, decode};
use std::alloc::{AllocError, Global};
use worker::Worker;

/// Returns a worker for each stream.
fn make_workers(alloc: Global, keys: &str) -> Result<Vec<Worker>, AllocError> {
    let mut workers = Vec::new(alloc);
    for key in keys.split(' ') {
        workers.push(Worker::new(alloc, make_group_settings(alloc, key, "ann")?))?;
    }
    Ok(workers)
}

/// Executes the command in these bytes, and returns the bytes of the reply; no bytes if they hold no command.
fn run_request(alloc: Global, peer: &mut Peer, request: &[u8]) -> Result<Vec<u8>, AllocError> {
    match decode(alloc, request, Limits::default()) {
        Ok(Decoded::Complete { reply, len: _ }) => match command_words(alloc, reply)? {
            Some(words) => run_command(alloc, peer, words),
            None => Ok(Vec::new(alloc)),
        },
        Ok(Decoded::Incomplete) => Ok(Vec::new(alloc)),
        Err(_error) => Err(AllocError),
    }
}

/// Has a worker send its next command and take the reply, and prints both.
fn play_turn(
    alloc: Global,
    peer: &mut Peer,
    worker: &mut Worker,
    handler: &mut ScriptHandler,
    out: &mut String,
) -> Result<(), AllocError> {
    let mut request = Vec::new(alloc);
    if worker.request(alloc, &mut request, handler).is_err() {
        return Err(AllocError);
    }
    let reply = run_request(alloc, peer, &request)?;
    let text = read_reply(alloc, worker, handler, false, &reply)?;
    push_exchange(
        out,
        format_commands(alloc, &request)?.as_str(),
        text.as_str(),
    )
}

/// Plays the script if this module has one of this name. Returns whether it has.
pub fn play(
    alloc: Global,
    name: &str,
    words: &str,
    lines: &str,
    out: &mut String,
) -> Result<bool, AllocError>
    ensures { IfOk result (λ played. played ≡ is_streams_script name.now) }
{
    match name {
        "streams" => played!(play_streams(alloc, words, lines, out)),
        _ => Ok(false),
    }
}

/// Plays workers of streams, and prints the pending entries at the end.
fn play_streams(
    alloc: Global,
    words: &str,
    lines: &str,
    out: &mut String,
) -> Result<(), AllocError> {
    let (protocol, rest) = split_at_mark(words, ' ');
    let (turns, keys) = split_at_mark(rest, ' ');
    let mut peer = Peer::new(alloc, protocol);
    run_lines(alloc, &mut peer, lines, out)?;
    play_turns(alloc, &mut peer, parse_number(turns), keys, out)?;
    push_pending(alloc, &mut peer, keys, out)
}

/// Prints the pending entries of these streams.
fn push_pending(
    alloc: Global,
    peer: &mut Peer,
    keys: &str,
    out: &mut String,
) -> Result<(), AllocError> {
    for key in keys.split(' ') {
        let line = format!(in alloc; "XPENDING {key} g")?;
        run_lines(alloc, peer, line.as_str(), out)?;
    }
    Ok(())
}

/// Plays new workers of these streams, each for this number of turns.
fn play_turns(
    alloc: Global,
    peer: &mut Peer,
    turns: usize,
    keys: &str,
    out: &mut String,
) -> Result<(), AllocError> {
    let mut workers = make_workers(alloc, keys)?;
    let mut handler = ScriptHandler::new(alloc);
    play_all_turns(alloc, peer, &mut workers, &mut handler, turns, out)?;
    push_line(out, handler.take_report(alloc)?.as_str())
}

/// Gives each worker this number of turns.
fn play_all_turns(
    alloc: Global,
    peer: &mut Peer,
    workers: &mut Vec<Worker>,
    handler: &mut ScriptHandler,
    turns: usize,
    out: &mut String,
) -> Result<(), AllocError> {
    for _ in 0..turns {
        for worker in workers.iter_mut() {
            play_turn(alloc, peer, worker, handler, out)?;
        }
    }
    Ok(())
}
