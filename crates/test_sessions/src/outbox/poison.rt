//! A worker with dead letters, and an entry that ends the process each time that it is handled.
//!
//! A handler that stops, at an entry with a field `poison`, plays the end of the process. The text of a start has the
//! entries that were committed before it ended, and those that the handler was given.
ghost use Rattle.std.specs.Prelude.{◌≡◌, [], IfOk, string_bytes};

use crate::make_group_settings;
use crate::workers::ScriptHandler;
use redis_connection::Connection;
use std::alloc::{AllocError, Global};
use std::io::{Read, Write};
use worker::dead_letters::{DeadLetterSearch, GiveUp};
use worker::{Asked, Progress, Settings, Worker};

/// This number of rounds of a start is enough for every entry.
const ROUNDS: u8 = 20;

/// Starts another worker with this handler, and drops the handler's entries that are not committed. The worker gives
/// up entries with this number of deliveries. It makes rounds until its handler stops, or `ROUNDS` of them.
pub fn start_worker<R: Read + Drop, W: Write + Drop>(
    alloc: Global,
    connection: &mut Connection<R, W>,
    handler: &mut ScriptHandler,
    deliveries: usize,
) -> Result<String, AllocError>
    ensures { IfOk result (λ _. string_bytes handler.new.seen ≡ []) }
{
    handler.kept.loose.clear();
    run_worker(alloc, connection, handler, deliveries)?;
    format_start(alloc, handler)
}

/// Runs a new worker until its handler stops, or for `ROUNDS` rounds.
fn run_worker<R: Read + Drop, W: Write + Drop>(
    alloc: Global,
    connection: &mut Connection<R, W>,
    handler: &mut ScriptHandler,
    deliveries: usize,
) -> Result<(), AllocError> {
    let mut settings = make_group_settings(alloc, "k", "c")?;
    let mut search = make_search(alloc, &mut settings, deliveries)?;
    let mut worker = Worker::new(alloc, settings);
    make_rounds(alloc, connection, &mut search, &mut worker, handler)
}

/// Returns the search for entries to give up, of a worker that is then made from these settings.
fn make_search(
    alloc: Global,
    settings: &mut Settings,
    deliveries: usize,
) -> Result<DeadLetterSearch, AllocError> {
    let stream = String::from_str(alloc, "dead")?;
    match DeadLetterSearch::new(alloc, settings, GiveUp { deliveries, stream }) {
        Ok(search) => Ok(search),
        Err(_error) => Err(AllocError),
    }
}

/// Makes rounds until the handler stops, or `ROUNDS` of them.
fn make_rounds<R: Read + Drop, W: Write + Drop>(
    alloc: Global,
    connection: &mut Connection<R, W>,
    search: &mut DeadLetterSearch,
    worker: &mut Worker,
    handler: &mut ScriptHandler,
) -> Result<(), AllocError> {
    let mut last = Asked::Nothing;
    for _ in 0..ROUNDS {
        let has_uncommitted = !handler.kept.loose.is_empty();
        if search
            .turn(alloc, connection, last, has_uncommitted)
            .is_err()
        {
            return Err(AllocError);
        }
        match make_round(alloc, connection, worker, handler)? {
            Some(request) => last = request,
            None => return Ok(()),
        }
    }
    Ok(())
}

/// Makes a round. Returns its request, or `None` if the handler stopped.
fn make_round<R: Read + Drop, W: Write + Drop>(
    alloc: Global,
    connection: &mut Connection<R, W>,
    worker: &mut Worker,
    handler: &mut ScriptHandler,
) -> Result<Option<Asked>, AllocError> {
    match worker.round(alloc, connection, handler) {
        Ok(round) => match round.progress {
            Progress::Stopped => Ok(None),
            Progress::GoesOn => Ok(Some(round.asked)),
        },
        Err(_error) => Err(AllocError),
    }
}

/// Returns the ids of the entries that were committed so far, and the entries that the handler was given.
fn format_start(alloc: Global, handler: &mut ScriptHandler) -> Result<String, AllocError>
    ensures { IfOk result (λ _. string_bytes handler.new.seen ≡ []) }
{
    let mut text = String::from_str(alloc, "committed")?;
    for row in &handler.kept.committed {
        text.push(' ')?;
        text.push_str(row.id.as_str())?;
    }
    text.push_str(handler.take_report(alloc)?.as_str())?;
    Ok(text)
}
