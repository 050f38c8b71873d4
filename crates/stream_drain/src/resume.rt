//! The start of the program with the ids of the last lines of its file.
ghost use Rattle.std.specs.Prelude.{◌≡◌, ◌≤◌, ◌++◌, ◌∷◌, [], ℕ, List, IfOk, IfSome, IsTrue, codes, length, string_bytes, take};
ghost use Rattle.std.specs.List.{list_all};
ghost use Rattle.worker_journal.specs.Holds.{committed_in};
ghost use Rattle.worker_journal.specs.LastLines.{last_of, lines_of};
ghost use Rattle.worker_journal.specs.LineTexts.{bytes_of};
ghost use Rattle.stream_drain.specs.Resumed.{BeginsSo, BeginsWithLast, Tells, TellEach, is_of_id};
ghost use Rattle.stream_drain.specs.Program.{Starts};
ghost use Rattle.stream_drain.specs.Counts.{has_any};
ghost use Rattle.stream_drain.specs.Known.{known_by};
ghost use Rattle.worker.specs.Machine.{ids_of};
ghost use Rattle.worker.specs.Session.{standing_of};

use crate::lines::Lines;
use anyhow::{Result, bail};
use std::alloc::{AllocError, Global};
use worker::{Handler, Settings, Worker};
use worker_journal::{LogFile, entry_in};

/// The largest `COUNT`. No commit has more lines.
pub const LARGEST_COUNT: usize = 10_000;

/// A worker at its start.
#[derive(Drop)]
pub struct Start {
    pub worker: Worker,
    /// Whether the worker first acknowledges the entries in its file.
    pub acknowledges: bool,
}

/// Creates a worker that first acknowledges the entries of the last lines of its file, as many as a commit may
/// have. Therefore entries that have a line and were not acknowledged are not delivered again. A line without
/// an id is an error.
pub fn begun<D: LogFile + Drop>(
    alloc: Global,
    settings: Settings,
    lines: &Lines<D>,
) -> Result<Start>
    ensures settings { IfOk result (λ b. b.worker.settings ≡ settings) }
    ensures acknowledges { IfOk result (λ b. IfSome (committed_in (D.seen lines.now.log.file) lines.now.log.len)
        (λ bytes. b.acknowledges ≡ has_any (last_of LARGEST_COUNT (lines_of bytes)))) }
    ensures starts { IfOk result (λ b. Starts settings (⟦<Lines<D> as Handler>⟧.history lines.now)
        (standing_of b.worker (⟦<Lines<D> as Handler>⟧.history lines.now))) }
    ensures lives { IfOk result (λ b. lines.now.log.batch.items ≡ []
        → IfSome (committed_in (D.seen lines.now.log.file) lines.now.log.len)
        (λ bytes. BeginsSo LARGEST_COUNT settings lines.now.json (known_by lines.now.known) bytes
        (standing_of b.worker (⟦<Lines<D> as Handler>⟧.history lines.now)))) }
    ensures last { IfOk result (λ b. lines.now.log.batch.items ≡ []
        → IfSome (committed_in (D.seen lines.now.log.file) lines.now.log.len)
        (λ bytes. BeginsWithLast LARGEST_COUNT settings lines.now.json (known_by lines.now.known) bytes
        (standing_of b.worker (⟦<Lines<D> as Handler>⟧.history lines.now)))) }
{
    let ids = lines.last_ids(alloc, LARGEST_COUNT)?;
    let acknowledges = has_ids(&ids);
    let worker = Worker::resumed(alloc, settings, ids);
    Ok(Start {
        worker,
        acknowledges,
    })
}

/// Whether there are ids to acknowledge.
fn has_ids(ids: &[String]) -> bool
    ensures { result ≡ has_any ids.now }
{
    match ids {
        [] => false,
        _ => true,
    }
}

/// Returns the ids of the entries of the lines, in order. A line without an id is an error.
pub fn ids_told(alloc: Global, lines: &[Vec<u8>], json: bool) -> Result<Vec<String>>
    ensures { IfOk result (λ ids. TellEach json (bytes_of lines.now) (ids_of ids)) }
{
    let mut ids = Vec::with_capacity(alloc, lines.len())?;
    for line in lines {
        match find_id(alloc, line, json)? {
            Some(id) => ids.push(id)?,
            None => return fail_without_id(lines.len().saturating_sub(ids.len())),
        }
    }
    Ok(ids)
}

/// Returns the error that a line has no id. `place` counts from the end of the file.
fn fail_without_id(place: usize) -> Result<Vec<String>>
    ensures { IfOk result (λ _. ⊥) }
{
    bail!("line {place} from its end is of no entry: correct the file, or take another one")
}

/// Returns the id in a line. Returns `None` if the line is not that of an entry, or if the id cannot be the id
/// of a stream entry.
fn find_id(alloc: Global, line: &[u8], json: bool) -> Result<Option<String>, AllocError>
    ensures { IfOk result (λ o. IfSome o (λ id. Tells json line.now (string_bytes id))) }
{
    if json {
        match find_id_in_json(line) {
            Some(id) => read_id(alloc, id),
            None => Ok(None),
        }
    } else {
        match entry_in(alloc, line)? {
            Some(entry) => read_id(alloc, &entry.id),
            None => Ok(None),
        }
    }
}

/// Returns the bytes as an id. Returns `None` unless each byte is a digit or a hyphen, and there is a hyphen.
fn read_id(alloc: Global, id: &[u8]) -> Result<Option<String>, AllocError>
    ensures { IfOk result (λ o. IfSome o (λ text. string_bytes text ≡ id.now)) }
{
    if count_id_bytes(id) < id.len() || !id.contains(&b'-') {
        return Ok(None);
    }
    match str::from_utf8(id) {
        Ok(text) => Ok(Some(String::from_str(alloc, text)?)),
        Err(_) => Ok(None),
    }
}

/// Returns the id in a line `{"id":"..","fields":[..`, if each byte of the id is a digit or a hyphen.
fn find_id_in_json(line: &[u8]) -> Option<&[u8]>
    ensures { IfSome result (λ id. (rest : List ℕ) × (line.now ≡ codes "{\"id\":\"" ++ (id.now ++ (34 ∷ rest)))
        × IsTrue (list_all is_of_id id.now)) }
{
    let head = line.get(..7)?;
    let rest = line.get(7..)?;
    let len = count_id_bytes(rest);
    let id = rest.get(..len)?;
    let behind = rest.get(len..)?;
    let next = behind.get(..12)?;
    let is_head = head == b"{\"id\":\"".as_slice();
    let is_next = next == b"\",\"fields\":[".as_slice();
    if is_head && is_next { Some(id) } else { None }
}

/// Returns the number of digits and hyphens at the start of the text.
fn count_id_bytes(text: &[u8]) -> usize
    ensures within { result ≤ length text.now }
    ensures all { IsTrue (list_all is_of_id (take result text.now)) }
{
    let mut len = 0;
    while len < text.len() && (text[len].is_ascii_digit() || text[len] == b'-') {
        len += 1;
    }
    len
}
