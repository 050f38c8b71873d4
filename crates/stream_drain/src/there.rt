//! The text of the file at the offset of a known id.
ghost use Rattle.std.specs.Prelude.{◌≡◌, IfOk, Some, option_map, true};
ghost use Rattle.worker_journal.specs.KnownIds.Told.{begins};
ghost use Rattle.worker_journal.specs.Holds.{committed_in};
ghost use Rattle.stream_drain.specs.There.{OfAll, begun, ends, ends_text, found_in, has_id, has_line, there};

use std::alloc::Global;
use worker_journal::{LineLog, LogError, LogFile};

const JSON_HEAD: &[u8] = b"{\"id\":\"";

const JSON_NEXT: &[u8] = b"\",\"fields\":[";

/// The number of bytes around the id at the start of a line of JSON.
const AROUND: usize = 19;

/// The text of the file at the offset of a known id.
#[derive(Clone, Copy)]
pub enum There {
    /// The line that was looked up, with its line end.
    Same,
    /// Another line with the same id.
    Other,
    /// No line with this id.
    Neither,
}

/// Reads the text at the offset `at` of the committed and gathered lines. Reads two bytes more than the line
/// has, or than the start of another line with this id has.
pub fn what_is_at<D: LogFile + Drop>(
    alloc: Global,
    log: &LineLog<D>,
    at: usize,
    line: &[u8],
    id: &[u8],
    json: bool,
) -> Result<There, LogError>
    ensures { IfOk result (λ found. OfAll (committed_in (D.seen log.now.file) log.now.len) log.now.len
        log.now.batch.items (λ bytes. found ≡ there json id.now line.now bytes at)) }
{
    let len = line.len().max(id.len() + AROUND) + 2;
    let read = log.bytes_at(alloc, at.saturating_sub(1), len)?;
    match find_line_at(&read, at) {
        Some(text) => Ok(compare_text(text, line, id, json)),
        None => Ok(There::Neither),
    }
}

/// Returns the text at the offset `at`, if a line begins there. `bytes` start one byte before `at`, or at 0 if
/// `at` is 0.
fn find_line_at(bytes: &[u8], at: usize) -> Option<&[u8]>
    ensures { option_map (λ text. text.now) result ≡ begun at bytes.now }
{
    if at == 0 {
        return Some(bytes);
    }
    match bytes {
        [b'\n', text @ ..] => Some(text),
        _ => None,
    }
}

/// Compares the start of the text with the line, and with the start of a line of `id`.
fn compare_text(text: &[u8], line: &[u8], id: &[u8], json: bool) -> There
    ensures { result ≡ found_in json id.now line.now (Some text.now) }
{
    if has_line(text, line) {
        There::Same
    } else if has_id(text, id, json) {
        There::Other
    } else {
        There::Neither
    }
}

/// Whether the text begins with the line and a line end.
fn has_line(text: &[u8], line: &[u8]) -> bool
    ensures { result ≡ has_line line.now text.now }
{
    match text.strip_prefix(line) {
        Some(rest) => ends(rest),
        None => false,
    }
}

/// Whether the text begins like a line with this id.
fn has_id(text: &[u8], id: &[u8], json: bool) -> bool
    ensures { result ≡ has_id json id.now text.now }
{
    if json {
        has_id_of_json(text, id)
    } else {
        match text.strip_prefix(id) {
            Some(rest) => ends_text(rest),
            None => false,
        }
    }
}

/// Whether the text begins like a line of JSON with this id.
fn has_id_of_json(text: &[u8], id: &[u8]) -> bool
    ensures { result ≡ has_id true id.now text.now }
{
    let Some(rest) = text.strip_prefix(JSON_HEAD) else {
        return false;
    };
    match rest.strip_prefix(id) {
        Some(rest) => rest.starts_with(JSON_NEXT),
        None => false,
    }
}

/// Whether the text begins with a line end.
fn ends(text: &[u8]) -> bool
    ensures { result ≡ ends text.now }
{
    match text {
        [first, ..] => *first == b'\n',
        [] => false,
    }
}

/// Whether the text begins with a tab or a line end.
fn ends_text(text: &[u8]) -> bool
    ensures { result ≡ ends_text text.now }
{
    match text {
        [first, ..] => *first == b'\t' || *first == b'\n',
        [] => false,
    }
}
