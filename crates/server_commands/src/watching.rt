//! What `WATCH` remembers of a key.
ghost use Rattle.std.specs.Prelude.{◌≡◌, IfOk, length};
ghost use Rattle.std.specs.List.{list_any};
ghost use Rattle.server_commands.specs.Watching.{has_key, is_changed, is_still, is_touched};

use crate::session::Session;
use server_store::Stream;
use std::alloc::{AllocError, Global};

/// A key that WATCH named.
#[derive(Debug, Drop)]
pub(crate) struct Watched {
    key: Vec<u8>,
    /// What its stream was like; None if there was none.
    mark: Option<Mark>,
}

/// What a stream is like: its last id, and how many entries it has. XADD, XDEL and XTRIM change one of them.
#[derive(Clone, Copy, Debug)]
struct Mark {
    milliseconds: u64,
    sequence: u64,
    len: usize,
}

/// The keys, each with what its stream is like.
pub(crate) fn note_all(
    alloc: Global,
    streams: &[Stream],
    keys: &[Vec<u8>],
) -> Result<Vec<Watched>, AllocError>
    ensures { IfOk result (λ list. length list.items ≡ length keys.now) }
{
    let mut list = Vec::with_capacity(alloc, keys.len())?;
    for key in keys {
        list.push(Watched {
            key: key.clone()?,
            mark: make_mark(streams, key),
        })?;
    }
    Ok(list)
}

/// What the stream of the key is like.
fn make_mark(streams: &[Stream], key: &[u8]) -> Option<Mark> {
    let stream = streams.iter().find(|stream| has_key(stream, key))?;
    Some(Mark {
        milliseconds: stream.last_id.milliseconds,
        sequence: stream.last_id.sequence,
        len: stream.entries.len(),
    })
}

/// Whether a watched key was changed.
pub(crate) fn is_touched(streams: &[Stream], session: &Session) -> bool
    ensures { result ≡ is_touched streams.now session.now }
{
    session.is_touched || has_changed(streams, &session.watched)
}

/// Whether one of the keys is changed.
fn has_changed(streams: &[Stream], watched: &[Watched]) -> bool
    ensures { result ≡ list_any (is_changed streams.now) watched.now }
{
    watched.iter().any(|watched| is_changed(streams, watched))
}

/// Whether the key has a stream now and had none, or has none that is as it was.
fn is_changed(streams: &[Stream], watched: &Watched) -> bool
    ensures { result ≡ is_changed streams.now watched.now }
{
    match watched.mark {
        Some(mark) => !has_still(streams, &watched.key, mark),
        None => has_any(streams, &watched.key),
    }
}

/// Whether a stream has this key, and is as the mark says.
fn has_still(streams: &[Stream], key: &[u8], mark: Mark) -> bool
    ensures { result ≡ list_any (is_still key.now mark) streams.now }
{
    streams.iter().any(|stream| is_still(stream, key, mark))
}

/// Whether a stream has this key.
fn has_any(streams: &[Stream], key: &[u8]) -> bool
    ensures { result ≡ list_any (has_key key.now) streams.now }
{
    streams.iter().any(|stream| has_key(stream, key))
}

/// Whether the stream has this key, and is as the mark says.
fn is_still(stream: &Stream, key: &[u8], mark: Mark) -> bool
    ensures { result ≡ is_still key.now mark stream.now }
{
    has_key(stream, key)
        && stream.last_id.milliseconds == mark.milliseconds
        && stream.last_id.sequence == mark.sequence
        && stream.entries.len() == mark.len
}

/// Whether the stream has this key.
fn has_key(stream: &Stream, key: &[u8]) -> bool
    ensures { result ≡ has_key key.now stream.now }
{
    stream.key.as_slice() == key
}
