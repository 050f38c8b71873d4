//! Receives replies from a reader.
ghost use Rattle.std.specs.Prelude.{◌≡◌, ◌≢◌, ◌≤◌, ◌<◌, ℕ, None, Some, IfOk, IfErr, OnOk, OnErr, length};
ghost use Rattle.std.specs.Io.{ReadsAtMost};
ghost use Rattle.std.specs.IoError.{error_kind};
ghost use Rattle.std.specs.Io.KnownBytes.{ReadConsumes};
ghost use Rattle.redis_wire.specs.Reply.{answer};
ghost use Rattle.redis_wire.specs.Decoded.{NoReply};
ghost use Rattle.redis_connection.specs.Cause.{read_failure_of};
ghost use Rattle.redis_connection.specs.Link.{IsEnded, IsFaulty, IsInPlace, IsRetried, Receives, Waits};
ghost use Rattle.redis_connection.specs.Seen.{seen};
ghost use Rattle.redis_connection.specs.Usable.{IsOfReader, IsReadError};

use crate::error::ConnectionError;
use crate::source::Source;
use redis_wire::{Reply, ReplyStream};
use std::alloc::Global;
use std::io;
use std::io::ErrorKind;

/// Reads once, and again after a read that a signal interrupted.
fn read_once<S: Source>(reader: &mut S, piece: &mut [u8]) -> io::Result<usize>
    requires { S.may_read reader.old }
    ensures bound { ReadsAtMost result piece.new }
    ensures bytes { ReadConsumes (S.remaining reader.old) (S.remaining reader.new) result piece.new }
    ensures retried { IfErr result (λ e. error_kind e ≢ ErrorKind.Interrupted) }
    ensures again { IfOk result (λ n. 0 < n → S.may_read reader.new) }
    ensures failed { IfErr result (IsReadError (S.failed_with reader.new)) }
{
    for _turn in 0..u64::MAX {
        match reader.read_some(piece) {
            Ok(len) => return Ok(len),
            Err(error) => {
                if error.kind() != ErrorKind::Interrupted {
                    return Err(error);
                }
            }
        }
    }
    Err(io::Error::from(ErrorKind::TimedOut))
}

/// Returns the result of a read: the number of bytes, `Closed` if there are none, or the reader's error.
fn read_len(read: io::Result<usize>) -> Result<usize, ConnectionError>
    ensures { result ≡ read_failure_of read }
{
    match read {
        Ok(0) => Err(ConnectionError::Closed),
        Ok(len) => Ok(len),
        Err(error) => Err(ConnectionError::Read(error)),
    }
}

/// Appends more bytes to `replies` if it holds no reply: the bytes of `piece` that are left, or else what
/// the reader returns.
fn take_in<S: Source>(
    reader: &mut S,
    replies: &mut ReplyStream,
    piece: &mut [u8],
    unfed: &mut usize,
) -> Result<(), ConnectionError>
    requires room { 0 < length piece.old }
    requires within { unfed.old ≤ length piece.old }
    requires usable { S.may_read reader.old }
    requires none { NoReply replies.old.limits replies.old.bytes }
    ensures within { unfed.new ≤ length piece.new }
    ensures room { 0 < length piece.new }
    ensures waits { Waits
        (seen 0 None (S.remaining reader.old) replies.old piece.old unfed.old)
        (seen 0 None (S.remaining reader.new) replies.new piece.new unfed.new) }
    ensures ended { IfErr result
        (IsEnded (seen 0 None (S.remaining reader.new) replies.new piece.new unfed.new)) }
    ensures faulty { IfErr result
        (IsFaulty (seen 0 None (S.remaining reader.new) replies.new piece.new unfed.new).held) }
    ensures retried { IfErr result IsRetried }
    ensures again { OnOk result (S.may_read reader.new) }
    ensures of_reader { IfErr result
        (IsOfReader (S.may_read reader.new) (S.failed_with reader.new)) }
{
    if *unfed == 0 {
        *unfed = read_len(read_once(reader, piece))?;
    }
    replies.feed(&piece[..*unfed])?;
    *unfed = 0;
    Ok(())
}

/// Receives the next reply. The first `unfed` bytes of `piece` were received and follow those of `replies`,
/// so no error loses bytes that were received.
pub fn receive_from<S: Source>(
    alloc: Global,
    reader: &mut S,
    replies: &mut ReplyStream,
    piece: &mut [u8],
    unfed: &mut usize,
) -> Result<Reply, ConnectionError>
    requires room { 0 < length piece.old }
    requires within { unfed.old ≤ length piece.old }
    requires usable { S.may_read reader.old }
    ensures within { unfed.new ≤ length piece.new }
    ensures ok { IfOk result (λ reply. Receives
        (seen 0 None (S.remaining reader.old) replies.old piece.old unfed.old)
        (seen 0 None (S.remaining reader.new) replies.new piece.new unfed.new) (answer reply)) }
    ensures err { OnErr result (Waits
        (seen 0 None (S.remaining reader.old) replies.old piece.old unfed.old)
        (seen 0 None (S.remaining reader.new) replies.new piece.new unfed.new)) }
    ensures ended { IfErr result
        (IsEnded (seen 0 None (S.remaining reader.new) replies.new piece.new unfed.new)) }
    ensures faulty { IfErr result
        (IsFaulty (seen 0 None (S.remaining reader.new) replies.new piece.new unfed.new).held) }
    ensures retried { IfErr result IsRetried }
    ensures of_reader { IfErr result
        (IsOfReader (S.may_read reader.new) (S.failed_with reader.new)) }
{
    for _turn in 0..u64::MAX {
        if let Some(reply) = replies.next(alloc)? {
            return Ok(reply);
        }
        take_in(reader, replies, piece, unfed)?;
    }
    Err(ConnectionError::Read(io::Error::from(ErrorKind::TimedOut)))
}

/// Returns the length of the next reply, at the start of the bytes that `replies` holds.
pub fn receive_in_place_from<S: Source>(
    alloc: Global,
    reader: &mut S,
    replies: &mut ReplyStream,
    piece: &mut [u8],
    unfed: &mut usize,
) -> Result<usize, ConnectionError>
    requires room { 0 < length piece.old }
    requires within { unfed.old ≤ length piece.old }
    requires usable { S.may_read reader.old }
    ensures within { unfed.new ≤ length piece.new }
    ensures ok { IfOk result (IsInPlace
        (seen 0 None (S.remaining reader.old) replies.old piece.old unfed.old)
        (seen 0 None (S.remaining reader.new) replies.new piece.new unfed.new)) }
    ensures err { OnErr result (Waits
        (seen 0 None (S.remaining reader.old) replies.old piece.old unfed.old)
        (seen 0 None (S.remaining reader.new) replies.new piece.new unfed.new)) }
    ensures ended { IfErr result
        (IsEnded (seen 0 None (S.remaining reader.new) replies.new piece.new unfed.new)) }
    ensures faulty { IfErr result
        (IsFaulty (seen 0 None (S.remaining reader.new) replies.new piece.new unfed.new).held) }
    ensures retried { IfErr result IsRetried }
    ensures of_reader { IfErr result
        (IsOfReader (S.may_read reader.new) (S.failed_with reader.new)) }
{
    for _turn in 0..u64::MAX {
        if let Some(len) = replies.next_in_place(alloc)? {
            return Ok(len);
        }
        take_in(reader, replies, piece, unfed)?;
    }
    Err(ConnectionError::Read(io::Error::from(ErrorKind::TimedOut)))
}
