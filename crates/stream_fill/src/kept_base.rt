//! The base of records that are added after the entries of a stream. The base is stored in a file.
//!
//! A first run takes the first number of the stream's last id as the base. It writes the base to the file, and
//! syncs the file, before it adds records. Therefore a later run finds the same base, and continues.
ghost use Rattle.std.specs.Prelude.{◌≡◌, ◌<◌, ◌^◌, ℕ, Some, decimal, IfErr, IfOk, IfSome, OnOk};
ghost use Rattle.worker_journal.specs.Device.{Only};
ghost use Rattle.stream_fill.specs.Base.{BeginsWithNumber, FindsBase, HasNoBase, IsOfFile, IsUnkept, IsUnread, Keeps, base_line};

use crate::split::split_at_byte;
use itoa::Buffer;
use redis_connection::Connection;
use std::alloc::{AllocError, Global};
use std::io::{Read, Write};
use std::str;
use thiserror::Error;
use worker_journal::{LogError, LogFile};
use worker_producer::{RunError, ask_last_id};

/// Why no base was found.
#[derive(Debug, Drop, Error)]
pub enum BaseError {
    /// The file has other content than a base of this stream.
    #[error("keeps no base of this stream")]
    OtherFile,
    /// The file could not be read or written.
    #[error("{0}")]
    File(LogError),
    /// The last id could not be read from the server.
    #[error("{0}")]
    Ask(RunError),
}

impl From<LogError> for BaseError {
    ghost use Rattle.std.specs.Prelude.{◌≡◌};
    ghost use Rattle.stream_fill.specs.declared.kept_base.BaseError.TheVariants as causes;

    ghost from_gives = { λ r e. e ≡ causes.File r };

    fn from(error: LogError) -> BaseError {
        BaseError::File(error)
    }
}

impl From<AllocError> for BaseError {
    ghost use Rattle.std.specs.Prelude.{◌≡◌};
    ghost use Rattle.worker_journal.specs.declared.error.LogError.TheVariants as logs;
    ghost use Rattle.stream_fill.specs.declared.kept_base.BaseError.TheVariants as causes;

    ghost from_gives = { λ _ e. e ≡ causes.File logs.Memory };

    fn from(_error: AllocError) -> BaseError {
        BaseError::File(LogError::Memory)
    }
}

impl From<RunError> for BaseError {
    ghost use Rattle.std.specs.Prelude.{◌≡◌};
    ghost use Rattle.stream_fill.specs.declared.kept_base.BaseError.TheVariants as causes;

    ghost from_gives = { λ r e. e ≡ causes.Ask r };

    fn from(error: RunError) -> BaseError {
        BaseError::Ask(error)
    }
}

/// Returns the base in the file for the stream `key`. If the file has no base, the base is the first number of
/// the stream's last id. Then the base is written to the file. In both cases the file is synced before the base is
/// returned.
pub fn find_base<D: LogFile, R: Read + Drop, W: Write + Drop>(
    alloc: Global,
    file: &mut D,
    connection: &mut Connection<R, W>,
    key: &str,
) -> Result<u64, BaseError>
    ensures ok { IfOk result (FindsBase D.seen D.may_leave D.is_sound key.now file.old file.new
        connection.old connection.new) }
    ensures err { IfErr result (HasNoBase D.seen key.now file.old file.new connection.old connection.new) }
{
    if let Some(base) = read_base(alloc, &*file, key)? {
        // (a run that was killed may have written it, and not synced it)
        file.sync()?;
        return Ok(base);
    }
    let (base, _second) = ask_last_id(alloc, connection, key)?;
    keep_base(alloc, file, key, base)?;
    Ok(base)
}

/// Reads the base in the file for the stream `key`, if there is one. A run that was killed while it wrote the
/// base may have left a part of it. Such a part is not a base, and no record was added yet.
#[tactic(auto, using(crate::proofs::KeepLemmas::whole_kept))]
fn read_base<D: LogFile>(alloc: Global, file: &D, key: &str) -> Result<Option<u64>, BaseError>
    ensures ok { IfOk result (λ found. IfSome (D.seen file.now) (λ bytes. Keeps key.now bytes found)) }
    ensures err { IfErr result (IsUnread (D.seen file.now) key.now) }
{
    let len = file.len()?;
    let bytes = file.read_at(alloc, 0, len)?;
    parse_base(alloc, &bytes, key)
}

/// Parses the base in `bytes`. Returns `None` if they are only the beginning of such a line.
fn parse_base(alloc: Global, bytes: &[u8], key: &str) -> Result<Option<u64>, BaseError>
    ensures ok { IfOk result (Keeps key.now bytes.now) }
    ensures err { IfErr result (IsUnkept key.now bytes.now) }
{
    let Some(base) = parse_front_number(bytes) else {
        return Err(BaseError::OtherFile);
    };
    let line = format_base(alloc, key, base)?;
    if bytes == line.as_slice() {
        return Ok(Some(base));
    }
    if line.starts_with(bytes) {
        return Ok(None);
    }
    Err(BaseError::OtherFile)
}

/// Parses the number at the start of `bytes`, up to a space or the end. Returns 0 if there are no bytes.
#[tactic(auto, using(crate::proofs::BaseLemmas::of_nothing, crate::proofs::BaseLemmas::before_space, crate::proofs::BaseLemmas::without_space))]
fn parse_front_number(bytes: &[u8]) -> Option<u64>
    ensures { (n : ℕ) → n < 2 ^ 64 → BeginsWithNumber bytes.now n → result ≡ Some n }
{
    if bytes.is_empty() {
        return Some(0);
    }
    match split_at_byte(bytes, b' ') {
        Some((digits, _rest)) => parse_number(digits),
        None => parse_number(bytes),
    }
}

/// Parses `digits` as a number.
#[tactic(auto, using(crate::proofs::BaseLemmas::not_text, crate::proofs::BaseLemmas::read_back))]
fn parse_number(digits: &[u8]) -> Option<u64>
    ensures { (n : ℕ) → n < 2 ^ 64 → digits.now ≡ decimal n → result ≡ Some n }
{
    let Ok(text) = str::from_utf8(digits) else {
        return None;
    };
    text.parse::<u64>().ok()
}

/// Writes the base to the file, in place of a part of a base.
#[tactic(auto, using(crate::proofs::KeepLemmas::line_kept))]
fn keep_base<D: LogFile>(alloc: Global, file: &mut D, key: &str, base: u64) -> Result<(), BaseError>
    ensures kept { OnOk result (IfSome (D.seen file.old)
        (λ _. D.seen file.new ≡ Some (base_line key.now base))) }
    ensures durable { OnOk result (IfSome (D.seen file.old)
        (λ _. Only (base_line key.now base) (D.may_leave file.new))) }
    ensures err { IfErr result IsOfFile }
{
    let line = format_base(alloc, key, base)?;
    file.cut(0)?;
    file.append(&line)?;
    file.sync()?;
    Ok(())
}

/// Returns the line of a base: the digits, a space, the key and a line feed.
fn format_base(alloc: Global, key: &str, base: u64) -> Result<Vec<u8>, AllocError>
    ensures { IfOk result (λ line. line.items ≡ base_line key.now base) }
{
    let mut line = Vec::new(alloc);
    line.extend_from_slice(Buffer::new().format::<u64>(base).as_bytes())?;
    line.push(b' ')?;
    line.extend_from_slice(key.as_bytes())?;
    line.push(b'\n')?;
    Ok(line)
}
