//! The base of a run: the value of `--base` or, with `--onto`, the base in the file FILE.onto.
ghost use Rattle.std.specs.Prelude.{◌≡◌, ◌⊎◌, ◌++◌, IfOk, OnErr, codes, string_bytes};
ghost use Rattle.stream_fill.specs.Program.{AsksLast, HasFoundBase, StartsAt, StopsAtBase};

use crate::byte_file::ByteFile;
use crate::kept_base::{BaseError, find_base};
use crate::open::Open;
use anyhow::{Error, Result, anyhow};
use redis_connection::Connection;
use std::alloc::{AllocError, Global};
use std::io::{ErrorKind, Read, Write};
use worker_journal::{LogError, LogFile};
use worker_producer::Settings;

/// The settings of a session, and the file with its base. While the file is open, no other run can open it.
#[derive(Drop)]
pub struct Based<D: LogFile + Drop> {
    pub settings: Settings,
    pub kept: Option<D>,
}

/// Returns the settings of a session. With `--onto` their base is in the file FILE.onto, or is written to it.
pub fn find_settings<
    R: Read + Drop,
    W: Write + Drop,
    F: ByteFile,
    D: LogFile + Drop,
    O: Open<F, D>,
>(
    alloc: Global,
    files: &O,
    connection: &mut Connection<R, W>,
    settings: Settings,
    path: &str,
    is_onto: bool,
) -> Result<Based<D>>
    ensures ok { IfOk result (λ based. StartsAt (O.content files.now) path.now is_onto settings
        connection.old connection.new based.settings) }
    ensures err { OnErr result ((connection.new ≡ connection.old)
        ⊎ StopsAtBase is_onto (string_bytes settings.key) connection.old connection.new) }
{
    if !is_onto {
        return Ok(Based {
            settings,
            kept: None,
        });
    }
    let kept = make_kept_path(alloc, path)?;
    let mut file = open_kept(files, kept.as_str())?;
    let settings = use_kept_base(alloc, settings, &mut file, connection, kept.as_str())?;
    Ok(Based {
        settings,
        kept: Some(file),
    })
}

/// Returns the path of the file with the base: FILE.onto.
fn make_kept_path(alloc: Global, path: &str) -> Result<String, AllocError>
    ensures { IfOk result (λ kept. string_bytes kept ≡ path.now ++ codes ".onto") }
{
    let mut kept = String::from_str(alloc, path)?;
    kept.push_str(".onto")?;
    Ok(kept)
}

/// Opens the file with the base.
fn open_kept<F: ByteFile, D: LogFile, O: Open<F, D>>(files: &O, path: &str) -> Result<D>
    ensures { IfOk result (λ file. D.seen file ≡ O.content files.now path.now) }
{
    match files.open_kept(path) {
        Ok(file) => Ok(file),
        Err(LogError::File(reason)) if reason.kind() == ErrorKind::WouldBlock => {
            Err(anyhow!("another process has the file {path}"))
        }
        Err(error) => Err(Error::from(error).context(format_args!("cannot open {path}"))),
    }
}

/// Returns the settings with the base that is in `file`, or is written to it.
fn use_kept_base<D: LogFile, R: Read + Drop, W: Write + Drop>(
    alloc: Global,
    settings: Settings,
    file: &mut D,
    connection: &mut Connection<R, W>,
    path: &str,
) -> Result<Settings>
    ensures ok { IfOk result (λ based. HasFoundBase (D.seen file.old) settings connection.old connection.new based) }
    ensures err { OnErr result ((connection.new ≡ connection.old)
        ⊎ AsksLast (string_bytes settings.key) connection.old connection.new) }
{
    match find_base(alloc, file, connection, settings.key()) {
        Ok(base) => Ok(settings.with_base(base)?),
        Err(error) => Err(explain_no_base(error, path)),
    }
}

/// Returns the error that there is no base. `path` is the path of the file for the base.
fn explain_no_base(error: BaseError, path: &str) -> Error {
    match error {
        BaseError::OtherFile => anyhow!("{path} keeps no base of this stream"),
        BaseError::File(error) => {
            Error::from(error).context(format_args!("cannot keep the base in {path}"))
        }
        BaseError::Ask(error) => error.into(),
    }
}
