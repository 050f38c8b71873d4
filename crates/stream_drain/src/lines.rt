//! Entries as lines of a file.
ghost use Rattle.std.specs.Prelude.{◌≡◌, ◌+◌, ◌++◌, ◌∷◌, [], List, ℕ, IfErr, IfOk, IfSome, OnErr, OnOk, false, flat_map, is_some, length, true};
ghost use Rattle.model_server.specs.Group.Worker.{done, stop};
ghost use Rattle.model_server.specs.Once.Order.{LeavesNone};
ghost use Rattle.worker_journal.specs.KnownIds.Known.{HasPlaceToo, knows, places_in};
ghost use Rattle.worker_journal.specs.KnownIds.Number.{number_of};
ghost use Rattle.worker_journal.specs.EntryLine.{field_text, line_of};
ghost use Rattle.worker_journal.specs.Holds.{Holds, IsHeld, committed_in};
ghost use Rattle.worker_journal.specs.LastLines.{last_of, lines_of};
ghost use Rattle.worker_journal.specs.Lines.{AreLines, IsRepaired};
ghost use Rattle.stream_drain.specs.Counts.{one_more};
ghost use Rattle.stream_drain.specs.Line.{line_in};
ghost use Rattle.stream_drain.specs.Resumed.{KnowsItsFile, TellEach};
ghost use Rattle.stream_drain.specs.Known.{is_known, known_by, numbers_known};
ghost use Rattle.stream_drain.specs.There.{Explains, Finds, HasItsLine, IsOfLog, KnowsPlaces, OfAll, Says, Stands, there};
ghost use Rattle.stream_drain.specs.Written.{Written, committed_with, written_by, written_too};
ghost use Rattle.stream_drain.specs.declared.there.There.TheVariants.{Same};
ghost use Rattle.worker.specs.Handling.{pair_of, verdict_of};
ghost use Rattle.worker.specs.Machine.{ids_of};

use crate::json_lines::json_line;
use crate::resume::ids_told;
use crate::there::{There, what_is_at};
use anyhow::Result as AnyResult;
use std::alloc::{AllocError, Global};
use stream_in_place::FieldsRef;
use thiserror::Error;
use worker::{EntryRef, Handler, NotCommitted, Verdict};
use worker_journal::known_ids::{FileError, KnownIds, number_of, numbers_of_file};
use worker_journal::{LineLog, LogError, LogFile, push_escaped, push_field};

/// Why a line was not gathered, or not committed.
#[derive(Debug, Drop, Error)]
pub enum Fault {
    /// The log failed, or memory ran out.
    #[error("{0}")]
    Log(LogError),
    /// The entry's id is not two numbers, so it cannot be looked up in the file.
    #[error("its id is not two numbers")]
    NotAnId,
    /// The entry's id is known, and the file has another line with this id at the known offset.
    #[error("a line of its id is there with other fields")]
    OtherFields,
    /// The entry's id is known, and the file has no line with this id at the known offset.
    #[error("the file was changed")]
    Changed,
}

/// A handler that writes each entry as a line.
#[derive(Drop)]
pub struct Lines<D: LogFile + Drop> {
    log: LineLog<D>,
    /// Whether each line is JSON.
    json: bool,
    /// With `--look-up`: the ids that have a line, including the gathered lines.
    known: Option<KnownIds>,
    /// The line of the current entry. Its buffer is reused for the next line.
    text: Vec<u8>,
    /// The number of entries that the handler received, of those done, and of those committed.
    pub seen: u64,
    pub done: u64,
    pub committed: u64,
    /// The error with which the handler stopped or did not commit.
    pub fault: Option<Fault>,
    /// The id of the entry at which the handler stopped, if there was memory to keep it.
    pub undone: Option<String>,
    ghost held: { ∥ IsHeld D.seen D.may_leave D.is_sound log.file log.len log.is_broken ∥₁ },
}

impl<D: LogFile + Drop> Lines<D> {
    /// Opens the log in `file`, for lines of JSON or of text with tabs. The complete lines of the file are
    /// committed at first. With `look_up` the whole file is read, and a line without an id is an error.
    pub fn open(alloc: Global, file: D, json: bool, look_up: bool) -> Result<Lines<D>, FileError>
        requires { D.is_sound file }
        ensures new { IfOk result (λ lines. (lines.json ≡ json) × (lines.log.batch.items ≡ [])
            × (lines.seen ≡ 0) × (lines.done ≡ 0) × (lines.committed ≡ 0)) }
        ensures repaired { IfOk result (λ lines. IsRepaired (D.seen file) (D.seen lines.log.file)) }
        ensures whole { IfOk result (λ lines.
            IfSome (committed_in (D.seen lines.log.file) lines.log.len) AreLines) }
        ensures looks { IfOk result (λ lines. is_some lines.known ≡ look_up) }
        ensures knows { IfOk result (λ lines. IfSome (D.seen file) (λ _.
            IfSome (committed_in (D.seen lines.log.file) lines.log.len)
            (λ bytes. KnowsItsFile json bytes (known_by lines.known)))) }
        ensures places { IfOk result (λ lines. IfSome (D.seen file)
            (λ bytes. KnowsPlaces json bytes lines.known)) }
    {
        let known = read_ids(alloc, &file, json, look_up)?;
        Ok(Lines {
            log: LineLog::open(alloc, file)?,
            json,
            known,
            text: Vec::new(alloc),
            seen: 0,
            done: 0,
            committed: 0,
            fault: None,
            undone: None,
        })
    }

    /// Returns the ids of the last `number` committed lines, in order, or of all lines if there are fewer. A
    /// line without an id is an error.
    pub fn last_ids(&self, alloc: Global, number: usize) -> AnyResult<Vec<String>>
        ensures { IfOk result (λ ids. IfSome (committed_in (D.seen self.now.log.file) self.now.log.len)
            (λ bytes. TellEach self.now.json (last_of number (lines_of bytes)) (ids_of ids))) }
    {
        let lines = self.log.last_lines(alloc, number)?;
        ids_told(alloc, &lines, self.json)
    }

    /// Adds the line of an entry to the log. If the entry's id is known, the log must already have this line.
    fn take(&mut self, alloc: Global, entry: &EntryRef<'_>) -> Result<(), Fault>
        ensures ok { OnOk result (⟦<Lines<D> as Handler>⟧.history self.new
            ≡ written_too (⟦<Lines<D> as Handler>⟧.history self.old) (pair_of entry.now) done) }
        ensures err { OnErr result (⟦<Lines<D> as Handler>⟧.history self.new
            ≡ ⟦<Lines<D> as Handler>⟧.history self.old) }
        ensures there { OnOk result (is_known (known_by self.old.known) (pair_of entry.now).0 ≡ true
            → HasItsLine self.old.json (pair_of entry.now) (committed_in (D.seen self.new.log.file) self.new.log.len)
            self.new.log.batch.items) }
        ensures why { IfErr result (λ fault. Explains fault self.old.json (pair_of entry.now) self.old.known
            (committed_in (D.seen self.new.log.file) self.new.log.len) self.new.log.batch.items) }
        ensures file { (self.new.log.file ≡ self.old.log.file) × (self.new.log.len ≡ self.old.log.len)
            × (self.new.log.is_broken ≡ self.old.log.is_broken) }
        ensures counts { (self.new.seen ≡ self.old.seen) × (self.new.done ≡ self.old.done)
            × (self.new.committed ≡ self.old.committed) }
    {
        match &mut self.known {
            Some(known) => add_new(
                alloc,
                known,
                &mut self.log,
                &mut self.text,
                entry,
                self.json,
            ),
            None => add(alloc, &mut self.log, &mut self.text, entry, self.json),
        }
    }
}

impl<D: LogFile + Drop> Handler for Lines<D> {
    ghost History = { Written };

    ghost with_verdict = { written_too };

    ghost with_commit = { committed_with };

    ghost history = { λ h. written_by h.json (known_by h.known) h.log.batch.items (D.seen h.log.file) h.log.len };

    /// Gathers the line of the entry, and returns `Done`. If the entry's id is known, the log must already have
    /// this line. If the line cannot be gathered or found, the worker stops.
    fn handle(&mut self, alloc: Global, entry: &EntryRef<'_>) -> Verdict
        ensures history { ⟦<Lines<D> as Handler>⟧.history self.new
            ≡ written_too (⟦<Lines<D> as Handler>⟧.history self.old) (pair_of entry.now) (verdict_of result) }
        ensures there { verdict_of result ≡ done → is_known (known_by self.old.known) (pair_of entry.now).0 ≡ true
            → HasItsLine self.old.json (pair_of entry.now) (committed_in (D.seen self.new.log.file) self.new.log.len)
            self.new.log.batch.items }
        ensures none_left { LeavesNone (verdict_of result ∷ []) }
        ensures why { verdict_of result ≡ stop → IfSome self.new.fault (λ fault. Explains fault self.old.json
            (pair_of entry.now) self.old.known (committed_in (D.seen self.new.log.file) self.new.log.len)
            self.new.log.batch.items) }
        ensures file { (self.new.log.file ≡ self.old.log.file) × (self.new.log.len ≡ self.old.log.len)
            × (self.new.log.is_broken ≡ self.old.log.is_broken) }
        ensures seen { self.new.seen ≡ one_more self.old.seen }
        ensures is_done { verdict_of result ≡ done → self.new.done ≡ one_more self.old.done }
        ensures is_left { verdict_of result ≡ stop → self.new.done ≡ self.old.done }
        ensures committed { self.new.committed ≡ self.old.committed }
    {
        self.seen = self.seen.saturating_add(1);
        match self.take(alloc, entry) {
            Ok(()) => {
                self.done = self.done.saturating_add(1);
                Verdict::Done
            }
            Err(fault) => {
                self.fault = Some(fault);
                self.undone = String::from_str(alloc, entry.id()).ok();
                Verdict::Stop
            }
        }
    }

    /// Writes the gathered lines and syncs the file. After `Ok`, any crash leaves a file that begins with the
    /// lines committed before, followed by the gathered lines. After an `Err` the lines committed before
    /// remain, and the next commit writes the gathered lines too.
    fn commit(&mut self, _alloc: Global) -> Result<(), NotCommitted>
        ensures holds { OnOk result ((lines : List ℕ)
            → Holds D.seen D.may_leave D.is_sound lines self.old.log.file self.old.log.len self.old.log.is_broken
            → Holds D.seen D.may_leave D.is_sound (lines ++ self.old.log.batch.items)
            self.new.log.file self.new.log.len self.new.log.is_broken) }
        ensures held { OnErr result ((lines : List ℕ)
            → Holds D.seen D.may_leave D.is_sound lines self.old.log.file self.old.log.len self.old.log.is_broken
            → Holds D.seen D.may_leave D.is_sound lines
            self.new.log.file self.new.log.len self.new.log.is_broken) }
        ensures history { OnOk result (⟦<Lines<D> as Handler>⟧.history self.new
            ≡ committed_with (⟦<Lines<D> as Handler>⟧.history self.old)) }
        ensures history_kept { OnErr result (⟦<Lines<D> as Handler>⟧.history self.new
            ≡ ⟦<Lines<D> as Handler>⟧.history self.old) }
        ensures counts { (self.new.seen ≡ self.old.seen) × (self.new.done ≡ self.old.done) }
        ensures committed { OnOk result (self.new.committed ≡ self.old.done) }
        ensures uncommitted { OnErr result (self.new.committed ≡ self.old.committed) }
    {
        match self.log.commit() {
            Ok(()) => {
                self.committed = self.done;
                Ok(())
            }
            Err(error) => {
                self.fault = Some(Fault::Log(error));
                Err(NotCommitted)
            }
        }
    }
}

/// Reads the ids of the lines of a file if `look_up` is true.
fn read_ids<D: LogFile>(
    alloc: Global,
    file: &D,
    json: bool,
    look_up: bool,
) -> Result<Option<KnownIds>, FileError>
    ensures looks { IfOk result (λ known. is_some known ≡ look_up) }
    ensures knows { IfOk result (λ known. IfSome (D.seen file.now) (λ bytes. KnowsItsFile json bytes (known_by known))) }
    ensures places { IfOk result (λ known. IfSome (D.seen file.now) (λ bytes. KnowsPlaces json bytes known)) }
{
    if look_up {
        Ok(Some(KnownIds::of(numbers_of_file(alloc, file, json)?)))
    } else {
        Ok(None)
    }
}

/// Adds the line of an entry to the log, and its id and offset to `known`. If the id was known, the log must
/// already have this line.
fn add_new<D: LogFile + Drop>(
    alloc: Global,
    known: &mut KnownIds,
    log: &mut LineLog<D>,
    text: &mut Vec<u8>,
    entry: &EntryRef<'_>,
    json: bool,
) -> Result<(), Fault>
    ensures ok { OnOk result (written_by json (numbers_known (places_in known.new.ids.items)) log.new.batch.items
        (D.seen log.new.file) log.new.len
        ≡ written_too (written_by json (numbers_known (places_in known.old.ids.items)) log.old.batch.items
        (D.seen log.old.file) log.old.len) (pair_of entry.now) done) }
    ensures err { OnErr result ((known.new.ids.items ≡ known.old.ids.items)
        × (log.new.batch.items ≡ log.old.batch.items)) }
    ensures there { OnOk result (knows (places_in known.old.ids.items) (pair_of entry.now).0 ≡ true
        → OfAll (committed_in (D.seen log.new.file) log.new.len) log.new.len log.new.batch.items
        (Stands Same json (pair_of entry.now) (places_in known.old.ids.items))) }
    ensures place { OnOk result (knows (places_in known.old.ids.items) (pair_of entry.now).0 ≡ false
        → IfSome (number_of (pair_of entry.now).0) (λ n. HasPlaceToo (places_in known.old.ids.items)
        (places_in known.new.ids.items) n (log.old.len + length log.old.batch.items))) }
    ensures why { IfErr result (λ fault. OfAll (committed_in (D.seen log.new.file) log.new.len) log.new.len
        log.new.batch.items (Says fault json (pair_of entry.now) (places_in known.old.ids.items))) }
    ensures file { (log.new.file ≡ log.old.file) × (log.new.len ≡ log.old.len)
        × (log.new.is_broken ≡ log.old.is_broken) }
{
    let Some(number) = number_of(entry.id().as_bytes()) else {
        return Err(Fault::NotAnId);
    };
    if let Some(at) = known.place_of(number) {
        return check_line_at(alloc, log, at, text, entry, json);
    }
    known.make_room()?;
    let at = log.end()?;
    add(alloc, log, text, entry, json)?;
    known.add(number, at)?;
    Ok(())
}

/// Checks that the log has the line of `entry` at the offset `at`.
fn check_line_at<D: LogFile + Drop>(
    alloc: Global,
    log: &LineLog<D>,
    at: usize,
    text: &mut Vec<u8>,
    entry: &EntryRef<'_>,
    json: bool,
) -> Result<(), Fault>
    ensures ok { OnOk result (OfAll (committed_in (D.seen log.now.file) log.now.len) log.now.len log.now.batch.items
        (λ bytes. there json (pair_of entry.now).0 (line_in json (pair_of entry.now)) bytes at ≡ Same)) }
    ensures why { IfErr result (λ fault. OfAll (committed_in (D.seen log.now.file) log.now.len) log.now.len
        log.now.batch.items (λ bytes. Finds fault (there json (pair_of entry.now).0 (line_in json (pair_of entry.now)) bytes at))) }
{
    set_line(alloc, text, entry, json)?;
    match what_is_at(alloc, log, at, text, entry.id().as_bytes(), json)? {
        There::Same => Ok(()),
        There::Other => Err(Fault::OtherFields),
        There::Neither => Err(Fault::Changed),
    }
}

/// Adds the line of an entry to the log.
fn add<D: LogFile + Drop>(
    alloc: Global,
    log: &mut LineLog<D>,
    text: &mut Vec<u8>,
    entry: &EntryRef<'_>,
    json: bool,
) -> Result<(), Fault>
    ensures ok { OnOk result (log.new.batch.items ≡ log.old.batch.items
        ++ (line_in json (pair_of entry.now) ++ 10 ∷ [])) }
    ensures err { OnErr result (log.new.batch.items ≡ log.old.batch.items) }
    ensures why { IfErr result IsOfLog }
    ensures file { (log.new.file ≡ log.old.file) × (log.new.len ≡ log.old.len)
        × (log.new.is_broken ≡ log.old.is_broken) }
{
    set_line(alloc, text, entry, json)?;
    log.add_line(text)?;
    Ok(())
}

/// Replaces `text` by the line of an entry.
fn set_line(
    alloc: Global,
    text: &mut Vec<u8>,
    entry: &EntryRef<'_>,
    json: bool,
) -> Result<(), AllocError>
    ensures { OnOk result (text.new.items ≡ line_in json (pair_of entry.now)) }
{
    if json {
        *text = json_line(alloc, entry)?;
        Ok(())
    } else {
        text.clear();
        push_line(text, entry)
    }
}

/// Appends the line of an entry: the id, the names and the values, in order and separated by tabs.
fn push_line(text: &mut Vec<u8>, entry: &EntryRef<'_>) -> Result<(), AllocError>
    ensures { OnOk result (text.new.items ≡ text.old.items ++ line_of (pair_of entry.now)) }
{
    push_escaped(text, entry.id().as_bytes())?;
    push_fields(text, entry.fields())
}

/// Appends the names and the values, each after a tab.
fn push_fields(text: &mut Vec<u8>, fields: FieldsRef<'_>) -> Result<(), AllocError>
    ensures { OnOk result (text.new.items ≡ text.old.items ++ flat_map field_text fields.entry) }
{
    for (name, value) in fields {
        push_field(text, name, value)?;
    }
    Ok(())
}

impl From<LogError> for Fault {
    ghost use Rattle.stream_drain.specs.declared.lines.Fault.TheVariants.{Log};

    ghost from_gives = { λ error fault. fault ≡ Log error };

    fn from(error: LogError) -> Fault {
        Fault::Log(error)
    }
}

impl From<AllocError> for Fault {
    ghost use Rattle.worker_journal.specs.declared.error.LogError.TheVariants.{Memory};
    ghost use Rattle.stream_drain.specs.declared.lines.Fault.TheVariants.{Log};

    ghost from_gives = { λ _ fault. fault ≡ Log Memory };

    fn from(_error: AllocError) -> Fault {
        Fault::Log(LogError::Memory)
    }
}
