//! A file of lines as a source of records.
ghost use Rattle.std.specs.Prelude.{◌≡◌, ◌≢◌, ◌≤◌, ◌↔◌, ◌⊎◌, [], ◌∷◌, ◌++◌, ℕ, All, IfOk, IfSome, IsTrue, OnOk, drop, length, map, take};
ghost use Rattle.std.specs.Option.{ForSome};
ghost use Rattle.worker_journal.specs.LastLines.{lines_of};
ghost use Rattle.worker_producer.specs.Records.{fields_of};
ghost use Rattle.stream_fill.specs.Placed.{IsPlace, torn_of};
ghost use Rattle.stream_fill.specs.Taken.{AreRecordsOf, IsRecordOf, records_of};

use crate::byte_file::ByteFile;
use crate::json_records::record_of_json;
use crate::line_reader::{LineReader, Place};
use anyhow::{Error, Result, anyhow, bail};
use json::Scratch;
use std::alloc::{AllocError, Global};
use worker_producer::{NotRead, Record, Source};

/// The position of every 65,536th line is stored.
const STEP: u64 = 65_536;

/// How a line is converted to a record.
#[derive(Drop)]
pub enum Form {
    /// A JSON object.
    Json,
    /// A line is the value of the field with this name.
    Text(Vec<u8>),
}

/// A file in which each line is a record. Lines that are appended after they were counted are not read.
#[derive(Drop)]
pub struct Lines<F: ByteFile + Drop> {
    reader: LineReader<F>,
    form: Form,
    /// The position of each line whose number is a multiple of `STEP`. Line numbers start at 0.
    places: Vec<Place>,
    /// The last line that was read. Its buffer is reused for the next line.
    line: Vec<u8>,
    scratch: Scratch,
    /// The number of lines.
    pub count: u64,
    /// Whether there are bytes after the last line end.
    pub is_torn: bool,
    /// The error of the last failed read.
    pub fault: Option<Error>,
    ghost placed: { ForSome (F.bytes reader.file) (λ all. All (IsPlace all) places.items) },
    ghost counted: { ForSome (F.bytes reader.file) (λ all. count ≡ length (lines_of all)) },
    ghost torn: { ForSome (F.bytes reader.file) (λ all. IsTrue is_torn ↔ (torn_of all ≢ [])) },
}

impl<F: ByteFile + Drop> Lines<F> {
    /// Counts the lines of `file`.
    pub fn new(alloc: Global, file: F, form: Form) -> Result<Lines<F>>
        ensures file { IfOk result (λ lines. F.bytes lines.reader.file ≡ F.bytes file) }
        ensures form { IfOk result (λ lines. lines.form ≡ form) }
    {
        let mut reader = LineReader::new(alloc, file);
        let places = find_places(alloc, &mut reader)?;
        let count = reader.place().number;
        let is_torn = !reader.waiting().is_empty();
        Ok(Lines {
            reader,
            form,
            places,
            line: Vec::new(alloc),
            scratch: Scratch::new(alloc),
            count,
            is_torn,
            fault: None,
        })
    }

    /// Reads at most `most` records, starting at the line with the given number. Line numbers start at 0.
    fn read_from(&mut self, alloc: Global, behind: u64, most: usize) -> Result<Vec<Record>>
        ensures file { F.bytes self.new.reader.file ≡ F.bytes self.old.reader.file }
        ensures form { self.new.form ≡ self.old.form }
        ensures records { IfOk result (λ rs. ForSome (F.bytes self.new.reader.file) (λ all.
            AreRecordsOf self.new.form (take most (drop behind (lines_of all))) rs.items)) }
        ensures most { IfOk result (λ rs. length rs.items ≤ most) }
    {
        let left = self.count.saturating_sub(behind).min(most as u64);
        if left == 0 {
            return Ok(Vec::new(alloc));
        }
        seek_line(&mut self.reader, &self.places, behind)?;
        let (line, scratch) = (&mut self.line, &mut self.scratch);
        read_records(alloc, &mut self.reader, &self.form, line, scratch, left)
    }
}

impl<F: ByteFile + Drop> Source for Lines<F> {
    ghost records = { λ lines. records_of lines.form (F.bytes lines.reader.file) };

    fn read(&mut self, alloc: Global, behind: u64, most: usize) -> Result<Vec<Record>, NotRead>
        ensures ok { IfOk result (λ rs. IfSome (records_of self.old.form (F.bytes self.old.reader.file)) (λ all.
            map fields_of rs.items ≡ take most (drop behind all))) }
        ensures lines { IfOk result (λ rs. ForSome (F.bytes self.old.reader.file) (λ all.
            AreRecordsOf self.old.form (take most (drop behind (lines_of all))) rs.items)) }
        ensures most { IfOk result (λ rs. length rs.items ≤ most) }
        ensures same { records_of self.new.form (F.bytes self.new.reader.file)
            ≡ records_of self.old.form (F.bytes self.old.reader.file) }
    {
        match self.read_from(alloc, behind, most) {
            Ok(records) => Ok(records),
            Err(fault) => {
                self.fault = Some(fault);
                Err(NotRead)
            }
        }
    }

    fn read_ahead(&mut self, _alloc: Global, _behind: u64, _most: usize) {}
}

/// Passes over all lines, and returns the positions to store.
fn find_places<F: ByteFile + Drop>(alloc: Global, reader: &mut LineReader<F>) -> Result<Vec<Place>>
    ensures file { F.bytes reader.new.file ≡ F.bytes reader.old.file }
    ensures places { IfOk result (λ places. ForSome (F.bytes reader.new.file) (λ all.
        All (IsPlace all) places.items)) }
    ensures count { IfOk result (λ _. ForSome (F.bytes reader.new.file) (λ all.
        reader.new.place.number ≡ length (lines_of all))) }
    ensures torn { IfOk result (λ _. ForSome (F.bytes reader.new.file) (λ all.
        drop reader.new.begin reader.new.buffer.items ≡ torn_of all)) }
{
    let mut places = Vec::new(alloc);
    for _ in 0..u64::MAX {
        let place = reader.place();
        store_place(&mut places, place)?;
        if !reader.pass_lines(STEP - place.number % STEP)? {
            return Ok(places);
        }
    }
    bail!("the file has no end")
}

/// Stores the position if its line number is a multiple of `STEP`.
fn store_place(places: &mut Vec<Place>, place: Place) -> Result<(), AllocError>
    ensures { OnOk result ((places.new.items ≡ places.old.items)
        ⊎ (places.new.items ≡ places.old.items ++ place ∷ [])) }
{
    if place.number % STEP == 0 {
        places.push(place)?;
    }
    Ok(())
}

/// Moves to the line with the number `number`. Line numbers start at 0.
fn seek_line<F: ByteFile + Drop>(
    reader: &mut LineReader<F>,
    places: &[Place],
    number: u64,
) -> Result<()>
    requires { ForSome (F.bytes reader.old.file) (λ all. All (IsPlace all) places.now) }
    ensures file { F.bytes reader.new.file ≡ F.bytes reader.old.file }
    ensures place { OnOk result (reader.new.place.number ≡ number) }
{
    if reader.place().number == number {
        return Ok(());
    }
    let place = match places.get((number / STEP) as usize) {
        Some(place) if place.number <= number => *place,
        _ => bail!("the file is too short"),
    };
    reader.seek(place);
    for _ in 0..u64::MAX {
        let left = number - reader.place().number;
        if left == 0 {
            return Ok(());
        }
        if !reader.pass_lines(left)? {
            bail!("the file became shorter");
        }
    }
    bail!("the file has no end")
}

/// Reads the next `count` lines as records.
fn read_records<F: ByteFile + Drop>(
    alloc: Global,
    reader: &mut LineReader<F>,
    form: &Form,
    line: &mut Vec<u8>,
    scratch: &mut Scratch,
    count: u64,
) -> Result<Vec<Record>>
    ensures file { F.bytes reader.new.file ≡ F.bytes reader.old.file }
    ensures records { IfOk result (λ rs. ForSome (F.bytes reader.new.file) (λ all. AreRecordsOf form.now
        (take count (drop reader.old.place.number (lines_of all))) rs.items)) }
    ensures count { IfOk result (λ rs. length rs.items ≡ count) }
{
    let mut records = Vec::new(alloc);
    for _read in 0..count {
        if !reader.read_line(line)? {
            bail!("the file became shorter");
        }
        let number = reader.place().number;
        records.push(parse_record(alloc, form, scratch, line, number)?)?;
    }
    Ok(records)
}

/// Returns the record of the line with this number.
fn parse_record(
    alloc: Global,
    form: &Form,
    scratch: &mut Scratch,
    line: &[u8],
    number: u64,
) -> Result<Record>
    ensures { IfOk result (IsRecordOf form.now line.now) }
{
    match form {
        Form::Json => match record_of_json(alloc, scratch, line) {
            Ok(record) => Ok(record),
            Err(cause) => Err(anyhow!("line {number} {cause}")),
        },
        Form::Text(name) => match make_text_record(alloc, name, line) {
            Ok(record) => Ok(record),
            Err(error) => Err(error.into()),
        },
    }
}

/// Returns a record with one field.
fn make_text_record(alloc: Global, name: &Vec<u8>, value: &[u8]) -> Result<Record, AllocError>
    ensures { IfOk result (λ r. fields_of r ≡ (name.now.items, value.now) ∷ []) }
{
    let mut record = Vec::with_capacity(alloc, 1)?;
    record.push((name.clone()?, Vec::from_slice(alloc, value)?))?;
    Ok(record)
}
