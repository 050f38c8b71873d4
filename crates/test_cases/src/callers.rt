//! Cases of the callers of `examples`, and of the line log of `worker_journal`.
//!
//! ```text
//! caller    customer Array[Array[1-0, Array[customer, bob]]]        Some("bob")
//! ```
//!
//! The input is a word that selects the case, and a value in the notation of `test_notation::notation`. The value is
//! the reply of a server, bytes of a server, or the argument of the call. Commands are printed as their arguments
//! with a space between each two, records as `Debug` prints them.
ghost use Rattle.std.specs.Prelude.{ℕ, List, None, IfOk, IsSome, IsTrue};
ghost use Rattle.test_cases.specs.Kinds.{is_caller};

use anyhow::{Result, bail};
use examples::batch::sort_out;
use examples::caller::{order_bytes, order_id};
use examples::deletion::{acknowledgement_of, deletion_of, is_left, was_pending};
use examples::monitoring::{delivered_too_often, lag_of};
use examples::order::{Order, OrderId};
use examples::producer::{Producer, ProducerError};
use examples::server::add_request;
use examples::stalled::{claim_arguments, stalled_in};
use examples::wire::{AnswerError, streams_answered, streams_of_both};
use examples::worker::{acknowledge_arguments, ids_answered, ids_to_acknowledge};
use examples::{readme, worker};
use model_workers::files::log;
use redis::sentences::SentenceError;
use redis::streams::{
    StreamInfoFullReply, StreamInfoGroupsReply, StreamPendingCountReply, StreamRangeReply,
    StreamReadOptions, StreamReadReply,
};
use redis::wire::{Decoded, Limits, Reply, decode};
use redis::{ParsingError, RawBytes, ToRedisArgs, Value, from_redis_value};
use std::alloc::{AllocError, Global};
use std::fmt::Debug;
use std::io;
use std::io::{ErrorKind, Write};
use stream_commands::monitor::group_state::group_state;
use test_notation::read_value;
use worker_journal::known_ids::{FileError, number_of, numbers_of_file};
use worker_journal::{
    LineLog, LogError, LogFile, MemoryFile, TornFile, entry_in, push_escaped, repair,
};

/// Runs a case of this module. Returns its outcome, or `None` if its kind is not `caller`.
pub fn run_case(alloc: Global, kind: &str, input: &str) -> Result<Option<String>>
    ensures { IfOk result (λ o. IsSome o → IsTrue (is_caller kind.now)) }
{
    match kind {
        "caller" => Ok(Some(run_input(alloc, input)?)),
        _ => Ok(None),
    }
}

/// Returns the outcome of an input: a word, a space and a value.
fn run_input(alloc: Global, case: &str) -> Result<String> {
    match case.split_once(' ') {
        Some((word, notation)) => run_word(alloc, word, read_value(alloc, notation)?),
        None => bail!("no value"),
    }
}

/// Returns the outcome of the case that this word selects, with this value.
fn run_word(alloc: Global, word: &str, value: Value) -> Result<String> {
    match word {
        "worker-reads" => format_xreadgroup(alloc, value),
        "ids" => format_ids(alloc, value),
        "acknowledges" => format_xack(alloc, value),
        "batch" => sort_batch(alloc, value),
        "claims" => format_xautoclaim(alloc, value),
        "stalled" => read_stalled(alloc, value),
        "too-often" => list_delivered_too_often(alloc, value),
        "lag" => read_lags(alloc, value),
        "groups" => read_group_states(alloc, value),
        "deletion" => read_deletion(alloc, value),
        "acknowledgement" => read_acknowledgement(alloc, value),
        "sends" => send_all(alloc, value),
        "serves" => parse_requests(alloc, value),
        "group-of" => format_group_options(alloc, value),
        "orders" => format_orders(alloc, value),
        "order" => read_order(alloc, value),
        "number" => read_number(alloc, value),
        "number-of-entry" => read_numbers(alloc, value),
        "readme" => format_readme_command(alloc, value),
        "customer" => read_customer(alloc, value),
        "repairs" => repair_file(alloc, value),
        "commits" => commit_batches(alloc, value),
        "crashes" => count_crashes(alloc, value),
        "last-lines" => read_last_lines(alloc, value),
        "lines-of-fronts" => read_lines_of_prefixes(alloc, value),
        "tears" => commit_to_torn_file(alloc, value),
        "files" => commit_to_file(alloc, value),
        "escapes" => escape_text(alloc, value),
        "line" => read_entry(alloc, value),
        "number-of-id" => compute_number(alloc, value),
        "ids-of-lines" => list_ids(alloc, value, false),
        "ids-of-json" => list_ids(alloc, value, true),
        "protocols" => read_both_protocols(alloc, value),
        "streams" => read_streams(alloc, value),
        "order-sent" => encode_order(alloc, value),
        "order-answered" => decode_order_id(alloc, value),
        _ => bail!("no such word"),
    }
}

// The commands of a producer, the requests that a server parses, and types of a user's own.

/// Returns a producer that sends its ninth entry next.
fn make_producer(alloc: Global) -> Result<Producer> {
    let id = String::from_str(alloc, "p")?;
    Ok(Producer { id, number: 9 })
}

/// Returns the command that a producer sends before each of these replies, and whether it accepts the reply as an
/// id.
fn send_all(alloc: Global, answers: Value) -> Result<String> {
    let answers: Vec<Value> = from_redis_value(alloc, answers)?;
    let mut producer = make_producer(alloc)?;
    let mut said = String::new(alloc);
    for answer in answers {
        said.push_str(&send(alloc, &mut producer, answer)?)?;
    }
    Ok(said)
}

/// Returns the command that the producer sends before this reply, and whether it accepts the reply as an id.
fn send(alloc: Global, producer: &mut Producer, answer: Value) -> Result<String> {
    let sent = producer.arguments(alloc, "jobs", 1000, &[("order", b"17".as_slice())])?;
    let sent = format_arguments(alloc, &sent)?;
    let is_id = match producer.answered(alloc, answer) {
        Ok(_id) => true,
        Err(ProducerError::Answer(ParsingError::Memory)) => return Err(AllocError.into()),
        Err(_error) => false,
    };
    Ok(format!(in alloc; "{sent} ({is_id}) ")?)
}

/// Returns the requests that a server parses from the command of a producer with a body of these bytes. They are
/// parsed from all arguments after the key, from those from `~` on, and from the options alone.
fn parse_requests(alloc: Global, body: Value) -> Result<String> {
    let body: RawBytes = from_redis_value(alloc, body)?;
    let producer = make_producer(alloc)?;
    let fields = [("body", body.0.as_slice())];
    let sent = producer.arguments(alloc, "jobs", 1000, &fields)?;
    let mut said = String::new(alloc);
    for (from, to) in [(2usize, 11usize), (6, 11), (2, 8)] {
        match sent.get(from..to) {
            Some(arguments) => said.push_str(&parse_request(alloc, arguments)?)?,
            None => bail!("other arguments"),
        }
    }
    Ok(said)
}

/// Returns the request that a server parses from arguments, or `nothing`.
fn parse_request(alloc: Global, arguments: &[Vec<u8>]) -> Result<String> {
    match add_request(alloc, arguments) {
        Ok(asked) => {
            let options = format_arguments(alloc, &asked.options)?;
            Ok(format!(in alloc; "{options}, {:?}, {:?}; ", asked.id, asked.fields)?)
        }
        Err(SentenceError::NotASentence) => Ok(String::from_str(alloc, "nothing; ")?),
        Err(SentenceError::Memory) => Err(AllocError.into()),
    }
}

/// Returns the options of a read for the group with this number.
fn format_group_options(alloc: Global, number: Value) -> Result<String> {
    let number: OrderId = from_redis_value(alloc, number)?;
    let options = StreamReadOptions::default().group(alloc, number, "worker")?;
    format_arguments(alloc, &options)
}

/// Returns the arguments that a list of orders writes.
fn format_orders(alloc: Global, list: Value) -> Result<String> {
    let orders: Vec<Order> = from_redis_value(alloc, list)?;
    format_arguments(alloc, &orders)
}

/// Reads a value as an order.
fn read_order(alloc: Global, value: Value) -> Result<String> {
    format_result(alloc, from_redis_value::<Order>(alloc, value))
}

/// Reads a value as the number of an order, `None` for nil.
fn read_number(alloc: Global, value: Value) -> Result<String> {
    format_result(alloc, from_redis_value::<Option<OrderId>>(alloc, value))
}

/// Reads each of three fields of the one entry of a range as a number.
fn read_numbers(alloc: Global, answer: Value) -> Result<String> {
    let reply: StreamRangeReply = from_redis_value(alloc, answer)?;
    let [entry] = reply.ids.as_slice() else {
        bail!("not one entry");
    };
    let mut numbers = Vec::new(alloc);
    for name in ["order", "customer", "quantity"] {
        numbers.push(entry.get::<OrderId>(alloc, name)?)?;
    }
    Ok(format!(in alloc; "{numbers:?}")?)
}

/// Returns the command of the README.
fn format_readme_command(alloc: Global, _none: Value) -> Result<String> {
    format_arguments(alloc, &readme::read_arguments(alloc)?)
}

/// Returns the customer of the first entry of a range.
fn read_customer(alloc: Global, answer: Value) -> Result<String> {
    format_result(alloc, readme::first_customer(alloc, answer))
}

// The work of a consumer of a group.

/// Returns the XREADGROUP with which a worker reads the stream of this key.
fn format_xreadgroup(alloc: Global, key: Value) -> Result<String> {
    let key: String = from_redis_value(alloc, key)?;
    format_arguments(
        alloc,
        &worker::read_arguments(alloc, "g", "c", 5000, 10, &key)?,
    )
}

/// Returns the ids that a worker acknowledges after this reply to XREADGROUP.
fn format_ids(alloc: Global, answer: Value) -> Result<String> {
    format_arguments(alloc, &ids_answered(alloc, answer)?)
}

/// Returns the XACK of the entries of the one stream of a reply.
fn format_xack(alloc: Global, answer: Value) -> Result<String> {
    let reply: StreamReadReply = from_redis_value(alloc, answer)?;
    match reply.keys.as_slice() {
        [stream] => format_arguments(alloc, &acknowledge_arguments(alloc, "g", stream)?),
        _ => bail!("not one stream"),
    }
}

/// Returns the orders of the one stream of a reply, and the entries that are not orders.
fn sort_batch(alloc: Global, answer: Value) -> Result<String> {
    let reply: StreamReadReply = from_redis_value(alloc, answer)?;
    match reply.keys.as_slice() {
        [stream] => Ok(format!(in alloc; "{:?}", sort_out(alloc, &stream.ids)?)?),
        _ => bail!("not one stream"),
    }
}

/// Returns the XAUTOCLAIM that claims entries of the stream of this key.
fn format_xautoclaim(alloc: Global, key: Value) -> Result<String> {
    let key: String = from_redis_value(alloc, key)?;
    let claim = claim_arguments(alloc, &key, "g", "c", 60000, "0-0", 25)?;
    format_arguments(alloc, &claim)
}

/// Returns the result of reading a reply to XAUTOCLAIM.
fn read_stalled(alloc: Global, answer: Value) -> Result<String> {
    format_result(alloc, stalled_in(alloc, answer))
}

/// Returns the ids of a reply to XPENDING that were delivered five times or more.
fn list_delivered_too_often(alloc: Global, answer: Value) -> Result<String> {
    let pending: StreamPendingCountReply = from_redis_value(alloc, answer)?;
    format_arguments(alloc, &delivered_too_often(alloc, &pending, 5)?)
}

/// Returns the lag of the groups `g` and `h` in a reply to XINFO GROUPS.
fn read_lags(alloc: Global, answer: Value) -> Result<String> {
    let groups: StreamInfoGroupsReply = from_redis_value(alloc, answer)?;
    Ok(format!(in alloc; "{:?} {:?}", lag_of(&groups, "g"), lag_of(&groups, "h"))?)
}

/// Returns the state of each group in a reply to XINFO STREAM FULL, at the time of 10,000 milliseconds.
fn read_group_states(alloc: Global, answer: Value) -> Result<String> {
    let reply: StreamInfoFullReply = from_redis_value(alloc, answer)?;
    let mut states = Vec::new(alloc);
    for group in &reply.groups {
        states.push(group_state(alloc, group, 10_000, 3, 6000)?)?;
    }
    Ok(format!(in alloc; "{states:?}")?)
}

/// Returns whether a code of XDELEX means that the entry is left in the stream.
fn read_deletion(alloc: Global, code: Value) -> Result<String> {
    let left = match deletion_of(alloc, code) {
        Ok(status) => Ok(is_left(&status)),
        Err(error) => Err(error),
    };
    format_result(alloc, left)
}

/// Returns whether a code of XACKDEL means that the entry was pending.
fn read_acknowledgement(alloc: Global, code: Value) -> Result<String> {
    let pending = match acknowledgement_of(alloc, code) {
        Ok(status) => Ok(was_pending(&status)),
        Err(error) => Err(error),
    };
    format_result(alloc, pending)
}

// Bytes from a server, and bytes for one.

/// Returns the ids of the entries of a reply to XREADGROUP in RESP2, and of one in RESP3.
fn read_both_protocols(alloc: Global, both: Value) -> Result<String> {
    let (resp2, resp3): (RawBytes, RawBytes) = from_redis_value(alloc, both)?;
    let Ok((first, second)) = streams_of_both(alloc, &resp2.0, &resp3.0) else {
        bail!("no streams");
    };
    let first = format_arguments(alloc, &ids_to_acknowledge(alloc, &first)?)?;
    let second = format_arguments(alloc, &ids_to_acknowledge(alloc, &second)?)?;
    Ok(format!(in alloc; "{first} = {second}")?)
}

/// Returns the streams in the bytes of a reply, the code of a server's error, or why there are no streams.
fn read_streams(alloc: Global, bytes: Value) -> Result<String> {
    let bytes: RawBytes = from_redis_value(alloc, bytes)?;
    match streams_answered(alloc, &bytes.0) {
        Err(AnswerError::Memory | AnswerError::Parsing(ParsingError::Memory)) => {
            Err(AllocError.into())
        }
        Err(AnswerError::Server(error)) => {
            Ok(String::from_str(alloc, str::from_utf8(error.code())?)?)
        }
        answered => Ok(format!(in alloc; "{answered:?}")?),
    }
}

/// Returns the bytes of the XADD of an order of this customer, as text.
fn encode_order(alloc: Global, customer: Value) -> Result<String> {
    let customer: String = from_redis_value(alloc, customer)?;
    let sent = String::from_utf8(order_bytes(alloc, &customer)?)?;
    Ok(format!(in alloc; "{sent:?}")?)
}

/// Returns the id of an order in the bytes of a server's reply.
fn decode_order_id(alloc: Global, bytes: Value) -> Result<String> {
    let bytes: RawBytes = from_redis_value(alloc, bytes)?;
    match decode(alloc, &bytes.0, Limits::default())? {
        Decoded::Complete {
            reply: Reply::Value(answer),
            ..
        } => Ok(order_id(alloc, answer)?),
        _ => bail!("no plain reply"),
    }
}

// A line log over files in memory, and over one that is too small.

/// Returns the content of a file of these bytes after `repair`, whether or not its last line has an end.
fn repair_file(alloc: Global, before: Value) -> Result<String> {
    let before: RawBytes = from_redis_value(alloc, before)?;
    let mut file = MemoryFile::new(alloc, before.0);
    repair(alloc, &mut file)?;
    Ok(format!(in alloc; "{:?}", str::from_utf8(file.bytes())?)?)
}

/// Returns the last n lines of a file of these bytes, for each n from 0 to one more than there are.
fn read_last_lines(alloc: Global, bytes: Value) -> Result<String> {
    let bytes: RawBytes = from_redis_value(alloc, bytes)?;
    let log = LineLog::open(alloc, MemoryFile::new(alloc, bytes.0))?;
    let most = log.last_lines(alloc, usize::MAX)?.len();
    let mut shown = String::new(alloc);
    for number in 0..=most.saturating_add(1) {
        if number > 0 {
            shown.push_str(" | ")?;
        }
        shown.push_str(&format_lines(alloc, &log.last_lines(alloc, number)?)?)?;
    }
    Ok(shown)
}

/// Returns the last two lines of each prefix of these bytes.
fn read_lines_of_prefixes(alloc: Global, bytes: Value) -> Result<String> {
    let bytes: RawBytes = from_redis_value(alloc, bytes)?;
    let mut shown = String::new(alloc);
    for len in 0..=bytes.0.len() {
        let front = bytes.0.get(..len).unwrap_or(&bytes.0);
        let log = LineLog::open(alloc, MemoryFile::new(alloc, front.to_vec(alloc)?))?;
        if len > 0 {
            shown.push_str(" | ")?;
        }
        shown.push_str(&format_lines(alloc, &log.last_lines(alloc, 2)?)?)?;
    }
    Ok(shown)
}

/// Returns the lines, with a space between each two.
fn format_lines(alloc: Global, lines: &[Vec<u8>]) -> Result<String> {
    let mut shown = String::new(alloc);
    for line in lines {
        if !shown.is_empty() {
            shown.push(' ')?;
        }
        write!(shown, "{:?}", str::from_utf8(line)?)?;
    }
    Ok(shown)
}

/// A file with room for `room` bytes; then it fails, as a full disk does, and gets room for ten more.
#[derive(Drop)]
struct Small {
    bytes: Vec<u8>,
    room: usize,
    syncs: usize,
}

impl LogFile for Small {
    ghost seen = { λ _. None };

    ghost may_leave = { λ _ _. ⊥ };

    ghost is_sound = { λ _. Unit {0} };

    ghost seen_is_left = { λ _. tt };

    ghost moment = { λ _. 0 };

    ghost left_since = { λ _ _ _. ⊥ };

    ghost counts_now = { λ _ _ _ _ none. none };

    ghost only_now = { λ _ _ none. none };

    fn len(&self) -> Result<usize, LogError> {
        Ok(self.bytes.len())
    }

    fn read_at(&self, alloc: Global, at: usize, len: usize) -> Result<Vec<u8>, LogError> {
        Ok(
            self.bytes
                .iter()
                .skip(at)
                .take(len)
                .copied()
                .collect(alloc)?,
        )
    }

    fn append(&mut self, bytes: &[u8]) -> Result<(), LogError> {
        for byte in bytes {
            if self.bytes.len() >= self.room {
                self.room = self.room.saturating_add(10);
                return Err(LogError::File(io::Error::from(ErrorKind::StorageFull)));
            }
            self.bytes.push(*byte)?;
        }
        Ok(())
    }

    fn cut(&mut self, len: usize) -> Result<(), LogError> {
        self.bytes.truncate(len);
        Ok(())
    }

    fn sync(&mut self) -> Result<(), LogError> {
        self.syncs = self.syncs.saturating_add(1);
        Ok(())
    }
}

/// Commits each batch of lines to a log over a file with room for ten bytes. Returns each result, then the file and
/// its count of syncs. A batch takes one write and one sync. After a write that failed, the file is cut back first.
fn commit_batches(alloc: Global, batches: Value) -> Result<String> {
    let batches: Vec<Vec<RawBytes>> = from_redis_value(alloc, batches)?;
    let file = Small {
        bytes: b"old\nto".to_vec(alloc)?,
        room: 10,
        syncs: 0,
    };
    let mut log = LineLog::open(alloc, file)?;
    let mut said = String::new(alloc);
    commit_all(&mut log, &batches, &mut said)?;
    let file = log.into_file();
    let bytes = str::from_utf8(&file.bytes)?;
    Ok(format!(in alloc; "{said}{bytes:?} {}", file.syncs)?)
}

/// Commits each batch, and appends whether its lines were written.
fn commit_all<D: LogFile + Drop>(
    log: &mut LineLog<D>,
    batches: &[Vec<RawBytes>],
    said: &mut String,
) -> Result<()> {
    for batch in batches {
        said.push_str(commit(log, batch)?)?;
    }
    Ok(())
}

/// Commits the lines of a batch. Returns whether they were written.
fn commit<D: LogFile + Drop>(log: &mut LineLog<D>, batch: &[RawBytes]) -> Result<&'static str> {
    for line in batch {
        log.add_line(&line.0)?;
    }
    match log.commit() {
        Ok(()) => Ok("taken "),
        Err(LogError::Memory) => Err(AllocError.into()),
        Err(LogError::File(_) | LogError::NotSynced(_)) => Ok("failed "),
    }
}

/// A file that writes to a buffer, which a sync writes to the disk. It records what a crash at each moment could
/// have left of a write. That is each prefix of its bytes. It is also their second half after zeros, if the halves
/// are written in the other order.
#[derive(Drop)]
struct Buffered {
    alloc: Global,
    disk: Vec<u8>,
    seen: Vec<u8>,
    crashes: Vec<Crash>,
}

/// The content of the disk before a write, and what a crash left of it and of the write.
#[derive(Drop)]
struct Crash {
    before: Vec<u8>,
    left: Vec<u8>,
}

impl Buffered {
    /// Records that a crash could leave these bytes after the content of the disk.
    fn note(&mut self, behind: &[u8]) -> Result<(), LogError> {
        let before = self.disk.to_vec(self.alloc)?;
        let mut left = self.disk.to_vec(self.alloc)?;
        left.extend_from_slice(behind)?;
        Ok(self.crashes.push(Crash { before, left })?)
    }

    /// Records each prefix of the bytes, and their second half after zeros.
    fn note_all(&mut self, bytes: &[u8]) -> Result<(), LogError> {
        for len in 0..=bytes.len() {
            self.note(bytes.get(..len).unwrap_or(bytes))?;
        }
        let half = bytes.len() / 2;
        let mut torn = vec![in self.alloc; 0u8; half]?;
        torn.extend_from_slice(bytes.get(half..).unwrap_or(bytes))?;
        self.note(&torn)
    }
}

impl LogFile for Buffered {
    ghost seen = { λ _. None };

    ghost may_leave = { λ _ _. ⊥ };

    ghost is_sound = { λ _. Unit {0} };

    ghost seen_is_left = { λ _. tt };

    ghost moment = { λ _. 0 };

    ghost left_since = { λ _ _ _. ⊥ };

    ghost counts_now = { λ _ _ _ _ none. none };

    ghost only_now = { λ _ _ none. none };

    fn len(&self) -> Result<usize, LogError> {
        Ok(self.seen.len())
    }

    fn read_at(&self, alloc: Global, at: usize, len: usize) -> Result<Vec<u8>, LogError> {
        let rest = self.seen.get(at..).unwrap_or(&[]);
        let read = rest.get(..len).unwrap_or(rest);
        Ok(read.to_vec(alloc)?)
    }

    fn append(&mut self, bytes: &[u8]) -> Result<(), LogError> {
        self.seen.extend_from_slice(bytes)?;
        self.note_all(bytes)
    }

    fn cut(&mut self, len: usize) -> Result<(), LogError> {
        self.seen.truncate(len);
        Ok(())
    }

    fn sync(&mut self) -> Result<(), LogError> {
        self.disk = self.seen.to_vec(self.alloc)?;
        Ok(())
    }
}

/// Counts the crashes that can happen while batches are committed, and those that lose a line. A crash loses a line
/// if the file that is left, once opened again, no longer has a line that was on the disk.
fn count_crashes(alloc: Global, batches: Value) -> Result<String> {
    let batches: Vec<Vec<RawBytes>> = from_redis_value(alloc, batches)?;
    let file = Buffered {
        alloc,
        disk: Vec::new(alloc),
        seen: Vec::new(alloc),
        crashes: Vec::new(alloc),
    };
    let mut log = LineLog::open(alloc, file)?;
    for batch in &batches {
        if commit(&mut log, batch)? != "taken " {
            bail!("a commit failed");
        }
    }
    let file = log.into_file();
    let lost = count_lost(alloc, &file.crashes)?;
    Ok(format!(in alloc; "{} crashes, {lost} lost a line", file.crashes.len())?)
}

/// Counts the crashes that lose a line.
fn count_lost(alloc: Global, crashes: &[Crash]) -> Result<u64> {
    let mut lost = 0u64;
    for crash in crashes {
        let mut left = MemoryFile::new(alloc, crash.left.to_vec(alloc)?);
        repair(alloc, &mut left)?;
        if !left.bytes().starts_with(&crash.before) {
            lost = lost.saturating_add(1);
        }
    }
    Ok(lost)
}

/// Commits each batch of lines to a log over a torn file. Returns each result, then the file after two crashes. The
/// sync with the number `failing` fails; the first one is that of the opening.
///
/// The first crash leaves the bytes `behind` in place of those that were not synced. The second happens while the
/// file is opened again, and leaves `uncut` of the bytes that were cut off. Then it is opened once more.
fn commit_to_torn_file(alloc: Global, case: Value) -> Result<String> {
    type Case = (Vec<Vec<RawBytes>>, (usize, usize), RawBytes);
    let (batches, (failing, uncut), behind): Case = from_redis_value(alloc, case)?;
    let mut file = TornFile::new(alloc, Vec::new(alloc));
    file.fail_sync(failing);
    let mut log = LineLog::open(alloc, file)?;
    let mut said = String::new(alloc);
    commit_all(&mut log, &batches, &mut said)?;
    let mut file = log.into_file();
    crash_twice(alloc, &mut file, uncut, &behind.0)?;
    let file = LineLog::open(alloc, file)?.into_file();
    Ok(format!(in alloc; "{said}{:?}", str::from_utf8(file.on_disk())?)?)
}

/// Makes the two crashes of `commit_to_torn_file`.
fn crash_twice(alloc: Global, file: &mut TornFile, uncut: usize, behind: &[u8]) -> Result<()> {
    file.crash(0, behind)?;
    file.fail_sync(1);
    match repair(alloc, file) {
        Err(LogError::NotSynced(_)) => file.crash(uncut, b"")?,
        Err(LogError::Memory) => return Err(AllocError.into()),
        Ok(()) | Err(LogError::File(_)) => bail!("a sync that did not fail"),
    }
    Ok(())
}

/// Opens a worker's file of these bytes, commits these lines to it, and returns its content. The calls are those of
/// `model_workers::files::log`, which bind a log to the model of the files.
fn commit_to_file(alloc: Global, case: Value) -> Result<String> {
    let (before, lines): (RawBytes, Vec<RawBytes>) = from_redis_value(alloc, case)?;
    let mut log = log::open(alloc, MemoryFile::new(alloc, before.0))?;
    for line in &lines {
        log.add_line(&line.0)?;
    }
    log::commit(&mut log)?;
    Ok(format!(in alloc; "{:?}", str::from_utf8(log.into_file().bytes())?)?)
}

/// Returns the bytes of a text as they are escaped in a line.
fn escape_text(alloc: Global, text: Value) -> Result<String> {
    let text: RawBytes = from_redis_value(alloc, text)?;
    let mut line = Vec::new(alloc);
    push_escaped(&mut line, &text.0)?;
    Ok(format!(in alloc; "{line:?}")?)
}

/// Returns the entry of a line: its id, and each name and value; or `none`.
fn read_entry(alloc: Global, line: Value) -> Result<String> {
    let line: RawBytes = from_redis_value(alloc, line)?;
    let Some(entry) = entry_in(alloc, &line.0)? else {
        return Ok(String::from_str(alloc, "none")?);
    };
    let mut shown = format!(in alloc; "{:?}", str::from_utf8(&entry.id)?)?;
    for (name, value) in &entry.fields {
        let (name, value) = (str::from_utf8(name)?, str::from_utf8(value)?);
        write!(shown, " {name:?}={value:?}")?;
    }
    Ok(shown)
}

/// Returns the number of an id, `None` for another text.
fn compute_number(alloc: Global, text: Value) -> Result<String> {
    let text: RawBytes = from_redis_value(alloc, text)?;
    Ok(format!(in alloc; "{:?}", number_of(&text.0))?)
}

/// Returns the number of each id in a file of these bytes, with the offset of its line, or which line has no entry.
fn list_ids(alloc: Global, bytes: Value, json: bool) -> Result<String> {
    let bytes: RawBytes = from_redis_value(alloc, bytes)?;
    let ids = match numbers_of_file(alloc, &MemoryFile::new(alloc, bytes.0), json) {
        Ok(ids) => ids,
        Err(FileError::NoEntry(line)) => return Ok(format!(in alloc; "no entry in line {line}")?),
        Err(error) => return Err(error.into()),
    };
    let mut shown = format!(in alloc; "{} ids", ids.len())?;
    for id in &ids {
        write!(shown, ", {} at {}", id.number(), id.place())?;
    }
    Ok(shown)
}

// How the outcome of a case is printed.

/// Returns the arguments that a value writes, with a space between each two.
fn format_arguments<T: ToRedisArgs>(alloc: Global, value: &T) -> Result<String> {
    let mut line = String::new(alloc);
    for argument in &value.to_redis_args(alloc)? {
        if !line.is_empty() {
            line.push(' ')?;
        }
        line.push_str(str::from_utf8(argument)?)?;
    }
    Ok(line)
}

/// Returns a record as `Debug` prints it, or why there is none. Passes on the error that memory ran out.
fn format_result<T: Debug + Drop>(alloc: Global, read: Result<T, ParsingError>) -> Result<String> {
    match read {
        Ok(record) => Ok(format!(in alloc; "{record:?}")?),
        Err(ParsingError::Memory) => Err(AllocError.into()),
        Err(error) => Ok(format!(in alloc; "{error:?}")?),
    }
}
