//! The reply of XPENDING without a range: the number of pending entries of a group, by consumer.
ghost use Rattle.std.specs.Prelude.{◌≡◌, Option, Some, Ok, IsOk, IfOk, IfErr, map, option_map, string_bytes};
ghost use Rattle.redis_resp.specs.Refusal.{Refuses};
ghost use Rattle.redis_streams.specs.InfoMeaning.{consumer_meaning};
ghost use Rattle.redis_streams.specs.Pending.{PendingSummary, consumer_of, consumers_of, empty_summary, pending_reading, summary_of};
ghost use Rattle.redis_streams.specs.PendingMeaning.{count_of, data_meaning, parts_meaning, pending_meaning, row_meaning};
ghost use Rattle.redis_streams.specs.PendingRefusal.{RefusesPending, RefusesSummary};

use crate::info::{StreamInfoConsumer, copy_consumers};
use redis_resp::{FromRedisValue, ParsingError, Source, Value};
use std::alloc::{AllocError, Global};

/// The reply of `XPENDING key group`, without a range.
#[derive(Debug, Drop, Default)]
pub enum StreamPendingReply {
    /// Nothing is pending.
    #[default]
    Empty,
    /// Something is pending.
    Data(StreamPendingData),
}

/// The pending entries of a group: those delivered to a consumer and not yet acknowledged.
#[derive(Debug, Drop)]
pub struct StreamPendingData {
    /// The total number of pending entries.
    pub count: usize,
    /// The smallest id among them.
    pub start_id: String,
    /// The greatest id among them.
    pub end_id: String,
    /// The consumers that have pending entries, each with their number.
    pub consumers: Vec<StreamInfoConsumer>,
}

impl StreamPendingReply {
    /// Returns the number of pending entries: 0 for `Empty`. It allocates no memory.
    pub fn count(&self) -> usize
        ensures { result ≡ count_of self.now }
    {
        match self {
            StreamPendingReply::Empty => 0,
            StreamPendingReply::Data(data) => data.count,
        }
    }

    /// Returns a copy of the reply. It fails only if it runs out of memory; `Empty` allocates none.
    pub fn try_clone(&self, alloc: Global) -> Result<StreamPendingReply, AllocError>
        ensures copy { IfOk result (λ r. pending_meaning r ≡ pending_meaning self.now) }
        ensures empty { self.now ≡ StreamPendingReply.Empty
            → result ≡ Ok StreamPendingReply.Empty }
    {
        match self {
            StreamPendingReply::Empty => Ok(StreamPendingReply::Empty),
            StreamPendingReply::Data(data) => Ok(StreamPendingReply::Data(data.try_clone(alloc)?)),
        }
    }
}

impl StreamPendingData {
    /// Returns data with nothing pending: no count, ids or consumers. It allocates no memory and is always Ok.
    pub fn empty(alloc: Global) -> Result<StreamPendingData, AllocError>
        ensures ok { IsOk result }
        ensures summary { IfOk result (λ d. data_meaning d ≡ empty_summary) }
    {
        Ok(StreamPendingData {
            count: 0,
            start_id: String::new(alloc),
            end_id: String::new(alloc),
            consumers: Vec::new(alloc),
        })
    }

    /// Returns a copy of the data. It fails only if it runs out of memory.
    pub fn try_clone(&self, alloc: Global) -> Result<StreamPendingData, AllocError>
        ensures { IfOk result (λ d. data_meaning d ≡ data_meaning self.now) }
    {
        Ok(StreamPendingData {
            count: self.count,
            start_id: String::from_str(alloc, &self.start_id)?,
            end_id: String::from_str(alloc, &self.end_id)?,
            consumers: copy_consumers(alloc, &self.consumers)?,
        })
    }
}

/// A consumer's name and the text of its count, if a row has them.
type Row = Option<(String, String)>;

/// The parts of the reply as the server sends them: count, first and last id, consumers.
type Parts = (usize, Option<String>, Option<String>, Vec<Row>);

/// Returns the consumer of a row. Its pending entries are 0 if its text is no number.
/// It allocates no memory.
fn make_consumer(name: String, count: String) -> StreamInfoConsumer
    ensures { consumer_meaning result ≡ consumer_of (string_bytes name, string_bytes count) }
{
    StreamInfoConsumer {
        name,
        pending: count.as_str().parse::<usize>().unwrap_or(0),
        idle: 0,
    }
}

/// Returns the consumers of the rows that are not nil, in order. It fails only if it runs out of memory.
fn read_consumers(alloc: Global, rows: Vec<Row>) -> Result<Vec<StreamInfoConsumer>, AllocError>
    ensures { IfOk result (λ r. map consumer_meaning r.items
        ≡ consumers_of (map (option_map row_meaning) rows.items)) }
{
    let mut consumers = Vec::with_capacity(alloc, rows.len())?;
    for row in rows {
        let Some((name, count)) = row else {
            continue;
        };
        consumers.push(make_consumer(name, count))?;
    }
    Ok(consumers)
}

/// Returns the reply of the parts. A count of 0 is `Empty`. Any other needs both ids, and is
/// refused with `PendingWithoutStart` or `PendingWithoutEnd` if one is missing.
fn read_parts(alloc: Global, parts: Parts) -> Result<StreamPendingReply, ParsingError>
    ensures ok { IfOk result (λ r. summary_of (parts_meaning parts) ≡ Some (pending_meaning r)) }
    ensures err { IfErr result (Refuses summary_of RefusesSummary (parts_meaning parts)) }
{
    let (count, start, end, rows) = parts;
    if count == 0 {
        return Ok(StreamPendingReply::Empty);
    }
    let Some(start_id) = start else {
        return Err(ParsingError::PendingWithoutStart);
    };
    let Some(end_id) = end else {
        return Err(ParsingError::PendingWithoutEnd);
    };
    let consumers = read_consumers(alloc, rows)?;
    Ok(StreamPendingReply::Data(StreamPendingData {
        count,
        start_id,
        end_id,
        consumers,
    }))
}

/// Reads the reply of a value.
fn read_reply<S: Source>(alloc: Global, v: S) -> Result<StreamPendingReply, ParsingError>
    ensures ok { IfOk result (λ r. pending_reading (S.seen v) ≡ Some (pending_meaning r)) }
    ensures err { IfErr result (Refuses pending_reading RefusesPending (S.seen v)) }
{
    let parts: Parts = v.read(alloc)?;
    read_parts(alloc, parts)
}

/// Read from a count, the first and the last id and a list of consumers. A positive count is
/// refused with `PendingWithoutStart` without a first id, and with `PendingWithoutEnd` if only the
/// last is missing. Otherwise it is refused only as these four are refused.
impl FromRedisValue for StreamPendingReply {
    ghost Meaning = { Option PendingSummary };

    ghost meaning = { pending_meaning };

    ghost reading = { pending_reading };

    ghost may_refuse = { RefusesPending };

    fn from_redis_value(alloc: Global, v: Value) -> Result<StreamPendingReply, ParsingError> {
        read_reply(alloc, v)
    }

    fn from_redis_value_ref(alloc: Global, v: &Value) -> Result<StreamPendingReply, ParsingError> {
        read_reply(alloc, v)
    }
}
