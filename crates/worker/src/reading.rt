//! The entries of a reply.
ghost use Rattle.std.specs.Prelude.{◌≡◌, [], IfErr, IfOk, Some, map, option_map, string_bytes};
ghost use Rattle.redis_resp.specs.Value.{tree};
ghost use Rattle.stream_in_place.specs.SentMeaning.{claim_of, sent_all, sent_of};
ghost use Rattle.stream_in_place.specs.SentReading.{sent_streams_reading};
ghost use Rattle.worker.specs.Answers.{claim_read, entries_read, first_nil, news_read, only_stream};
ghost use Rattle.worker.specs.Handed.{entries_sent};
ghost use Rattle.worker.specs.Parts.{NoStreams, NotClaimed, NotNews, NotRead};
ghost use Rattle.worker.specs.Read.{named, streams_named};

use crate::error::WorkerError;
use redis_resp::{PairList, Value, from_redis_value};
use std::alloc::{AllocError, Global};
use stream_in_place::{EntriesRef, SentClaim, SentRow, StreamsRef};

/// Returns the entries of the only stream in a reply to XREADGROUP.
pub fn read_entries(alloc: Global, key: &str, value: Value) -> Result<Vec<SentRow>, WorkerError>
    ensures ok { IfOk result (λ es. entries_read key.now (tree value) ≡ Some (sent_all es)) }
    ensures err { IfErr result (NotRead key.now (tree value)) }
{
    let streams = read_streams(alloc, value)?;
    match pick_entries(alloc, key, streams) {
        Some(entries) => Ok(entries),
        None => Err(WorkerError::OtherStream),
    }
}

/// Returns the streams in a reply to XREADGROUP.
fn read_streams(alloc: Global, value: Value) -> Result<Vec<(String, Vec<SentRow>)>, WorkerError>
    ensures ok { IfOk result (λ r. sent_streams_reading (tree value) ≡ Some (map named r.items)) }
    ensures err { IfErr result (NoStreams (tree value)) }
{
    let lists: Vec<PairList<Vec<SentRow>>> = from_redis_value(alloc, value)?;
    Ok(join(alloc, lists)?)
}

/// Joins the lists of streams, in order.
fn join(
    alloc: Global,
    lists: Vec<PairList<Vec<SentRow>>>,
) -> Result<Vec<(String, Vec<SentRow>)>, AllocError>
    ensures { IfOk result (λ r. map named r.items ≡ streams_named lists) }
{
    let mut streams = Vec::new(alloc);
    for mut list in lists {
        streams.append(&mut list.0)?;
    }
    Ok(streams)
}

/// Returns the entries of the only stream, or an empty list if there is no stream.
fn pick_entries(
    alloc: Global,
    key: &str,
    mut streams: Vec<(String, Vec<SentRow>)>,
) -> Option<Vec<SentRow>>
    ensures { option_map sent_all result ≡ only_stream key.now (map named streams.items) }
{
    let Some((name, entries)) = streams.pop() else {
        return Some(Vec::new(alloc));
    };
    if streams.is_empty() && name.as_str() == key {
        Some(entries)
    } else {
        None
    }
}

/// Returns the new entries of the only stream.
pub fn read_new(alloc: Global, key: &str, value: Value) -> Result<Vec<SentRow>, WorkerError>
    ensures ok { IfOk result (λ es. news_read key.now (tree value) ≡ Some (sent_all es)) }
    ensures err { IfErr result (NotNews key.now (tree value)) }
{
    let entries = read_entries(alloc, key, value)?;
    match find_nil_id(&entries)? {
        None => Ok(entries),
        Some(id) => Err(WorkerError::NilFields(id)),
    }
}

/// Returns the claim in a reply to XAUTOCLAIM.
pub fn read_claim(alloc: Global, value: Value) -> Result<SentClaim, WorkerError>
    ensures ok { IfOk result (λ c. claim_read (tree value) ≡ Some (claim_of c)) }
    ensures err { IfErr result (NotClaimed [] (tree value)) }
{
    let claim: SentClaim = from_redis_value(alloc, value)?;
    match find_nil_id(&claim.claimed)? {
        None => Ok(claim),
        Some(id) => Err(WorkerError::NilFields(id)),
    }
}

/// Returns the id of the first entry with nil in place of its fields.
fn find_nil_id(entries: &[SentRow]) -> Result<Option<String>, AllocError>
    ensures { IfOk result (λ id. option_map string_bytes id ≡ first_nil (map sent_of entries.now)) }
{
    for entry in entries {
        if entry.fields.is_none() {
            return Ok(Some(entry.id.clone()?));
        }
    }
    Ok(None)
}

/// Returns the id of the first borrowed entry with nil in place of its fields.
pub fn nil_id_in_place<'a>(entries: EntriesRef<'a>) -> Option<&'a str>
    ensures { option_map (λ id. id.now) result ≡ first_nil entries.entry }
{
    for entry in entries {
        if entry.is_deleted() {
            return Some(entry.id());
        }
    }
    None
}

/// Returns the id of the first borrowed entry with nil in place of its fields, if there are entries.
pub fn new_nil_id<'a>(entries: &Option<EntriesRef<'a>>) -> Option<&'a str>
    ensures { option_map (λ id. id.now) result ≡ first_nil (entries_sent entries.now) }
{
    match entries {
        None => None,
        Some(entries) => nil_id_in_place(entries.again()),
    }
}

/// Returns the borrowed entries of the only stream, or `None` if there is no stream.
pub fn only_in_place<'a>(key: &str, mut streams: StreamsRef<'a>) -> Option<Option<EntriesRef<'a>>>
    ensures { option_map entries_sent result ≡ only_stream key.now streams.entry }
{
    let Some(stream) = streams.next() else {
        return Some(None);
    };
    if streams.is_empty() && stream.name() == key {
        Some(Some(stream.entries()))
    } else {
        None
    }
}
