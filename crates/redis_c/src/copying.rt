//! Records of replies as plain records: their texts are copied one after the other, and each becomes a place.
ghost use Rattle.std.specs.Prelude.{◌≡◌, ◌++◌, flat_map, map, IfOk};
ghost use Rattle.redis_streams.specs.InfoMeaning.{consumer_meaning, group_meaning};
ghost use Rattle.redis_streams.specs.PendingMeaning.{pending_id_meaning, pending_meaning};
ghost use Rattle.redis_c.specs.Outcome.{nowhere};
ghost use Rattle.redis_c.specs.Records.{IsCopyAt, AreAt, IsGroupAt, IsPendingAt, IsConsumerAt, IsSummaryAt};
ghost use Rattle.redis_c.specs.Records.{group_text, pending_text, consumer_text, summary_text};

use crate::records::{ConsumerRecord, GroupRecord, PendingRecord, SummaryRecord};
use redis_streams::{StreamInfoConsumer, StreamInfoGroup, StreamPendingId, StreamPendingReply};
use redis_wire::place::Span;
use std::alloc::{AllocError, Global};

/// Appends a text to the texts, and returns its place.
fn put_text(texts: &mut Vec<u8>, text: &[u8]) -> Result<Span, AllocError>
    ensures more { IfOk result (λ _. texts.new.items ≡ texts.old.items ++ text.now) }
    ensures at { IfOk result (λ place. IsCopyAt texts.new.items place text.now) }
{
    let start = texts.len();
    texts.extend_from_slice(text)?;
    Ok(Span {
        start,
        len: text.len(),
    })
}

/// Appends the texts of a group to the texts.
fn put_group(texts: &mut Vec<u8>, group: &StreamInfoGroup) -> Result<GroupRecord, AllocError>
    ensures more { IfOk result (λ _. texts.new.items ≡ texts.old.items ++ group_text (group_meaning group.now)) }
    ensures at { IfOk result (λ p. IsGroupAt texts.new.items p (group_meaning group.now)) }
{
    let name = put_text(texts, group.name.as_bytes())?;
    let last_delivered_id = put_text(texts, group.last_delivered_id.as_bytes())?;
    Ok(GroupRecord {
        name,
        last_delivered_id,
        consumers: group.consumers,
        pending: group.pending,
        has_entries_read: group.entries_read.is_some(),
        has_lag: group.lag.is_some(),
        entries_read: group.entries_read.unwrap_or(0),
        lag: group.lag.unwrap_or(0),
    })
}

/// Appends the texts of groups to the texts.
pub fn put_groups(
    alloc: Global,
    texts: &mut Vec<u8>,
    groups: &[StreamInfoGroup],
) -> Result<Vec<GroupRecord>, AllocError>
    ensures more { IfOk result (λ _. texts.new.items
        ≡ texts.old.items ++ flat_map group_text (map group_meaning groups.now)) }
    ensures at { IfOk result (λ records. AreAt (IsGroupAt texts.new.items) records.items
        (map group_meaning groups.now)) }
{
    let mut records = Vec::with_capacity(alloc, groups.len())?;
    for group in groups {
        records.push(put_group(texts, group)?)?;
    }
    Ok(records)
}

/// Appends the texts of a pending entry to the texts.
fn put_pending(texts: &mut Vec<u8>, entry: &StreamPendingId) -> Result<PendingRecord, AllocError>
    ensures more { IfOk result (λ _. texts.new.items
        ≡ texts.old.items ++ pending_text (pending_id_meaning entry.now)) }
    ensures at { IfOk result (λ p. IsPendingAt texts.new.items p (pending_id_meaning entry.now)) }
{
    let id = put_text(texts, entry.id.as_bytes())?;
    let consumer = put_text(texts, entry.consumer.as_bytes())?;
    Ok(PendingRecord {
        id,
        consumer,
        last_delivered_ms: entry.last_delivered_ms,
        times_delivered: entry.times_delivered,
    })
}

/// Appends the texts of pending entries to the texts.
pub fn put_entries(
    alloc: Global,
    texts: &mut Vec<u8>,
    entries: &[StreamPendingId],
) -> Result<Vec<PendingRecord>, AllocError>
    ensures more { IfOk result (λ _. texts.new.items
        ≡ texts.old.items ++ flat_map pending_text (map pending_id_meaning entries.now)) }
    ensures at { IfOk result (λ records. AreAt (IsPendingAt texts.new.items) records.items
        (map pending_id_meaning entries.now)) }
{
    let mut records = Vec::with_capacity(alloc, entries.len())?;
    for entry in entries {
        records.push(put_pending(texts, entry)?)?;
    }
    Ok(records)
}

/// Appends the name of a consumer to the texts.
fn put_consumer(
    texts: &mut Vec<u8>,
    consumer: &StreamInfoConsumer,
) -> Result<ConsumerRecord, AllocError>
    ensures more { IfOk result (λ _. texts.new.items
        ≡ texts.old.items ++ consumer_text (consumer_meaning consumer.now)) }
    ensures at { IfOk result (λ p. IsConsumerAt texts.new.items p (consumer_meaning consumer.now)) }
{
    let name = put_text(texts, consumer.name.as_bytes())?;
    Ok(ConsumerRecord {
        name,
        pending: consumer.pending,
    })
}

/// Appends the names of consumers to the texts.
fn put_consumers(
    alloc: Global,
    texts: &mut Vec<u8>,
    consumers: &[StreamInfoConsumer],
) -> Result<Vec<ConsumerRecord>, AllocError>
    ensures more { IfOk result (λ _. texts.new.items
        ≡ texts.old.items ++ flat_map consumer_text (map consumer_meaning consumers.now)) }
    ensures at { IfOk result (λ records. AreAt (IsConsumerAt texts.new.items) records.items
        (map consumer_meaning consumers.now)) }
{
    let mut records = Vec::with_capacity(alloc, consumers.len())?;
    for consumer in consumers {
        records.push(put_consumer(texts, consumer)?)?;
    }
    Ok(records)
}

/// Appends the texts of a summary to the texts, those of its consumers last.
pub fn put_summary(
    alloc: Global,
    texts: &mut Vec<u8>,
    reply: &StreamPendingReply,
) -> Result<(SummaryRecord, Vec<ConsumerRecord>), AllocError>
    ensures more { IfOk result (λ _. texts.new.items ≡ texts.old.items ++ summary_text (pending_meaning reply.now)) }
    ensures at { IfOk result (λ x. IsSummaryAt texts.new.items x.0 x.1.items (pending_meaning reply.now)) }
{
    match reply {
        StreamPendingReply::Empty => Ok((build_empty_summary(), Vec::new(alloc))),
        StreamPendingReply::Data(data) => {
            let start_id = put_text(texts, data.start_id.as_bytes())?;
            let end_id = put_text(texts, data.end_id.as_bytes())?;
            let consumers = put_consumers(alloc, texts, &data.consumers)?;
            let summary = SummaryRecord {
                count: data.count,
                start_id,
                end_id,
            };
            Ok((summary, consumers))
        }
    }
}

/// The summary if no entry is pending.
fn build_empty_summary() -> SummaryRecord
    ensures { result ≡ record { count = 0; start_id = nowhere; end_id = nowhere } }
{
    let nowhere = Span { start: 0, len: 0 };
    SummaryRecord {
        count: 0,
        start_id: nowhere,
        end_id: nowhere,
    }
}
