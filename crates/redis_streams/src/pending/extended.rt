//! The reply of XPENDING with a range: one row for each pending entry.
ghost use Rattle.std.specs.Prelude.{◌≡◌, [], List, Some, IsOk, IfOk, IfErr, map};
ghost use Rattle.redis_resp.specs.Reading.{traverse};
ghost use Rattle.redis_resp.specs.Refusal.{Refuses, OneRefused};
ghost use Rattle.redis_resp.specs.Value.{tree};
ghost use Rattle.redis_streams.specs.Pending.{PendingEntry, empty_pending_entry, entry_of_four, entry_of_members, is_bulk, literal_number, pending_count_reading, pending_row, row_numbers};
ghost use Rattle.redis_streams.specs.PendingMeaning.{pending_id_meaning, pending_ids_meaning};
ghost use Rattle.redis_streams.specs.PendingRefusal.{RefusesFourMembers, RefusesMembers, RefusesPendingCount, RefusesPendingRow};

use redis_resp::{FromRedisValue, ParsingError, Source, Value};
use std::alloc::{AllocError, Global};

/// The reply of `XPENDING key group [IDLE ms] start end count [consumer]`, with a range and a
/// count.
#[derive(Debug, Drop)]
pub struct StreamPendingCountReply {
    /// The pending entries, in order.
    pub ids: Vec<StreamPendingId>,
}

/// A pending entry: delivered to a consumer and not yet acknowledged.
#[derive(Debug, Drop)]
pub struct StreamPendingId {
    /// The id of the entry.
    pub id: String,
    /// The name of the consumer that it was delivered to.
    pub consumer: String,
    /// The number of milliseconds since its last delivery.
    pub last_delivered_ms: usize,
    /// The number of times it was delivered.
    pub times_delivered: usize,
}

impl StreamPendingCountReply {
    /// Returns the reply with no entries. It allocates no memory and is always Ok.
    pub fn empty(alloc: Global) -> Result<StreamPendingCountReply, AllocError>
        ensures ok { IsOk result }
        ensures entries { IfOk result (λ r. pending_ids_meaning r ≡ []) }
    {
        Ok(StreamPendingCountReply {
            ids: Vec::new(alloc),
        })
    }

    /// Returns a copy of the reply. It fails only if it runs out of memory.
    pub fn try_clone(&self, alloc: Global) -> Result<StreamPendingCountReply, AllocError>
        ensures { IfOk result (λ r. pending_ids_meaning r ≡ pending_ids_meaning self.now) }
    {
        let mut ids = Vec::with_capacity(alloc, self.ids.len())?;
        for id in &self.ids {
            ids.push(id.try_clone(alloc)?)?;
        }
        Ok(StreamPendingCountReply { ids })
    }
}

impl StreamPendingId {
    /// Returns the empty pending entry. It allocates no memory and is always Ok.
    pub fn empty(alloc: Global) -> Result<StreamPendingId, AllocError>
        ensures ok { IsOk result }
        ensures entry { IfOk result (λ p. pending_id_meaning p ≡ empty_pending_entry) }
    {
        Ok(StreamPendingId {
            id: String::new(alloc),
            consumer: String::new(alloc),
            last_delivered_ms: 0,
            times_delivered: 0,
        })
    }

    /// Returns a copy of the pending entry. It fails only if it runs out of memory.
    pub fn try_clone(&self, alloc: Global) -> Result<StreamPendingId, AllocError>
        ensures { IfOk result (λ p. pending_id_meaning p ≡ pending_id_meaning self.now) }
    {
        Ok(StreamPendingId {
            id: String::from_str(alloc, &self.id)?,
            consumer: String::from_str(alloc, &self.consumer)?,
            last_delivered_ms: self.last_delivered_ms,
            times_delivered: self.times_delivered,
        })
    }
}

/// Returns whether a value is a bulk string with no attribute around it.
fn is_bulk_string(v: &Value) -> bool
    ensures { result ≡ is_bulk (tree v.now) }
{
    matches!(v, Value::BulkString(_))
}

/// Returns a whole number with no attribute around it as one of 64 bits without a sign: a negative
/// one is itself plus 2 ^ 64.
fn read_number(v: &Value) -> Option<usize>
    ensures { result ≡ literal_number (tree v.now) }
{
    match v {
        Value::Int(number) => Some(number.cast_unsigned() as usize),
        _ => None,
    }
}

/// Returns the two numbers of a row of two bulk strings and two `Int`s, or `None` if a member has
/// another kind.
fn read_numbers(
    id: &Value,
    consumer: &Value,
    elapsed: &Value,
    delivered: &Value,
) -> Option<(usize, usize)>
    ensures { result ≡ row_numbers (
      tree id.now,
      tree consumer.now,
      tree elapsed.now,
      tree delivered.now,
    ) }
{
    if is_bulk_string(id) && is_bulk_string(consumer) {
        let elapsed = read_number(elapsed)?;
        let delivered = read_number(delivered)?;
        Some((elapsed, delivered))
    } else {
        None
    }
}

/// Reads the pending entry of an id, a name and two numbers. Returns `NotPendingRow(3)` if one has
/// another kind, and `NotText` for a bulk string that is no text.
fn read_members<S: Source>(
    alloc: Global,
    id: S,
    consumer: S,
    elapsed: S,
    delivered: S,
) -> Result<StreamPendingId, ParsingError>
    ensures ok { IfOk result (λ p. entry_of_members (
      S.seen id,
      S.seen consumer,
      S.seen elapsed,
      S.seen delivered,
    ) ≡ Some (pending_id_meaning p)) }
    ensures err { IfErr result (Refuses entry_of_members RefusesMembers
        (S.seen id, S.seen consumer, S.seen elapsed, S.seen delivered)) }
{
    let Some((last_delivered_ms, times_delivered)) = read_numbers(
        id.as_value(),
        consumer.as_value(),
        elapsed.as_value(),
        delivered.as_value(),
    ) else {
        return Err(ParsingError::NotPendingRow(3));
    };
    let id: String = id.read(alloc)?;
    let consumer: String = consumer.read(alloc)?;
    Ok(StreamPendingId {
        id,
        consumer,
        last_delivered_ms,
        times_delivered,
    })
}

/// Reads the pending entry of a list of exactly four members; `NotPendingRow(3)` for any other.
fn read_four<S: Source>(
    alloc: Global,
    mut members: S::Values,
) -> Result<StreamPendingId, ParsingError>
    ensures ok { IfOk result (λ p. entry_of_four (S.values_left members)
        ≡ Some (pending_id_meaning p)) }
    ensures err { IfErr result (Refuses entry_of_four RefusesFourMembers
        (S.values_left members)) }
{
    if S::count_values(&members) > 4 {
        return Err(ParsingError::NotPendingRow(3));
    }
    let id = S::next_value(&mut members).ok_or(ParsingError::NotPendingRow(3))?;
    let consumer = S::next_value(&mut members).ok_or(ParsingError::NotPendingRow(3))?;
    let elapsed = S::next_value(&mut members).ok_or(ParsingError::NotPendingRow(3))?;
    let delivered = S::next_value(&mut members).ok_or(ParsingError::NotPendingRow(3))?;
    read_members(alloc, id, consumer, elapsed, delivered)
}

/// Reads the pending entry of a row; `NotPendingRow(2)` if it is no `Array`, attributes included.
fn read_row<S: Source>(alloc: Global, row: S) -> Result<StreamPendingId, ParsingError>
    ensures ok { IfOk result (λ p. pending_row (S.seen row) ≡ Some (pending_id_meaning p)) }
    ensures err { IfErr result (Refuses pending_row RefusesPendingRow (S.seen row)) }
{
    match row.into_array() {
        Some(members) => read_four::<S>(alloc, members),
        None => Err(ParsingError::NotPendingRow(2)),
    }
}

/// Reads the pending entries of rows, in order.
fn read_rows<S: Source>(
    alloc: Global,
    mut rows: S::Values,
) -> Result<Vec<StreamPendingId>, ParsingError>
    ensures ok { IfOk result (λ r. traverse pending_row (S.values_left rows)
        ≡ Some (map pending_id_meaning r.items)) }
    ensures err { IfErr result (Refuses (traverse pending_row)
        (OneRefused (Refuses pending_row RefusesPendingRow)) (S.values_left rows)) }
{
    let mut ids = Vec::with_capacity(alloc, S::count_values(&rows))?;
    while let Some(row) = S::next_value(&mut rows) {
        ids.push(read_row(alloc, row)?)?;
    }
    Ok(ids)
}

/// Reads the reply of a value.
fn read_reply<S: Source>(alloc: Global, v: S) -> Result<StreamPendingCountReply, ParsingError>
    ensures ok { IfOk result (λ r. pending_count_reading (S.seen v)
        ≡ Some (pending_ids_meaning r)) }
    ensures err { IfErr result (Refuses pending_count_reading RefusesPendingCount (S.seen v)) }
{
    let Some(rows) = v.into_array() else {
        return Err(ParsingError::NotPendingRow(1));
    };
    Ok(StreamPendingCountReply {
        ids: read_rows::<S>(alloc, rows)?,
    })
}

/// Read from an `Array` of rows; `NotPendingRow(1)` for any other kind, attributes included. A
/// row is an `Array` (`NotPendingRow(2)`) of exactly two bulk strings and two `Int`s
/// (`NotPendingRow(3)`). A bulk string that is no text is refused with `NotText`.
impl FromRedisValue for StreamPendingCountReply {
    ghost Meaning = { List PendingEntry };

    ghost meaning = { pending_ids_meaning };

    ghost reading = { pending_count_reading };

    ghost may_refuse = { RefusesPendingCount };

    fn from_redis_value(alloc: Global, v: Value) -> Result<StreamPendingCountReply, ParsingError> {
        read_reply(alloc, v)
    }

    fn from_redis_value_ref(
        alloc: Global,
        v: &Value,
    ) -> Result<StreamPendingCountReply, ParsingError> {
        read_reply(alloc, v)
    }
}
