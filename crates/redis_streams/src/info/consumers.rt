//! The reply of XINFO CONSUMERS.
ghost use Rattle.std.specs.Prelude.{◌≡◌, [], List, Some, IsOk, IfOk, IfErr, codes, length, map, option_map, vec_capacity};
ghost use Rattle.redis_resp.specs.Refusal.{Refuses};
ghost use Rattle.redis_streams.specs.Info.{Consumer, consumer_of_fields, consumer_reading, consumers_reading};
ghost use Rattle.redis_streams.specs.InfoMeaning.{consumer_meaning, consumers_meaning, fields_by_name};
ghost use Rattle.redis_streams.specs.InfoRefusal.{RefusesConsumerField, RefusesConsumers, RefusesNamed};

use crate::info::consumer::{StreamInfoConsumer, copy_consumers};
use crate::info::named_fields::{read_named_fields, read_or, take_field};
use redis_resp::{FromRedisValue, ParsingError, Source, Value};
use std::alloc::{AllocError, Global};
use std::collections::HashMap;

/// The reply of XINFO CONSUMERS: the consumers of a group.
#[derive(Debug, Drop)]
pub struct StreamInfoConsumersReply {
    /// The consumers, in order.
    pub consumers: Vec<StreamInfoConsumer>,
}

impl StreamInfoConsumersReply {
    /// Returns the reply without consumers. It allocates no memory and is always Ok.
    pub fn empty(alloc: Global) -> Result<StreamInfoConsumersReply, AllocError>
        ensures ok { IsOk result }
        ensures consumers { IfOk result (λ r. consumers_meaning r ≡ []) }
    {
        Ok(StreamInfoConsumersReply {
            consumers: Vec::new(alloc),
        })
    }

    /// Returns a copy of the reply. It fails only if it runs out of memory.
    pub fn try_clone(&self, alloc: Global) -> Result<StreamInfoConsumersReply, AllocError>
        ensures { IfOk result (λ r. consumers_meaning r ≡ consumers_meaning self.now) }
    {
        Ok(StreamInfoConsumersReply {
            consumers: copy_consumers(alloc, &self.consumers)?,
        })
    }
}

/// The fields of a consumer, each if present.
#[derive(Drop)]
struct ConsumerFields<S> {
    name: Option<S>,
    pending: Option<S>,
    idle: Option<S>,
}

/// Removes the fields of a consumer from the fields.
fn take_consumer_fields<S: Source>(fields: &mut HashMap<String, S>) -> ConsumerFields<S>
    ensures name { option_map S.seen result.name
        ≡ fields_by_name S.seen fields.old (codes "name") }
    ensures pending { option_map S.seen result.pending
        ≡ fields_by_name S.seen fields.old (codes "pending") }
    ensures idle { option_map S.seen result.idle
        ≡ fields_by_name S.seen fields.old (codes "idle") }
{
    ConsumerFields {
        name: take_field(fields, "name"),
        pending: take_field(fields, "pending"),
        idle: take_field(fields, "idle"),
    }
}

/// Returns the consumer of the fields of a row; other fields are ignored.
fn read_consumer<S: Source>(
    alloc: Global,
    mut fields: HashMap<String, S>,
) -> Result<StreamInfoConsumer, ParsingError>
    ensures ok { IfOk result (λ r. consumer_of_fields (fields_by_name S.seen fields)
        ≡ Some (consumer_meaning r)) }
    ensures err { IfErr result (Refuses consumer_of_fields RefusesConsumerField
        (fields_by_name S.seen fields)) }
{
    let fields = take_consumer_fields(&mut fields);
    Ok(StreamInfoConsumer {
        name: read_or(alloc, fields.name, String::new(alloc))?,
        pending: read_or(alloc, fields.pending, 0)?,
        idle: read_or(alloc, fields.idle, 0)?,
    })
}

/// A row of the reply.
#[derive(Drop)]
struct Row(StreamInfoConsumer);

/// Reads the row of a value.
fn read_row<S: Source>(alloc: Global, v: S) -> Result<Row, ParsingError>
    ensures ok { IfOk result (λ row. consumer_reading (S.seen v)
        ≡ Some (consumer_meaning row.0)) }
    ensures err { IfErr result (Refuses consumer_reading (RefusesNamed RefusesConsumerField)
        (S.seen v)) }
{
    let fields = read_named_fields(alloc, v)?;
    Ok(Row(read_consumer(alloc, fields)?))
}

impl FromRedisValue for Row {
    ghost Meaning = { Consumer };

    ghost meaning = { λ row. consumer_meaning row.0 };

    ghost reading = { consumer_reading };

    ghost may_refuse = { RefusesNamed RefusesConsumerField };

    fn from_redis_value(alloc: Global, v: Value) -> Result<Row, ParsingError> {
        read_row(alloc, v)
    }

    fn from_redis_value_ref(alloc: Global, v: &Value) -> Result<Row, ParsingError> {
        read_row(alloc, v)
    }
}

/// Returns the reply of these rows. It fails only if it runs out of memory.
fn make_reply(alloc: Global, rows: Vec<Row>) -> Result<StreamInfoConsumersReply, AllocError>
    ensures rows { IfOk result (λ r. consumers_meaning r
        ≡ map (λ row. consumer_meaning row.0) rows.items) }
    ensures room { IfOk result (λ r. vec_capacity r.consumers ≡ length rows.items) }
{
    let mut consumers = Vec::with_capacity(alloc, rows.len())?;
    for row in rows {
        consumers.push_reserved(row.0);
    }
    Ok(StreamInfoConsumersReply { consumers })
}

/// Reads the consumers of a value that is a list of rows.
#[tactic(auto, using(crate::proofs::InfoLemmas::list_wants_memory))]
fn read_reply<S: Source>(alloc: Global, v: S) -> Result<StreamInfoConsumersReply, ParsingError>
    ensures ok { IfOk result (λ r. consumers_reading (S.seen v) ≡ Some (consumers_meaning r)) }
    ensures err { IfErr result (Refuses consumers_reading RefusesConsumers (S.seen v)) }
{
    let rows: Vec<Row> = v.read(alloc)?;
    if rows.is_empty() {
        return Ok(StreamInfoConsumersReply {
            consumers: Vec::new(alloc),
        });
    }
    Ok(make_reply(alloc, rows)?)
}

/// Read from a list of rows, each of fields by name. Returns `NotList` if the value is no list.
/// Otherwise returns the error of one of the rows.
impl FromRedisValue for StreamInfoConsumersReply {
    ghost Meaning = { List Consumer };

    ghost meaning = { consumers_meaning };

    ghost reading = { consumers_reading };

    ghost may_refuse = { RefusesConsumers };

    fn from_redis_value(alloc: Global, v: Value) -> Result<StreamInfoConsumersReply, ParsingError> {
        read_reply(alloc, v)
    }

    fn from_redis_value_ref(
        alloc: Global,
        v: &Value,
    ) -> Result<StreamInfoConsumersReply, ParsingError> {
        read_reply(alloc, v)
    }
}
