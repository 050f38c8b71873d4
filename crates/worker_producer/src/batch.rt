//! The bytes that a producer sends.
ghost use Rattle.std.specs.Prelude.{◌≡◌, ◌≢◌, ◌+◌, ◌<◌, ◌^◌, ◌*◌, ◌++◌, ◌∷◌, [], IfOk, OnOk, OnErr, codes, length, map};
ghost use Rattle.std.specs.List.{flat_map};
ghost use Rattle.redis_wire.specs.Packed.{bulk_bytes, command_bytes, head_bytes};
ghost use Rattle.worker_producer.specs.Records.{arguments_of, field_of, fields_of};
ghost use Rattle.worker_producer.specs.Sentences.{adds_bytes, ask_bytes, batch_bytes, head_of, own_id};
ghost use Rattle.model_server.specs.Once.Feed.{numbered};

use crate::settings::Settings;
use crate::source::{Field, Record};
use itoa::Buffer;
use redis_resp::{ToRedisArgs, WriteError};
use redis_wire::{PackError, push_bulk};
use std::alloc::{AllocError, Global};

/// Appends `XINFO STREAM key`. An `Err` changes nothing.
pub fn append_question(alloc: Global, out: &mut Vec<u8>, key: &str) -> Result<(), WriteError>
    ensures ok { OnOk result (out.new.items ≡ out.old.items ++ ask_bytes key.now) }
    ensures err { OnErr result (out.new.items ≡ out.old.items) }
{
    append_command(alloc, out, &("XINFO", "STREAM", key))
}

/// Appends `MULTI`, `XADD key [trimming] (before + 1)-0 field value ..` and so on, and `EXEC`. An
/// `Err` changes nothing.
pub fn append_batch(
    alloc: Global,
    out: &mut Vec<u8>,
    settings: &Settings,
    before: u64,
    records: &[Record],
) -> Result<(), WriteError>
    requires { before + length records.now < 2 ^ 64 }
    ensures ok { OnOk result (out.new.items ≡ out.old.items
        ++ batch_bytes (head_of settings.now) (numbered before (map fields_of records.now))) }
    ensures err { OnErr result (out.new.items ≡ out.old.items) }
{
    let mut bytes = Vec::new(alloc);
    append_command(alloc, &mut bytes, &"MULTI")?;
    append_records(alloc, &mut bytes, settings, before, records)?;
    append_command(alloc, &mut bytes, &"EXEC")?;
    out.extend_from_slice(&bytes)?;
    Ok(())
}

/// Appends `XADD` for each record.
fn append_records(
    alloc: Global,
    out: &mut Vec<u8>,
    settings: &Settings,
    before: u64,
    records: &[Record],
) -> Result<(), WriteError>
    requires { before + length records.now < 2 ^ 64 }
    ensures { OnOk result (out.new.items ≡ out.old.items
        ++ adds_bytes (head_of settings.now) (numbered before (map fields_of records.now))) }
{
    let front = build_front(alloc, settings)?;
    let mut id = Vec::new(alloc);
    let mut number = before;
    for fields in records {
        number += 1;
        append_record(out, &front, &mut id, number, fields)?;
    }
    Ok(())
}

/// The start of each `XADD` of a batch, after the count of its arguments: its name, the key, and the trimming options.
#[derive(Drop)]
struct Front {
    /// The number of these arguments.
    count: usize,
    bytes: Vec<u8>,
}

/// The start of each `XADD`.
fn build_front(alloc: Global, settings: &Settings) -> Result<Front, WriteError>
    ensures count { IfOk result (λ front. front.count ≡ length (codes "XADD" ∷ head_of settings.now)) }
    ensures bytes { IfOk result (λ front. front.bytes.items
        ≡ flat_map bulk_bytes (codes "XADD" ∷ head_of settings.now)) }
{
    let words = ("XADD", &settings.key, &settings.trim).to_redis_args(alloc)?;
    let mut bytes = Vec::new(alloc);
    append_arguments(&mut bytes, &words)?;
    Ok(Front {
        count: words.len(),
        bytes,
    })
}

/// Appends arguments.
fn append_arguments(out: &mut Vec<u8>, words: &[Vec<u8>]) -> Result<(), WriteError>
    ensures { OnOk result (out.new.items ≡ out.old.items
        ++ flat_map bulk_bytes (map (λ word. word.items) words.now)) }
{
    for word in words {
        append_argument(out, word)?;
    }
    Ok(())
}

/// Appends the `XADD` of a record, `XADD key [trimming] number-0 field value ..`. `id` is room for the id.
fn append_record(
    out: &mut Vec<u8>,
    front: &Front,
    id: &mut Vec<u8>,
    number: u64,
    fields: &Record,
) -> Result<(), WriteError>
    ensures { OnOk result (out.new.items ≡ out.old.items
        ++ (head_bytes (front.now.count + 1 + length (arguments_of (fields_of fields.now)))
        ++ (front.now.bytes.items
        ++ (bulk_bytes (own_id number) ++ flat_map bulk_bytes (arguments_of (fields_of fields.now)))))) }
{
    let fields = fields.as_slice();
    append_head(out, front.count, fields.len())?;
    out.extend_from_slice(&front.bytes)?;
    write_id(id, number)?;
    push_bulk(out, id)?;
    append_fields(out, fields)?;
    Ok(())
}

/// Appends the number of arguments of an `XADD`: `count` before its id, the id, and two for each field. They are fewer
/// than 2^32.
#[tactic(auto, unfolding(redis_wire::specs::Packed::head_bytes))]
fn append_head(out: &mut Vec<u8>, count: usize, fields: usize) -> Result<(), WriteError>
    ensures { OnOk result (out.new.items ≡ out.old.items ++ head_bytes (count + 1 + 2 * fields)) }
{
    if count > 0xffff_fffe || fields > (0xffff_fffe - count) / 2 {
        return Err(WriteError::Full);
    }
    out.push(b'*')?;
    out.extend_from_slice(
        Buffer::new()
            .format::<usize>(count + 1 + 2 * fields)
            .as_bytes(),
    )?;
    out.extend_from_slice(b"\r\n")?;
    Ok(())
}

/// Writes the id `number-0`.
pub fn write_id(id: &mut Vec<u8>, number: u64) -> Result<(), AllocError>
    ensures { OnOk result (id.new.items ≡ own_id number) }
{
    id.clear();
    id.extend_from_slice(Buffer::new().format::<u64>(number).as_bytes())?;
    id.extend_from_slice(b"-0")?;
    Ok(())
}

/// Appends the names and values of fields.
fn append_fields(out: &mut Vec<u8>, fields: &[Field]) -> Result<(), WriteError>
    ensures { OnOk result (out.new.items ≡ out.old.items
        ++ flat_map bulk_bytes (arguments_of (map field_of fields.now))) }
{
    for field in fields {
        append_field(out, field)?;
    }
    Ok(())
}

/// Appends a name and its value.
fn append_field(out: &mut Vec<u8>, field: &Field) -> Result<(), WriteError>
    ensures { OnOk result (out.new.items ≡ out.old.items
        ++ (bulk_bytes field.now.0.items ++ bulk_bytes field.now.1.items)) }
{
    append_argument(out, &field.0)?;
    append_argument(out, &field.1)?;
    Ok(())
}

/// Appends an argument, which has less than 2^32 bytes.
fn append_argument(out: &mut Vec<u8>, argument: &[u8]) -> Result<(), WriteError>
    ensures { OnOk result (out.new.items ≡ out.old.items ++ bulk_bytes argument.now) }
{
    if argument.len() > 0xffff_ffff {
        return Err(WriteError::Full);
    }
    push_bulk(out, argument)?;
    Ok(())
}

/// Appends the bytes of a command, which has at least a name. An `Err` changes nothing.
fn append_command<T: ToRedisArgs>(
    alloc: Global,
    out: &mut Vec<u8>,
    command: &T,
) -> Result<(), WriteError>
    requires { T.args command.now ≢ [] }
    ensures ok { OnOk result (out.new.items ≡ out.old.items ++ command_bytes (T.args command.now)) }
    ensures err { OnErr result (out.new.items ≡ out.old.items) }
{
    match redis_wire::append_command(alloc, out, command) {
        Ok(()) => Ok(()),
        Err(PackError::Memory) => Err(WriteError::Memory),
        Err(PackError::Full) => Err(WriteError::Full),
        Err(PackError::NoArguments) => unreachable!(),
    }
}
