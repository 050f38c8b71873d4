//! The command that forwards an entry to another stream.
ghost use Rattle.std.specs.Prelude.{◌≡◌, ◌++◌, ◌∷◌, [], IfOk, OnOk, flat_map};
ghost use Rattle.redis_wire.specs.Packed.{command_bytes};
ghost use Rattle.worker_table.specs.RowTable.OfPost.{posted_of};
ghost use Rattle.worker_table.specs.RowTable.OfRow.{row_of};
ghost use Rattle.worker_table.specs.Forwarded.{add_words, field_words, look_words};
ghost use Rattle.worker.specs.Handling.{pair_of};

use crate::row_table::{PostedRow, Row};
use redis_wire::{PackError, pack_command};
use std::alloc::{AllocError, Global};
use stream_in_place::FieldsRef;
use worker::EntryRef;

/// Returns the row of an entry, with the command that forwards the entry to `target`.
pub fn posted_row(
    alloc: Global,
    target: &str,
    row: Row,
    entry: &EntryRef<'_>,
) -> Result<PostedRow, PackError>
    ensures { IfOk result (λ posted. posted_of posted ≡ (
      row_of row,
      (
        command_bytes (add_words target.now (pair_of entry.now)),
        command_bytes (look_words target.now (pair_of entry.now).0),
      ),
    )) }
{
    let command = make_add_command(alloc, target, entry)?;
    let question = pack_command(alloc, &("XRANGE", target, entry.id(), entry.id()))?;
    Ok(PostedRow {
        row,
        command,
        question,
    })
}

/// Returns the command `XADD target id name value ..`. It adds the entry under its own id, with its own fields
/// in order.
fn make_add_command(alloc: Global, target: &str, entry: &EntryRef<'_>) -> Result<Vec<u8>, PackError>
    ensures { IfOk result (λ bytes. bytes.items ≡ command_bytes (add_words target.now (pair_of entry.now))) }
{
    let mut fields = Vec::with_capacity(alloc, 16)?;
    push_fields(&mut fields, entry.fields())?;
    pack_command(alloc, &("XADD", target, entry.id(), fields.as_slice()))
}

/// Appends each name followed by its value.
fn push_fields<'a>(out: &mut Vec<&'a [u8]>, fields: FieldsRef<'a>) -> Result<(), AllocError>
    ensures { OnOk result (flat_map (λ word. word.now ∷ []) out.new.items
        ≡ flat_map (λ word. word.now ∷ []) out.old.items ++ field_words fields.entry) }
{
    for (name, value) in fields {
        out.push(name)?;
        out.push(value)?;
    }
    Ok(())
}
