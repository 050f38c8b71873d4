//! The fields of an entry as JSON text.
ghost use Rattle.std.specs.Prelude.{◌≡◌, IfOk};
ghost use Rattle.json.specs.Print.{print};
ghost use Rattle.worker.specs.EntryJson.{fields_tokens};

use json::Writer;
use std::alloc::{AllocError, Global};
use stream_in_place::FieldsRef;
use worker::entry_json::push_fields;

/// Returns the fields as JSON: `[["name","value"],..]`, in order and including repeated names. A name or a
/// value that is not UTF-8 is written as `{"base64":"..."}`.
pub fn fields_text(alloc: Global, fields: FieldsRef<'_>) -> Result<Vec<u8>, AllocError>
    ensures { IfOk result (λ text. text.items ≡ print (fields_tokens fields.entry)) }
{
    let mut out = Writer::new(Vec::with_capacity(alloc, 128)?);
    push_fields(alloc, &mut out, fields)?;
    Ok(out.into_inner())
}
