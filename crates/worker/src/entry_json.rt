//! The fields of an entry as JSON: `[["name","value"],..]`, in order and with repeated ones. A name or a value that
//! is not UTF-8 is `{"base64":"..."}`.
ghost use Rattle.std.specs.Prelude.{◌≡◌, ◌++◌, ◌∷◌, [], OnOk, codes, flat_map};
ghost use Rattle.json.specs.Token.{begin_object, end_object, key, string};
ghost use Rattle.worker.specs.EntryJson.{base64_tokens, bytes_tokens, field_tokens, fields_tokens};

use base64::engine::general_purpose::STANDARD;
use json::Writer;
use std::alloc::{AllocError, Global};
use stream_in_place::FieldsRef;

/// Writes the fields as an array, each as an array of its name and its value.
pub fn push_fields(alloc: Global, out: &mut Writer, fields: FieldsRef<'_>) -> Result<(), AllocError>
    ensures before { out.new.before ≡ out.old.before }
    ensures tokens { OnOk result (out.new.tokens ≡ out.old.tokens ++ fields_tokens fields.entry) }
{
    out.begin_array()?;
    push_each(alloc, out, fields)?;
    out.end_array()
}

/// Writes the fields, in order.
fn push_each(alloc: Global, out: &mut Writer, fields: FieldsRef<'_>) -> Result<(), AllocError>
    ensures before { out.new.before ≡ out.old.before }
    ensures tokens { OnOk result (out.new.tokens ≡ out.old.tokens ++ flat_map field_tokens fields.entry) }
{
    for (name, value) in fields {
        push_field(alloc, out, name, value)?;
    }
    Ok(())
}

/// Writes a name and its value, as an array of two.
fn push_field(alloc: Global, out: &mut Writer, name: &[u8], value: &[u8]) -> Result<(), AllocError>
    ensures before { out.new.before ≡ out.old.before }
    ensures tokens { OnOk result (out.new.tokens ≡ out.old.tokens ++ field_tokens (name.now, value.now)) }
{
    out.begin_array()?;
    push_text(alloc, out, name)?;
    push_text(alloc, out, value)?;
    out.end_array()
}

/// Writes bytes as a string, or, if they are not UTF-8, as an object with their Base64.
fn push_text(alloc: Global, out: &mut Writer, bytes: &[u8]) -> Result<(), AllocError>
    ensures before { out.new.before ≡ out.old.before }
    ensures tokens { OnOk result (out.new.tokens ≡ out.old.tokens ++ bytes_tokens bytes.now) }
{
    match str::from_utf8(bytes) {
        Ok(text) => out.string(text),
        Err(_) => push_base64(alloc, out, bytes),
    }
}

/// Writes bytes as an object with their Base64.
fn push_base64(alloc: Global, out: &mut Writer, bytes: &[u8]) -> Result<(), AllocError>
    ensures before { out.new.before ≡ out.old.before }
    ensures tokens { OnOk result (out.new.tokens ≡ out.old.tokens ++ base64_tokens bytes.now) }
{
    let text = STANDARD.encode(alloc, bytes)?;
    push_object(out, "base64", &text)
}

/// Writes an object of one name and its text.
fn push_object(out: &mut Writer, name: &str, text: &str) -> Result<(), AllocError>
    ensures before { out.new.before ≡ out.old.before }
    ensures tokens { OnOk result (out.new.tokens
        ≡ out.old.tokens ++ begin_object ∷ key name.now ∷ string text.now ∷ end_object ∷ []) }
{
    out.begin_object()?;
    out.key(name)?;
    out.string(text)?;
    out.end_object()
}
