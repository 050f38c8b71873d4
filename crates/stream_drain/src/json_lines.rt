//! Entries as lines of JSON.
ghost use Rattle.std.specs.Prelude.{◌≡◌, ◌≢◌, ◌++◌, ◌∷◌, [], IfOk, OnOk, codes};
ghost use Rattle.std.specs.List.{AllByRecursion};
ghost use Rattle.json.specs.Print.{print};
ghost use Rattle.json.specs.Token.{begin_object, key, string};
ghost use Rattle.stream_drain.specs.Line.{begin_tokens, entry_tokens};
ghost use Rattle.worker.specs.Handling.{pair_of};

use json::Writer;
use std::alloc::{AllocError, Global};
use worker::EntryRef;
use worker::entry_json::push_fields;

/// Returns the line of an entry: `{"id":"1-0","fields":[["name","value"],..]}`. A name or a value that is not
/// UTF-8 is written as `{"base64":"..."}`.
pub fn json_line(alloc: Global, entry: &EntryRef<'_>) -> Result<Vec<u8>, AllocError>
    ensures line { IfOk result (λ line. line.items ≡ print (entry_tokens (pair_of entry.now))) }
    ensures one_line { IfOk result (λ line. AllByRecursion (λ b. b ≢ 10) line.items) }
{
    let mut out = Writer::new(Vec::with_capacity(alloc, 128)?);
    push_entry(alloc, &mut out, entry)?;
    Ok(out.into_inner())
}

/// Writes an entry as an object.
fn push_entry(alloc: Global, out: &mut Writer, entry: &EntryRef<'_>) -> Result<(), AllocError>
    ensures before { out.new.before ≡ out.old.before }
    ensures tokens { OnOk result (out.new.tokens ≡ out.old.tokens ++ entry_tokens (pair_of entry.now)) }
{
    begin(out, entry.id())?;
    push_fields(alloc, out, entry.fields())?;
    out.end_object()
}

/// Writes the beginning of an entry: the id, and the key of the fields.
fn begin(out: &mut Writer, id: &str) -> Result<(), AllocError>
    ensures before { out.new.before ≡ out.old.before }
    ensures tokens { OnOk result (out.new.tokens ≡ out.old.tokens ++ begin_tokens id.now) }
{
    begin_id(out, id)?;
    begin_fields(out)
}

/// Writes the key of the fields.
fn begin_fields(out: &mut Writer) -> Result<(), AllocError>
    ensures before { out.new.before ≡ out.old.before }
    ensures tokens { OnOk result (out.new.tokens ≡ out.old.tokens ++ key (codes "fields") ∷ []) }
{
    out.key("fields")
}

/// Writes the beginning of an object, with the id.
fn begin_id(out: &mut Writer, id: &str) -> Result<(), AllocError>
    ensures before { out.new.before ≡ out.old.before }
    ensures tokens { OnOk result (out.new.tokens
        ≡ out.old.tokens ++ begin_object ∷ key (codes "id") ∷ string id.now ∷ []) }
{
    out.begin_object()?;
    out.key("id")?;
    out.string(id)
}
