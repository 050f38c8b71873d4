//! The line of an entry.
ghost use Rattle.std.specs.Prelude.{◌≡◌, ◌≢◌, ◌++◌, ◌∷◌, [], IfOk, OnOk, codes};
ghost use Rattle.std.specs.List.{AllByRecursion};
ghost use Rattle.json.specs.Token.{begin_object, key, string};
ghost use Rattle.worker_jobs.specs.LineOf.{head_tokens, line_of, line_tokens, stream_tokens};
ghost use Rattle.worker.specs.Handling.{pair_of};

use json::Writer;
use std::alloc::{AllocError, Global};
use worker::EntryRef;
use worker::entry_json::push_fields;

/// Returns the line of an entry of `stream`, without the line end:
/// `{"id":"1-0","fields":[["name","value"],..],"stream":"orders"}`.
pub fn entry_line(alloc: Global, stream: &str, entry: &EntryRef<'_>) -> Result<Vec<u8>, AllocError>
    ensures line { IfOk result (λ line. line.items ≡ line_of stream.now (pair_of entry.now)) }
    ensures one_line { IfOk result (λ line. AllByRecursion (λ b. b ≢ 10) line.items) }
{
    let mut out = Writer::new(Vec::with_capacity(alloc, 128)?);
    push_entry(alloc, &mut out, stream, entry)?;
    Ok(out.into_inner())
}

/// Writes an entry as an object.
fn push_entry(
    alloc: Global,
    out: &mut Writer,
    stream: &str,
    entry: &EntryRef<'_>,
) -> Result<(), AllocError>
    ensures before { out.new.before ≡ out.old.before }
    ensures tokens { OnOk result (out.new.tokens ≡ out.old.tokens ++ line_tokens stream.now (pair_of entry.now)) }
{
    begin(out, entry.id())?;
    push_fields(alloc, out, entry.fields())?;
    end(out, stream)
}

/// Writes the part before the fields.
fn begin(out: &mut Writer, id: &str) -> Result<(), AllocError>
    ensures before { out.new.before ≡ out.old.before }
    ensures tokens { OnOk result (out.new.tokens ≡ out.old.tokens ++ head_tokens id.now) }
{
    begin_id(out, id)?;
    out.key("fields")
}

/// Writes the beginning of an object, with the id.
fn begin_id(out: &mut Writer, id: &str) -> Result<(), AllocError>
    ensures before { out.new.before ≡ out.old.before }
    ensures tokens { OnOk result (out.new.tokens
        ≡ out.old.tokens ++ begin_object ∷ key (codes "id") ∷ string id.now ∷ []) }
{
    out.begin_object()?;
    push_text(out, "id", id)
}

/// Writes the part after the fields.
fn end(out: &mut Writer, stream: &str) -> Result<(), AllocError>
    ensures before { out.new.before ≡ out.old.before }
    ensures tokens { OnOk result (out.new.tokens ≡ out.old.tokens ++ stream_tokens stream.now) }
{
    push_text(out, "stream", stream)?;
    out.end_object()
}

/// Writes the member `name` with the string `text`.
fn push_text(out: &mut Writer, name: &str, text: &str) -> Result<(), AllocError>
    ensures before { out.new.before ≡ out.old.before }
    ensures tokens { OnOk result (out.new.tokens ≡ out.old.tokens ++ key name.now ∷ string text.now ∷ []) }
{
    out.key(name)?;
    out.string(text)
}
