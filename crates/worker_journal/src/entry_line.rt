//! An entry as a line of text.
ghost use Rattle.std.specs.Prelude.{◌≡◌, ◌∷◌, ◌++◌, [], IfOk, OnOk, OnErr, length, map, option_map, take};
ghost use Rattle.worker_journal.specs.EntryLine.{IsEntryIn, field_text, line_of};
ghost use Rattle.worker_journal.specs.EntryLineMeaning.{entry_of, field_of};
ghost use Rattle.worker_journal.specs.Escape.{byte_of, escaped};
ghost use Rattle.worker_journal.specs.LineTexts.{bytes_of, entry_of_list, one_more, texts_now, texts_of};

use crate::escape::push_escaped;
use std::alloc::{AllocError, Global};
use std::mem;

/// An entry that was read from a line.
#[derive(Debug, Drop)]
pub struct LineEntry {
    /// The id.
    pub id: Vec<u8>,
    /// The names and values of its fields, in order and with repeated ones.
    pub fields: Vec<(Vec<u8>, Vec<u8>)>,
}

/// Returns the entry of a line without its line feed, or `None` if the line is not that of an entry. Fails only
/// if memory runs out.
pub fn entry_in(alloc: Global, line: &[u8]) -> Result<Option<LineEntry>, AllocError>
    ensures { IfOk result (λ o. IsEntryIn line.now (option_map entry_of o)) }
{
    let texts = split_line(alloc, line)?;
    let Some(entry) = make_entry(alloc, texts)? else {
        return Ok(None);
    };
    let mut written = Vec::with_capacity(alloc, line.len())?;
    push_entry(&mut written, &entry)?;
    if written.as_slice() == line {
        Ok(Some(entry))
    } else {
        Ok(None)
    }
}

/// Appends the line of an entry. After an `Err`, `out` may end with a part of it.
fn push_entry(out: &mut Vec<u8>, entry: &LineEntry) -> Result<(), AllocError>
    ensures { OnOk result (out.new.items ≡ out.old.items ++ line_of (entry_of entry.now)) }
{
    push_escaped(out, &entry.id)?;
    for (name, value) in &entry.fields {
        push_field(out, name, value)?;
    }
    Ok(())
}

/// Returns the texts of a line, which tabs separate, without their escapes.
fn split_line(alloc: Global, line: &[u8]) -> Result<Vec<Vec<u8>>, AllocError>
    ensures { IfOk result (λ texts. bytes_of texts.items ≡ texts_of line.now) }
{
    let mut texts = Vec::new(alloc);
    let mut text = Vec::new(alloc);
    let mut escapes = false;
    for byte in line {
        escapes = take_byte(alloc, &mut texts, &mut text, escapes, *byte)?;
    }
    texts.push(text)?;
    Ok(texts)
}

/// Takes a byte of a line, and returns whether it escapes the next byte.
fn take_byte(
    alloc: Global,
    texts: &mut Vec<Vec<u8>>,
    text: &mut Vec<u8>,
    escapes: bool,
    byte: u8,
) -> Result<bool, AllocError>
    ensures { IfOk result (λ now. texts_now texts.new text.new now
        ≡ one_more (texts_now texts.old text.old escapes) byte) }
{
    if escapes {
        text.push(unescape_byte(byte))?;
        return Ok(false);
    }
    match byte {
        b'\\' => return Ok(true),
        b'\t' => texts.push(mem::replace(text, Vec::new(alloc)))?,
        _ => text.push(byte)?,
    }
    Ok(false)
}

/// Returns the byte of an escape, by the byte after its backslash.
fn unescape_byte(byte: u8) -> u8
    ensures { result ≡ byte_of byte }
{
    match byte {
        b't' => b'\t',
        b'n' => b'\n',
        b'r' => b'\r',
        _ => byte,
    }
}

/// Returns the entry of these texts: an id, and names and values by turns. Returns `None` if the last name has
/// no value.
fn make_entry(alloc: Global, texts: Vec<Vec<u8>>) -> Result<Option<LineEntry>, AllocError>
    ensures { IfOk result (λ o. option_map entry_of o ≡ entry_of_list (bytes_of texts.items)) }
{
    let mut rest = texts.into_iter();
    let Some(id) = rest.next() else {
        return Ok(None);
    };
    let mut fields = Vec::new(alloc);
    while let Some(name) = rest.next() {
        let Some(value) = rest.next() else {
            return Ok(None);
        };
        fields.push((name, value))?;
    }
    Ok(Some(LineEntry { id, fields }))
}

/// Appends a field of the line of an entry: a tab, the name, a tab and the value. After an `Err`, `out` may end
/// with a part of it.
pub fn push_field(out: &mut Vec<u8>, name: &[u8], value: &[u8]) -> Result<(), AllocError>
    ensures ok { OnOk result (out.new.items ≡ out.old.items ++ field_text (name.now, value.now)) }
    ensures err { OnErr result (take (length out.old.items) out.new.items ≡ out.old.items) }
{
    push_after_tab(out, name)?;
    push_after_tab(out, value)
}

/// Appends a text after a tab. After an `Err`, `out` may end with a part of it.
fn push_after_tab(out: &mut Vec<u8>, text: &[u8]) -> Result<(), AllocError>
    ensures ok { OnOk result (out.new.items ≡ out.old.items ++ (9 ∷ escaped text.now)) }
    ensures err { OnErr result (take (length out.old.items) out.new.items ≡ out.old.items) }
{
    out.push(b'\t')?;
    push_escaped(out, text)
}
