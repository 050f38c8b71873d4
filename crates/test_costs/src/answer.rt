//! The reply that is read: one stream, whose entries have an id of 15 to 21 bytes and four fields.
ghost use Rattle.std.specs.Prelude.{◌≡◌, ◌++◌, IfOk, string_bytes};
ghost use Rattle.test_costs.specs.Answer.{text_bytes, field_bytes, count_bytes, id_of, id_text, order_bytes};
ghost use Rattle.test_costs.specs.Answer.{goods_bytes, fields_bytes, entry_bytes, form_bytes, head_bytes};
ghost use Rattle.test_costs.specs.Answer.{answer_bytes};

use std::alloc::{AllocError, Global};

/// The form of the reply.
#[derive(Clone, Copy)]
pub enum Form {
    /// An array of streams, as in RESP2.
    Array,
    /// A map of streams, as in RESP3.
    Map,
}

/// Returns the bytes of a reply with `entries` entries.
#[tactic(auto, using(crate::proofs::AnswerLemmas::none_yet))]
pub fn made(alloc: Global, entries: u32, form: Form) -> Result<Vec<u8>, AllocError>
    ensures { IfOk result (λ bytes. bytes.items ≡ answer_bytes form entries) }
{
    let mut bytes = Vec::new(alloc);
    push_head(alloc, &mut bytes, entries, form)?;
    for index in 0..entries {
        push_entry(alloc, &mut bytes, index)?;
    }
    Ok(bytes)
}

/// Appends the bytes that precede the entries.
fn push_head(alloc: Global, bytes: &mut Vec<u8>, entries: u32, form: Form) -> Result<(), AllocError>
    ensures { IfOk result (λ _. bytes.new.items ≡ bytes.old.items ++ head_bytes form entries) }
{
    push_form(bytes, form)?;
    push_text(alloc, bytes, "orders")?;
    push_count(alloc, bytes, entries)
}

/// Appends the header of an array of `count` members.
#[tactic(auto, unfolding(crate::specs::Answer::count_bytes))]
fn push_count(alloc: Global, bytes: &mut Vec<u8>, count: u32) -> Result<(), AllocError>
    ensures { IfOk result (λ _. bytes.new.items ≡ bytes.old.items ++ count_bytes count) }
{
    let head = format!(in alloc; "*{count}\r\n")?;
    bytes.extend_from_slice(head.as_bytes())
}

/// Appends the bytes that precede the name of the stream.
fn push_form(bytes: &mut Vec<u8>, form: Form) -> Result<(), AllocError>
    ensures { IfOk result (λ _. bytes.new.items ≡ bytes.old.items ++ form_bytes form) }
{
    match form {
        Form::Array => bytes.extend_from_slice(b"*1\r\n*2\r\n"),
        Form::Map => bytes.extend_from_slice(b"%1\r\n"),
    }
}

/// Appends a bulk string.
#[tactic(auto, unfolding(crate::specs::Answer::text_bytes))]
fn push_text(alloc: Global, bytes: &mut Vec<u8>, text: &str) -> Result<(), AllocError>
    ensures { IfOk result (λ _. bytes.new.items ≡ bytes.old.items ++ text_bytes text.now) }
{
    let whole = format!(in alloc; "${}\r\n{text}\r\n", text.len())?;
    bytes.extend_from_slice(whole.as_bytes())
}

fn push_entry(alloc: Global, bytes: &mut Vec<u8>, index: u32) -> Result<(), AllocError>
    ensures { IfOk result (λ _. bytes.new.items ≡ bytes.old.items ++ entry_bytes index) }
{
    push_count(alloc, bytes, 2)?;
    push_id(alloc, bytes, index)?;
    push_count(alloc, bytes, 8)?;
    push_fields(alloc, bytes, index)
}

fn push_id(alloc: Global, bytes: &mut Vec<u8>, index: u32) -> Result<(), AllocError>
    ensures { IfOk result (λ _. bytes.new.items ≡ bytes.old.items ++ text_bytes (id_text index)) }
{
    let id = id_of(alloc, index % 1000, index)?;
    push_text(alloc, bytes, &id)
}

#[tactic(auto, unfolding(crate::specs::Answer::id_of))]
fn id_of(alloc: Global, thousandth: u32, index: u32) -> Result<String, AllocError>
    ensures { IfOk result (λ id. string_bytes id ≡ id_of thousandth index) }
{
    format!(in alloc; "1700000000{thousandth:03}-{index}")
}

fn push_fields(alloc: Global, bytes: &mut Vec<u8>, index: u32) -> Result<(), AllocError>
    ensures { IfOk result (λ _. bytes.new.items ≡ bytes.old.items ++ fields_bytes index) }
{
    push_order(alloc, bytes, index)?;
    push_goods(alloc, bytes, index)
}

fn push_order(alloc: Global, bytes: &mut Vec<u8>, index: u32) -> Result<(), AllocError>
    ensures { IfOk result (λ _. bytes.new.items ≡ bytes.old.items ++ order_bytes index) }
{
    let order = format!(in alloc; "order-{index}")?;
    push_field(alloc, bytes, "order", &order)?;
    let customer = format!(in alloc; "cust-{}", index % 1000)?;
    push_field(alloc, bytes, "customer", &customer)
}

fn push_goods(alloc: Global, bytes: &mut Vec<u8>, index: u32) -> Result<(), AllocError>
    ensures { IfOk result (λ _. bytes.new.items ≡ bytes.old.items ++ goods_bytes index) }
{
    let quantity = format!(in alloc; "{}", index % 50)?;
    push_field(alloc, bytes, "quantity", &quantity)?;
    let note = format!(in alloc; "a text of {}", index % 9)?;
    push_field(alloc, bytes, "note", &note)
}

fn push_field(alloc: Global, bytes: &mut Vec<u8>, name: &str, value: &str) -> Result<(), AllocError>
    ensures { IfOk result (λ _. bytes.new.items ≡ bytes.old.items ++ field_bytes name.now value.now) }
{
    push_text(alloc, bytes, name)?;
    push_text(alloc, bytes, value)
}
