//! The figures of streams as a JSON document.
ghost use Rattle.std.specs.Prelude.{◌≡◌, ◌++◌, ◌∷◌, [], IfOk, OnOk, flat_map};
ghost use Rattle.json.specs.Print.{print};
ghost use Rattle.json.specs.Token.{key, null};
ghost use Rattle.stream_top.specs.Json.{backlog_tokens, begin_list_tokens, begin_tokens, consumer_tokens};
ghost use Rattle.stream_top.specs.Json.{consumers_tokens, count_member, document_tokens, end_list_tokens};
ghost use Rattle.stream_top.specs.Json.{group_tokens, groups_tokens, id_member, maybe_member, presence_tokens};
ghost use Rattle.stream_top.specs.Json.{stream_tokens, text_member};

use crate::figures::{ConsumerFigures, GroupFigures, StreamFigures};
use json::Writer;
use std::alloc::{AllocError, Global};

/// Returns the document `{"streams":[..]}`.
pub fn json_text(alloc: Global, streams: &[StreamFigures]) -> Result<Vec<u8>, AllocError>
    ensures { IfOk result (λ text. text.items ≡ print (document_tokens streams.now)) }
{
    let mut out = Writer::new(Vec::with_capacity(alloc, 1024)?);
    push_document(&mut out, streams)?;
    Ok(out.into_inner())
}

/// Appends the object of all streams.
fn push_document(out: &mut Writer, streams: &[StreamFigures]) -> Result<(), AllocError>
    ensures before { out.new.before ≡ out.old.before }
    ensures tokens { OnOk result (out.new.tokens ≡ out.old.tokens ++ document_tokens streams.now) }
{
    out.begin_object()?;
    begin_list(out, "streams")?;
    push_streams(out, streams)?;
    end_list(out)
}

/// Appends the streams, in order.
fn push_streams(out: &mut Writer, streams: &[StreamFigures]) -> Result<(), AllocError>
    ensures before { out.new.before ≡ out.old.before }
    ensures tokens { OnOk result (out.new.tokens ≡ out.old.tokens ++ flat_map stream_tokens streams.now) }
{
    for stream in streams {
        push_stream(out, stream)?;
    }
    Ok(())
}

/// Appends a stream as an object.
#[tactic(auto, unfolding(crate::specs::Json::stream_tokens))]
fn push_stream(out: &mut Writer, stream: &StreamFigures) -> Result<(), AllocError>
    ensures before { out.new.before ≡ out.old.before }
    ensures tokens { OnOk result (out.new.tokens ≡ out.old.tokens ++ stream_tokens stream.now) }
{
    begin(out, "key", &stream.key)?;
    push_count(out, "length", stream.length)?;
    push_id(out, "last_generated_id", &stream.last_id)?;
    push_group_list(out, &stream.groups)
}

/// Appends the groups of a stream as its last member, and ends the stream's object.
#[tactic(auto, unfolding(crate::specs::Json::groups_tokens))]
fn push_group_list(out: &mut Writer, groups: &[GroupFigures]) -> Result<(), AllocError>
    ensures before { out.new.before ≡ out.old.before }
    ensures tokens { OnOk result (out.new.tokens ≡ out.old.tokens ++ groups_tokens groups.now) }
{
    begin_list(out, "groups")?;
    push_groups(out, groups)?;
    end_list(out)
}

/// Appends the groups, in order.
fn push_groups(out: &mut Writer, groups: &[GroupFigures]) -> Result<(), AllocError>
    ensures before { out.new.before ≡ out.old.before }
    ensures tokens { OnOk result (out.new.tokens ≡ out.old.tokens ++ flat_map group_tokens groups.now) }
{
    for group in groups {
        push_group(out, group)?;
    }
    Ok(())
}

/// Appends a group as an object.
#[tactic(auto, unfolding(crate::specs::Json::group_tokens))]
fn push_group(out: &mut Writer, group: &GroupFigures) -> Result<(), AllocError>
    ensures before { out.new.before ≡ out.old.before }
    ensures tokens { OnOk result (out.new.tokens ≡ out.old.tokens ++ group_tokens group.now) }
{
    begin(out, "name", &group.name)?;
    push_backlog(out, group)?;
    push_consumer_list(out, &group.consumers)
}

/// Appends the consumers of a group as its last member, and ends the group's object.
#[tactic(auto, unfolding(crate::specs::Json::consumers_tokens))]
fn push_consumer_list(out: &mut Writer, consumers: &[ConsumerFigures]) -> Result<(), AllocError>
    ensures before { out.new.before ≡ out.old.before }
    ensures tokens { OnOk result (out.new.tokens ≡ out.old.tokens ++ consumers_tokens consumers.now) }
{
    begin_list(out, "consumers")?;
    push_consumers(out, consumers)?;
    end_list(out)
}

/// Appends the members of a group between its name and its consumers.
fn push_backlog(out: &mut Writer, group: &GroupFigures) -> Result<(), AllocError>
    ensures before { out.new.before ≡ out.old.before }
    ensures tokens { OnOk result (out.new.tokens ≡ out.old.tokens ++ backlog_tokens group.now) }
{
    push_maybe(out, "lag", group.lag)?;
    push_count(out, "pending", group.pending)?;
    push_id(out, "last_delivered_id", &group.last_id)?;
    push_maybe(out, "oldest_pending_milliseconds", group.oldest_pending)?;
    push_count(out, "max_deliveries", group.deliveries)
}

/// Appends the consumers, in order.
fn push_consumers(out: &mut Writer, consumers: &[ConsumerFigures]) -> Result<(), AllocError>
    ensures before { out.new.before ≡ out.old.before }
    ensures tokens { OnOk result (out.new.tokens
        ≡ out.old.tokens ++ flat_map consumer_tokens consumers.now) }
{
    for consumer in consumers {
        push_consumer(out, consumer)?;
    }
    Ok(())
}

/// Appends a consumer as an object.
#[tactic(auto, unfolding(crate::specs::Json::consumer_tokens))]
fn push_consumer(out: &mut Writer, consumer: &ConsumerFigures) -> Result<(), AllocError>
    ensures before { out.new.before ≡ out.old.before }
    ensures tokens { OnOk result (out.new.tokens ≡ out.old.tokens ++ consumer_tokens consumer.now) }
{
    begin(out, "name", &consumer.name)?;
    push_presence(out, consumer)?;
    out.end_object()
}

/// Appends the members of a consumer that are numbers.
#[tactic(auto, unfolding(crate::specs::Json::presence_tokens))]
fn push_presence(out: &mut Writer, consumer: &ConsumerFigures) -> Result<(), AllocError>
    ensures before { out.new.before ≡ out.old.before }
    ensures tokens { OnOk result (out.new.tokens ≡ out.old.tokens ++ presence_tokens consumer.now) }
{
    push_count(out, "pending", consumer.pending)?;
    push_count(out, "idle_milliseconds", consumer.idle)
}

/// Begins an object, and appends its first member, whose value is a text.
#[tactic(auto, unfolding(crate::specs::Json::begin_tokens))]
fn begin(out: &mut Writer, name: &str, text: &str) -> Result<(), AllocError>
    ensures before { out.new.before ≡ out.old.before }
    ensures tokens { OnOk result (out.new.tokens ≡ out.old.tokens ++ begin_tokens name.now text.now) }
{
    out.begin_object()?;
    push_text(out, name, text)
}

/// Begins a member whose value is an array.
#[tactic(auto, unfolding(crate::specs::Json::begin_list_tokens))]
fn begin_list(out: &mut Writer, name: &str) -> Result<(), AllocError>
    ensures before { out.new.before ≡ out.old.before }
    ensures tokens { OnOk result (out.new.tokens ≡ out.old.tokens ++ begin_list_tokens name.now) }
{
    out.key(name)?;
    out.begin_array()
}

/// Ends an array, and the object whose last member it is.
#[tactic(auto, unfolding(crate::specs::Json::end_list_tokens))]
fn end_list(out: &mut Writer) -> Result<(), AllocError>
    ensures before { out.new.before ≡ out.old.before }
    ensures tokens { OnOk result (out.new.tokens ≡ out.old.tokens ++ end_list_tokens) }
{
    out.end_array()?;
    out.end_object()
}

/// Appends a member whose value is a text.
#[tactic(auto, unfolding(crate::specs::Json::text_member))]
fn push_text(out: &mut Writer, name: &str, text: &str) -> Result<(), AllocError>
    ensures before { out.new.before ≡ out.old.before }
    ensures tokens { OnOk result (out.new.tokens ≡ out.old.tokens ++ text_member name.now text.now) }
{
    out.key(name)?;
    out.string(text)
}

/// Appends a member whose value is a number.
#[tactic(auto, unfolding(crate::specs::Json::count_member))]
fn push_count(out: &mut Writer, name: &str, count: usize) -> Result<(), AllocError>
    ensures before { out.new.before ≡ out.old.before }
    ensures tokens { OnOk result (out.new.tokens ≡ out.old.tokens ++ count_member name.now count) }
{
    out.key(name)?;
    out.u64(count as u64)
}

/// Appends a member whose value is a number, or null.
fn push_maybe(out: &mut Writer, name: &str, count: Option<usize>) -> Result<(), AllocError>
    ensures before { out.new.before ≡ out.old.before }
    ensures tokens { OnOk result (out.new.tokens ≡ out.old.tokens ++ maybe_member name.now count) }
{
    match count {
        Some(count) => push_count(out, name, count),
        None => push_null(out, name),
    }
}

/// Appends a member whose value is an id, or null if the id is empty.
fn push_id(out: &mut Writer, name: &str, id: &str) -> Result<(), AllocError>
    ensures before { out.new.before ≡ out.old.before }
    ensures tokens { OnOk result (out.new.tokens ≡ out.old.tokens ++ id_member name.now id.now) }
{
    if id.is_empty() {
        push_null(out, name)
    } else {
        push_text(out, name, id)
    }
}

/// Appends a member whose value is null.
fn push_null(out: &mut Writer, name: &str) -> Result<(), AllocError>
    ensures before { out.new.before ≡ out.old.before }
    ensures tokens { OnOk result (out.new.tokens ≡ out.old.tokens ++ key name.now ∷ null ∷ []) }
{
    out.key(name)?;
    out.null()
}
