//! The reply of XINFO STREAM FULL.
ghost use Rattle.std.specs.Prelude.{◌≡◌, ◌++◌, OnOk, string_bytes};
ghost use Rattle.test_notation.specs.InfoFull.{own_field_form, full_entry_form, full_pending_form, own_pending_form, consumer_times_form, full_consumer_form, group_numbers_form, full_group_form, full_numbers_form, full_form, time_form};

use crate::form::{PrintedForm, print_joined};
use crate::replies::rows::print_value;
use redis_resp::Value;
use redis_streams::{
    StreamInfoConsumerPending, StreamInfoFullConsumer, StreamInfoFullEntry, StreamInfoFullGroup,
    StreamInfoFullPending, StreamInfoFullReply,
};
use std::alloc::{AllocError, Global};

/// The name of a field, an equals sign, and the value as a text.
impl PrintedForm for (String, Value) {
    ghost form = { own_field_form };

    fn print(&self, alloc: Global, line: &mut String) -> Result<(), AllocError> {
        write!(line, "{}=", self.0)?;
        print_value(alloc, &self.1, line)
    }
}

/// The id, and the fields in parentheses, as they were added.
impl PrintedForm for StreamInfoFullEntry {
    ghost form = { full_entry_form };

    fn print(&self, alloc: Global, line: &mut String) -> Result<(), AllocError> {
        write!(line, "{}(", self.id)?;
        print_joined(alloc, &self.fields, ",", line)?;
        line.push_str(")")
    }
}

/// The id, the consumer, the delivery time and the delivery count, with a space between each two.
impl PrintedForm for StreamInfoFullPending {
    ghost form = { full_pending_form };

    fn print(&self, _alloc: Global, line: &mut String) -> Result<(), AllocError> {
        write!(
            line,
            "{} {} {} {}",
            self.id, self.consumer, self.delivery_time, self.times_delivered
        )
    }
}

/// The id, the delivery time and the delivery count, with a space between each two.
impl PrintedForm for StreamInfoConsumerPending {
    ghost form = { own_pending_form };

    fn print(&self, _alloc: Global, line: &mut String) -> Result<(), AllocError> {
        write!(
            line,
            "{} {} {}",
            self.id, self.delivery_time, self.times_delivered
        )
    }
}

/// A time is printed in decimal with its sign, and `None` as `none`.
impl PrintedForm for Option<i64> {
    ghost form = { time_form };

    fn print(&self, _alloc: Global, line: &mut String) -> Result<(), AllocError> {
        match self {
            Some(time) => write!(line, "{time}"),
            None => line.push_str("none"),
        }
    }
}

/// Appends when the consumer was last seen and last active, and how many entries are pending for it.
#[tactic(auto, unfolding(crate::specs::InfoFull::consumer_times_form))]
fn print_times(
    alloc: Global,
    consumer: &StreamInfoFullConsumer,
    line: &mut String,
) -> Result<(), AllocError>
    ensures { OnOk result (string_bytes line.new
        ≡ string_bytes line.old ++ consumer_times_form consumer.now) }
{
    write!(
        line,
        "{} seen={} active=",
        consumer.name, consumer.seen_time
    )?;
    consumer.active_time.print(alloc, line)?;
    write!(line, " count={}", consumer.pending_count)
}

/// The consumer and its numbers, and its pending entries in brackets.
impl PrintedForm for StreamInfoFullConsumer {
    ghost form = { full_consumer_form };

    fn print(&self, alloc: Global, line: &mut String) -> Result<(), AllocError> {
        print_times(alloc, self, line)?;
        line.push_str(" pending=[")?;
        print_joined(alloc, &self.pending, "; ", line)?;
        line.push_str("]")
    }
}

/// Appends the name of the group, its last delivered id, read count and lag, and its count of pending entries.
#[tactic(auto, unfolding(crate::specs::InfoFull::group_numbers_form))]
fn print_numbers(
    alloc: Global,
    group: &StreamInfoFullGroup,
    line: &mut String,
) -> Result<(), AllocError>
    ensures { OnOk result (string_bytes line.new
        ≡ string_bytes line.old ++ group_numbers_form group.now) }
{
    write!(
        line,
        "{} last={} read=",
        group.name, group.last_delivered_id
    )?;
    group.entries_read.print(alloc, line)?;
    line.push_str(" lag=")?;
    group.lag.print(alloc, line)?;
    write!(line, " count={}", group.pending_count)
}

/// The group and its numbers, and in brackets its pending entries and its consumers.
impl PrintedForm for StreamInfoFullGroup {
    ghost form = { full_group_form };

    fn print(&self, alloc: Global, line: &mut String) -> Result<(), AllocError> {
        print_numbers(alloc, self, line)?;
        line.push_str(" pending=[")?;
        print_joined(alloc, &self.pending, "; ", line)?;
        line.push_str("] consumers=[")?;
        print_joined(alloc, &self.consumers, "; ", line)?;
        line.push_str("]")
    }
}

/// Appends the numbers and the ids of the stream.
#[tactic(auto, unfolding(crate::specs::InfoFull::full_numbers_form))]
fn print_stream(
    alloc: Global,
    stream: &StreamInfoFullReply,
    line: &mut String,
) -> Result<(), AllocError>
    ensures { OnOk result (string_bytes line.new
        ≡ string_bytes line.old ++ full_numbers_form stream.now) }
{
    let StreamInfoFullReply {
        length,
        radix_tree_keys: keys,
        radix_tree_nodes: nodes,
        last_generated_id: last,
        max_deleted_entry_id: deleted,
        ..
    } = stream;
    write!(
        line,
        "length={length} keys={keys} nodes={nodes} last={last} deleted={deleted} added="
    )?;
    stream.entries_added.print(alloc, line)?;
    write!(line, " recorded={}", stream.recorded_first_entry_id)
}

/// The stream, and in brackets its entries, with a space between each two, and its groups, with a
/// semicolon between each two.
impl PrintedForm for StreamInfoFullReply {
    ghost form = { full_form };

    fn print(&self, alloc: Global, line: &mut String) -> Result<(), AllocError> {
        print_stream(alloc, self, line)?;
        line.push_str(" entries=[")?;
        print_joined(alloc, &self.entries, " ", line)?;
        line.push_str("] groups=[")?;
        print_joined(alloc, &self.groups, "; ", line)?;
        line.push_str("]")
    }
}
