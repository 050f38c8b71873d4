//! Replies on pending entries.
ghost use Rattle.std.specs.Prelude.{◌≡◌, ◌++◌, OnOk, codes, string_bytes};
ghost use Rattle.std.specs.List.{join_by};
ghost use Rattle.test_notation.specs.Pending.{pending_form, pending_of_form, pending_id_form, pending_count_form};

use crate::form::{PrintedForm, print_listed};
use redis_streams::{
    StreamInfoConsumer, StreamPendingCountReply, StreamPendingId, StreamPendingReply,
};
use std::alloc::{AllocError, Global};

/// Appends a consumer's name, an equals sign, and how many entries are pending for it.
fn print_share(consumer: &StreamInfoConsumer, line: &mut String) -> Result<(), AllocError>
    ensures { OnOk result (string_bytes line.new
        ≡ string_bytes line.old ++ pending_of_form consumer.now) }
{
    write!(line, "{}={}", consumer.name, consumer.pending)
}

/// Appends how many entries are pending for each consumer, with a space between each two.
fn print_shares(consumers: &[StreamInfoConsumer], line: &mut String) -> Result<(), AllocError>
    ensures { OnOk result (string_bytes line.new
        ≡ string_bytes line.old ++ join_by pending_of_form (codes " ") consumers.now) }
{
    let Some((first, others)) = consumers.split_first() else {
        return Ok(());
    };
    print_share(first, line)?;
    for other in others {
        line.push_str(" ")?;
        print_share(other, line)?;
    }
    Ok(())
}

/// How many entries are pending, the first and last id, and the consumers; `empty` if none is pending.
impl PrintedForm for StreamPendingReply {
    ghost form = { pending_form };

    fn print(&self, _alloc: Global, line: &mut String) -> Result<(), AllocError> {
        match self {
            StreamPendingReply::Empty => line.push_str("empty"),
            StreamPendingReply::Data(data) => {
                write!(line, "{} {} {} [", data.count, data.start_id, data.end_id)?;
                print_shares(&data.consumers, line)?;
                line.push_str("]")
            }
        }
    }
}

/// The id, the consumer, the milliseconds and the delivery count, with a space between each two.
impl PrintedForm for StreamPendingId {
    ghost form = { pending_id_form };

    fn print(&self, _alloc: Global, line: &mut String) -> Result<(), AllocError> {
        let StreamPendingId {
            id,
            consumer,
            last_delivered_ms,
            times_delivered,
        } = self;
        write!(
            line,
            "{id} {consumer} {last_delivered_ms} {times_delivered}"
        )
    }
}

/// The rows, with a semicolon between each two.
impl PrintedForm for StreamPendingCountReply {
    ghost form = { pending_count_form };

    fn print(&self, alloc: Global, line: &mut String) -> Result<(), AllocError> {
        print_listed(alloc, &self.ids, "; ", line)
    }
}
