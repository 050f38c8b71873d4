//! The replies of XINFO on a stream, its groups and their consumers.
ghost use Rattle.std.specs.Prelude.{◌≡◌, ◌++◌, OnOk, string_bytes};
ghost use Rattle.test_notation.specs.Info.{stream_form, idempotency_form, consumer_form, consumers_form, group_form, groups_form, progress_form, ends_form};

use crate::form::{PrintedForm, print_listed};
use redis_streams::{
    StreamInfoConsumer, StreamInfoConsumersReply, StreamInfoGroup, StreamInfoGroupsReply,
    StreamInfoStreamReply, StreamInfoStreamReplyWithIdempotency,
};
use std::alloc::{AllocError, Global};

/// The numbers of the stream, and its first and last entry.
impl PrintedForm for StreamInfoStreamReply {
    ghost form = { stream_form };

    #[tactic(auto, unfolding(crate::specs::Info::stream_form))]
    fn print(&self, alloc: Global, line: &mut String) -> Result<(), AllocError> {
        let StreamInfoStreamReply {
            last_generated_id: last,
            radix_tree_keys: keys,
            radix_tree_nodes: nodes,
            groups,
            length,
            ..
        } = self;
        write!(
            line,
            "last={last} keys={keys} nodes={nodes} groups={groups} length={length}"
        )?;
        print_ends(alloc, self, line)
    }
}

/// Appends the first and the last entry of the stream.
#[tactic(auto, unfolding(crate::specs::Info::ends_form))]
fn print_ends(
    alloc: Global,
    stream: &StreamInfoStreamReply,
    line: &mut String,
) -> Result<(), AllocError>
    ensures { OnOk result (string_bytes line.new ≡ string_bytes line.old ++ ends_form stream.now) }
{
    line.push_str(" first=")?;
    stream.first_entry.print(alloc, line)?;
    line.push_str(" final=")?;
    stream.last_entry.print(alloc, line)
}

/// The form of `StreamInfoStreamReply`, and after it the numbers on idempotent producers.
impl PrintedForm for StreamInfoStreamReplyWithIdempotency {
    ghost form = { idempotency_form };

    fn print(&self, alloc: Global, line: &mut String) -> Result<(), AllocError> {
        self.base.print(alloc, line)?;
        write!(
            line,
            " duration={} maxsize={} pids={} tracked={} added={} duplicates={}",
            self.idmp_duration,
            self.idmp_maxsize,
            self.pids_tracked,
            self.iids_tracked,
            self.iids_added,
            self.iids_duplicates
        )
    }
}

/// The name, how many entries are pending, and for how long the consumer has been idle.
impl PrintedForm for StreamInfoConsumer {
    ghost form = { consumer_form };

    fn print(&self, _alloc: Global, line: &mut String) -> Result<(), AllocError> {
        write!(
            line,
            "{} pending={} idle={}",
            self.name, self.pending, self.idle
        )
    }
}

/// The consumers, with a semicolon between each two.
impl PrintedForm for StreamInfoConsumersReply {
    ghost form = { consumers_form };

    fn print(&self, alloc: Global, line: &mut String) -> Result<(), AllocError> {
        print_listed(alloc, &self.consumers, "; ", line)
    }
}

/// The name and the numbers of the group, `none` for those that are not known.
impl PrintedForm for StreamInfoGroup {
    ghost form = { group_form };

    fn print(&self, alloc: Global, line: &mut String) -> Result<(), AllocError> {
        let StreamInfoGroup {
            name,
            consumers,
            pending,
            last_delivered_id: last,
            ..
        } = self;
        write!(
            line,
            "{name} consumers={consumers} pending={pending} last={last}"
        )?;
        print_progress(alloc, self, line)
    }
}

/// Appends how many entries the group has read, and how many it has still to read.
fn print_progress(
    alloc: Global,
    group: &StreamInfoGroup,
    line: &mut String,
) -> Result<(), AllocError>
    ensures { OnOk result (string_bytes line.new
        ≡ string_bytes line.old ++ progress_form group.now) }
{
    line.push_str(" read=")?;
    group.entries_read.print(alloc, line)?;
    line.push_str(" lag=")?;
    group.lag.print(alloc, line)
}

/// The groups, with a semicolon between each two.
impl PrintedForm for StreamInfoGroupsReply {
    ghost form = { groups_form };

    fn print(&self, alloc: Global, line: &mut String) -> Result<(), AllocError> {
        print_listed(alloc, &self.groups, "; ", line)
    }
}
