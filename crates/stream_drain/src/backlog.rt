//! The backlog of a group: its lag and its pending entries.
ghost use Rattle.std.specs.Prelude.{◌≡◌};
ghost use Rattle.redis_streams.specs.InfoMeaning.{group_meaning, groups_meaning};
ghost use Rattle.stream_drain.specs.Backlog.{left_in, left_to};

use redis_streams::{StreamInfoGroup, StreamInfoGroupsReply};
use std::fmt;

/// The group whose backlog is shown.
#[derive(Drop)]
pub struct Watched {
    /// The key of the stream.
    pub key: String,
    /// The name of the group.
    pub group: String,
}

/// The backlog of a group.
#[derive(Clone, Copy)]
pub struct Backlog {
    /// The number of entries not delivered yet, the group's `lag`. `None` if the server returns nil.
    lag: Option<usize>,
    /// The number of entries pending for all consumers of the group.
    pending: usize,
}

/// Returns the backlog of the first group called `name` in a reply of `XINFO GROUPS`, or `None` if there is no
/// such group.
pub fn backlog_in(reply: &StreamInfoGroupsReply, name: &str) -> Option<Backlog>
    ensures { result ≡ left_in name.now (groups_meaning reply.now) }
{
    for group in &reply.groups {
        if group.name.as_str() == name {
            return Some(read_backlog(group));
        }
    }
    None
}

/// Returns the backlog of a group in a reply of `XINFO GROUPS`.
fn read_backlog(group: &StreamInfoGroup) -> Backlog
    ensures { result ≡ left_to (group_meaning group.now) }
{
    Backlog {
        lag: group.lag,
        pending: group.pending,
    }
}

impl fmt::Display for Backlog {
    fn fmt<W: fmt::Write>(&self, f: &mut fmt::Formatter<W>) -> fmt::Result {
        let pending = self.pending;
        match self.lag {
            Some(lag) => write!(f, ", {lag} to come, {pending} pending"),
            None => write!(f, ", ? to come, {pending} pending"),
        }
    }
}
