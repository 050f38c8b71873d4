//! The options of `XREAD` and `XREADGROUP`.
ghost use Rattle.std.specs.Prelude.{◌≡◌, true, is_none, IfOk};
ghost use Rattle.stream_options.specs.Read.{group_with, default_read, read_sentence};

use crate::options::clause::{FlagClause, ValueClause};
use crate::options::group::Group;
use redis_args::{RedisWrite, ToRedisArgs, WriteError};
use std::alloc::{AllocError, Global};
use std::marker::Model;

/// The options of `XREAD` and, if a group is set, of `XREADGROUP`:
/// `[GROUP g.. c..] [BLOCK n] [COUNT n]`, then only if a group is set `[NOACK] [CLAIM n]`.
///
/// The default has no setting, and writes no argument.
#[derive(Debug, Drop)]
pub struct StreamReadOptions {
    group: Option<Group>,
    block: Option<usize>,
    count: Option<usize>,
    noack: bool,
    claim: Option<usize>,
}

impl Model for StreamReadOptions {
    ghost use Rattle.std.specs.Prelude.{option_map};
    ghost use Rattle.stream_options.specs.GroupMeaning.{group_of};
    ghost use Rattle.stream_options.specs.Read.{Read};

    ghost Value = { Read };

    ghost view = { λ options. record {
      group = option_map group_of options.group;
      block = options.block;
      count = options.count;
      noack = options.noack;
      claim = options.claim;
    } };
}

impl Default for StreamReadOptions {
    ghost is_default = { λ options. options ≡ default_read };

    fn default() -> StreamReadOptions {
        StreamReadOptions {
            group: None,
            block: None,
            count: None,
            noack: false,
            claim: None,
        }
    }
}

impl StreamReadOptions {
    /// Returns whether no group is set: such a read changes nothing on the server.
    pub fn read_only(&self) -> bool
        ensures { result ≡ is_none self.now.group }
    {
        self.group.is_none()
    }

    /// `NOACK`: the entries read need no acknowledgement. It counts only if a group is set.
    pub fn noack(mut self) -> Self
        ensures { result ≡ record self { noack = true } }
    {
        self.noack = true;
        self
    }

    /// `BLOCK`: the read waits for entries for at most `milliseconds`; with 0 it waits forever.
    pub fn block(mut self, milliseconds: usize) -> Self
        ensures { result ≡ record self { block = Some milliseconds } }
    {
        self.block = Some(milliseconds);
        self
    }

    /// `COUNT`: at most `count` entries of each stream are read.
    pub fn count(mut self, count: usize) -> Self
        ensures { result ≡ record self { count = Some count } }
    {
        self.count = Some(count);
        self
    }

    /// `CLAIM`: entries that are idle for `milliseconds` or more are claimed and read first. It counts
    /// only if a group is set.
    pub fn claim(mut self, milliseconds: usize) -> Self
        ensures { result ≡ record self { claim = Some milliseconds } }
    {
        self.claim = Some(milliseconds);
        self
    }

    /// `GROUP`: the streams are read for this consumer of this group. It replaces any earlier group.
    /// All the arguments of each name are kept.
    ///
    /// It fails only if it runs out of memory; the options are then dropped.
    pub fn group<GN: ToRedisArgs + Drop, CN: ToRedisArgs + Drop>(
        mut self,
        alloc: Global,
        group: GN,
        consumer: CN,
    ) -> Result<Self, AllocError>
        ensures { let names = group_with (GN.args group) (CN.args consumer) in
            IfOk result (λ options. options ≡ record self { group = Some names }) }
    {
        self.group = Some(Group::new(alloc, &group, &consumer)?);
        Ok(self)
    }
}

impl ToRedisArgs for StreamReadOptions {
    ghost args = { read_sentence };

    fn write_redis_args<W: RedisWrite>(&self, out: &mut W) -> Result<(), WriteError> {
        let grouped = if self.group.is_some() {
            Some((
                FlagClause("NOACK", self.noack),
                ValueClause("CLAIM", &self.claim),
            ))
        } else {
            None
        };
        (
            &self.group,
            ValueClause("BLOCK", &self.block),
            ValueClause("COUNT", &self.count),
            grouped,
        )
            .write_redis_args(out)
    }
}
