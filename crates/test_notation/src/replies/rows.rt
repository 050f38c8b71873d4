//! Replies that hold entries.
ghost use Rattle.test_notation.specs.Rows.{range_form, claim_form, key_form, read_form, autoclaim_form};

mod stream_id;

use crate::form::{PrintedForm, print_joined, print_listed};
use redis_streams::{
    StreamAutoClaimReply, StreamClaimReply, StreamKey, StreamRangeReply, StreamReadReply,
};
use std::alloc::{AllocError, Global};
pub(crate) use stream_id::print_value;

/// The entries, with a space between each two.
impl PrintedForm for StreamRangeReply {
    ghost form = { range_form };

    fn print(&self, alloc: Global, line: &mut String) -> Result<(), AllocError> {
        print_listed(alloc, &self.ids, " ", line)
    }
}

/// The entries, with a space between each two.
impl PrintedForm for StreamClaimReply {
    ghost form = { claim_form };

    fn print(&self, alloc: Global, line: &mut String) -> Result<(), AllocError> {
        print_listed(alloc, &self.ids, " ", line)
    }
}

/// The key, and its entries in brackets.
impl PrintedForm for StreamKey {
    ghost form = { key_form };

    fn print(&self, alloc: Global, line: &mut String) -> Result<(), AllocError> {
        write!(line, "{}[", self.key)?;
        print_joined(alloc, &self.ids, " ", line)?;
        line.push_str("]")
    }
}

/// The keys, with a space between each two.
impl PrintedForm for StreamReadReply {
    ghost form = { read_form };

    fn print(&self, alloc: Global, line: &mut String) -> Result<(), AllocError> {
        print_listed(alloc, &self.keys, " ", line)
    }
}

/// The next id, the entries and the deleted ids in brackets, and whether there were invalid entries.
impl PrintedForm for StreamAutoClaimReply {
    ghost form = { autoclaim_form };

    fn print(&self, alloc: Global, line: &mut String) -> Result<(), AllocError> {
        write!(line, "next={} claimed=[", self.next_stream_id)?;
        print_joined(alloc, &self.claimed, " ", line)?;
        line.push_str("] deleted=[")?;
        print_joined(alloc, &self.deleted_ids, " ", line)?;
        write!(line, "] invalid={}", self.invalid_entries)
    }
}
