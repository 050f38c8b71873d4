//! The replies of the stream commands of Redis that hold entries: ranges, claims, reads and
//! automatic claims. `redis_streams` has them as its module `rows`, beside all other replies, and
//! has their laws.
#![tactic(auto)]

mod autoclaim;
mod claim;
mod claimed;
mod entries;
mod item_form;
mod items;
mod items_left;
mod justid;
mod laws;
mod one_pair;
mod overlap;
mod range;
mod read;
mod read_forms;
mod stream_id;
mod stream_key;
mod streams;

pub use autoclaim::StreamAutoClaimReply;
pub use claim::StreamClaimReply;
pub use justid::StreamAutoClaimJustIdReply;
pub use laws::{copied_forms, equal_read_forms};
pub use range::StreamRangeReply;
pub use read::StreamReadReply;
pub use read_forms::ReadForms;
pub use stream_id::StreamId;
pub use stream_key::StreamKey;
