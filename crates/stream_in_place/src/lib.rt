//! The entries of streams, read in place in the bytes of a reply. Nothing is copied, and the
//! tables of places keep their memory for the next reply.
#![tactic(auto)]

mod autoclaim;
mod claim_outcome;
mod depth;
mod entry;
mod entry_list;
mod field_value;
mod fields;
mod find;
mod form;
mod id_parts;
mod ids;
mod kept;
mod laid;
mod outcome;
mod places;
mod rows;
mod sent;
mod short;
mod stream_list;
mod streams;
mod tables;
mod tape;

pub use autoclaim::{AutoClaimJustIdRef, AutoClaimRef, find_autoclaim, find_justid};
pub use claim_outcome::{AutoClaimOutcome, JustIdOutcome, read_any_autoclaim, read_any_justid};
pub use entry::{Delivery, EntryRef};
pub use entry_list::{EntriesRef, RangeRef};
pub use field_value::FieldError;
pub use fields::FieldsRef;
pub use find::{find_claimed_streams, find_range, find_streams};
pub use id_parts::StreamIdParts;
pub use ids::IdsRef;
pub use laid::EntryRoom;
pub use outcome::{RangeOutcome, ReadOutcome, read_any_range, read_any_streams};
pub use places::{AutoClaimPlace, EntryPlace, FieldPlace, Places, StreamPlace};
pub use sent::{OctetPairs, Octets, SentClaim, SentRow};
pub use stream_list::{ReadRef, StreamRef, StreamsRef};
pub use tables::{EntryTables, Full};
pub use tape::EntryTape;
