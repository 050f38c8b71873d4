//! Replies with entries, read in place from a server's bytes. Nothing is copied, and fields keep their
//! order, repeated names included.
pub use stream_in_place::{
    AutoClaimJustIdRef, AutoClaimOutcome, AutoClaimPlace, AutoClaimRef, Delivery, EntriesRef,
    EntryPlace, EntryRef, EntryRoom, EntryTables, EntryTape, FieldError, FieldPlace, FieldsRef,
    Full, IdsRef, JustIdOutcome, OctetPairs, Octets, Places, RangeOutcome, RangeRef, ReadOutcome,
    ReadRef, SentClaim, SentRow, StreamIdParts, StreamPlace, StreamRef, StreamsRef, find_autoclaim,
    find_claimed_streams, find_justid, find_range, find_streams, read_any_autoclaim,
    read_any_justid, read_any_range, read_any_streams,
};
