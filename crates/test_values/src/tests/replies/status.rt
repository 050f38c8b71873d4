//! Equality of status codes, as a caller can prove it.
use redis_streams::laws::{equal_acknowledgements, equal_deletions};
use redis_streams::{XAckDelStatusCode, XDelExStatusCode};

#[test]
fn codes_are_equal_where_they_are_the_same(rt: HostRuntime) {
    let deleted = || XDelExStatusCode::Deleted;
    assert!(rt; equal_deletions(deleted(), deleted()));
    assert!(rt; !equal_deletions(deleted(), XDelExStatusCode::IdNotFound));
    let deleted = || XAckDelStatusCode::AcknowledgedAndDeleted;
    assert!(rt; equal_acknowledgements(deleted(), deleted()));
    assert!(rt; !equal_acknowledgements(deleted(), XAckDelStatusCode::IdNotFound));
}
