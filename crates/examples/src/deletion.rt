//! The results of XDELEX and XACKDEL for each entry, with types of `redis`.
ghost use Rattle.std.specs.Prelude.{◌≡◌, ◌≢◌, ◌↔◌, Some, IfOk, IfErr, IsTrue};
ghost use Rattle.redis.specs.Words.{tree, xackdel_reading, xackdel_refusal, xdelex_reading};
ghost use Rattle.redis.specs.Words.{xdelex_refusal};
ghost use Rattle.redis_streams.specs.declared.status.XDelExStatusCode.TheVariants as deletion;
ghost use Rattle.redis_streams.specs.declared.status.XAckDelStatusCode.TheVariants as acknowledgement;

use redis::streams::{XAckDelStatusCode, XDelExStatusCode};
use redis::{ParsingError, Value, from_redis_value};
use std::alloc::Global;

/// Returns the meaning of one code in a reply to XDELEX. Allocates nothing.
pub fn deletion_of(alloc: Global, code: Value) -> Result<XDelExStatusCode, ParsingError>
    ensures ok { IfOk result (λ status. xdelex_reading (tree code) ≡ Some status) }
    ensures err { IfErr result (λ e. e ≡ xdelex_refusal (tree code)) }
{
    from_redis_value(alloc, code)
}

/// Returns the meaning of one code in a reply to XACKDEL. Allocates nothing.
pub fn acknowledgement_of(alloc: Global, code: Value) -> Result<XAckDelStatusCode, ParsingError>
    ensures ok { IfOk result (λ status. xackdel_reading (tree code) ≡ Some status) }
    ensures err { IfErr result (λ e. e ≡ xackdel_refusal (tree code)) }
{
    from_redis_value(alloc, code)
}

/// Whether XDELEX left the entry in the stream.
pub fn is_left(status: &XDelExStatusCode) -> bool
    ensures { IsTrue result
        ↔ (status.now ≡ deletion.NotDeletedUnacknowledgedOrStillReferenced) }
{
    match status {
        XDelExStatusCode::IdNotFound => false,
        XDelExStatusCode::Deleted => false,
        XDelExStatusCode::NotDeletedUnacknowledgedOrStillReferenced => true,
    }
}

/// Whether the entry was pending for the group, and XACKDEL acknowledged it.
pub fn was_pending(status: &XAckDelStatusCode) -> bool
    ensures { IsTrue result ↔ (status.now ≢ acknowledgement.IdNotFound) }
{
    match status {
        XAckDelStatusCode::IdNotFound => false,
        XAckDelStatusCode::AcknowledgedAndDeleted => true,
        XAckDelStatusCode::AcknowledgedNotDeletedStillReferenced => true,
    }
}
