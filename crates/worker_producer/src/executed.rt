//! The reply to EXEC.
ghost use Rattle.std.specs.Prelude.{◌≡◌, IfErr, None, OnOk, false, true, map};
ghost use Rattle.std.specs.List.{list_all};
ghost use Rattle.redis_resp.specs.Tree.{array, trees};
ghost use Rattle.redis_resp.specs.Value.{tree};
ghost use Rattle.redis_wire.specs.Reply.{answer, answer_list, group};
ghost use Rattle.redis_wire.specs.declared.kind.GroupKind.TheVariants as groups;
ghost use Rattle.worker_producer.specs.Replies.{is_executed, is_id, is_ids, not_standing, stands};
ghost use Rattle.worker_producer.specs.Unheard.{IsCause, IsOfFirst, IsUnexecuted};

use crate::error::FeedError;
use redis_resp::Value;
use redis_wire::{GroupKind, Reply};

/// The error of `XADD` if the id is not above the last one: the record is in the stream already.
const STANDS: &[u8] =
    b"ERR The ID specified in XADD is equal or smaller than the target stream top item";

/// Checks that a batch of `sent` records was executed, and that each of them is in the stream: the reply has for each
/// the id that was added, or the error that its id is not above the last one.
pub fn read_executed(reply: Reply, sent: u64) -> Result<(), FeedError>
    ensures ok { OnOk result (is_executed sent (answer reply) ≡ true) }
    ensures err { IfErr result (λ e. (is_executed sent (answer reply) ≡ false)
        × IsUnexecuted sent (answer reply) e) }
{
    match reply {
        Reply::Value(Value::Array(values)) => {
            if has_ids(&values, sent) {
                Ok(())
            } else {
                Err(FeedError::NotAnAnswer)
            }
        }
        Reply::Group {
            kind: GroupKind::Array,
            members,
        } => read_members(members, sent),
        Reply::Error(error) => Err(FeedError::Server(error)),
        _ => Err(FeedError::NotAnAnswer),
    }
}

/// Reads the reply to EXEC that has errors in it.
fn read_members(members: Vec<Reply>, sent: u64) -> Result<(), FeedError>
    ensures ok { OnOk result (is_executed sent (group groups.Array (answer_list (map answer members.items))) ≡ true) }
    ensures err { IfErr result (λ e. (is_executed sent (group groups.Array (answer_list (map answer members.items))) ≡ false)
        × IsUnexecuted sent (group groups.Array (answer_list (map answer members.items))) e) }
{
    if members.len() as u64 != sent {
        return Err(FeedError::NotAnAnswer);
    }
    check_each(members)
}

/// Checks that each reply is one of a record in the stream. Returns the error of the first that is not.
fn check_each(members: Vec<Reply>) -> Result<(), FeedError>
    ensures ok { OnOk result (not_standing (answer_list (map answer members.items)) ≡ None) }
    ensures err { IfErr result (IsOfFirst (not_standing (answer_list (map answer members.items)))) }
{
    for member in members {
        check_added(member)?;
    }
    Ok(())
}

/// Checks that the reply to XADD is one of a record in the stream.
fn check_added(member: Reply) -> Result<(), FeedError>
    ensures ok { OnOk result (stands (answer member) ≡ true) }
    ensures err { IfErr result (λ e. (stands (answer member) ≡ false)
        × IsCause (answer member) e) }
{
    match member {
        Reply::Value(Value::BulkString(_)) => Ok(()),
        Reply::Error(error) => {
            if error.text.as_slice() == STANDS {
                Ok(())
            } else {
                Err(FeedError::Server(error))
            }
        }
        _ => Err(FeedError::NotAnAnswer),
    }
}

/// Whether there are `sent` values, each an id.
fn has_ids(values: &[Value], sent: u64) -> bool
    ensures { result ≡ is_ids sent (array (trees (map tree values.now))) }
{
    if values.len() as u64 != sent {
        return false;
    }
    are_ids(values)
}

/// Whether each value is an id.
fn are_ids(values: &[Value]) -> bool
    ensures { result ≡ list_all (λ v. is_id (tree v)) values.now }
{
    values.iter().all(|value| is_id(value))
}

/// Whether the value is a string, as an id is.
fn is_id(value: &Value) -> bool
    ensures { result ≡ is_id (tree value.now) }
{
    matches!(value, Value::BulkString(_))
}
