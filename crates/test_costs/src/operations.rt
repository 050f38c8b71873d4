//! The operations.
ghost use Rattle.std.specs.Prelude.{◌≡◌, ◌≢◌, false, IfOk, IfErr};
ghost use Rattle.test_costs.specs.Reading.{IsRead, has_record};
ghost use Rattle.test_costs.specs.Replies.{reply_tree};

use crate::job::{Job, Operation, Way};
use crate::reading::read;
use crate::replies::reply;
use indexmap::IndexMap;
use redis_resp::{ParsingError, ToRedisArgs};
use redis_streams::{
    StreamAutoClaimReply, StreamPendingCountReply, StreamRangeReply, StreamReadReply,
};
use std::alloc::{AllocError, Global};
use stream_options::{
    StreamAddOptions, StreamDeletionPolicy, StreamTrimStrategy, StreamTrimmingMode,
};

/// Does the operation, in the way and as often as the job says. An `Err` means that its reply has no
/// record, unless it is `Memory`.
pub fn perform(alloc: Global, job: Job) -> Result<(), ParsingError>
    ensures ok { IfOk result (λ _. IsRead job.way job.count
        (has_record job.operation (reply_tree job.operation job.rows))) }
    ensures err { IfErr result (λ e. e ≢ ParsingError.Memory
        → has_record job.operation (reply_tree job.operation job.rows) ≡ false) }
{
    let Job { way, count, .. } = job;
    let value = reply(alloc, job.operation, job.rows)?;
    match job.operation {
        Operation::Range => read::<StreamRangeReply>(alloc, &value, way, count),
        Operation::RangeOfOneField => read::<StreamRangeReply>(alloc, &value, way, count),
        Operation::Read => read::<StreamReadReply>(alloc, &value, way, count),
        Operation::ReadWithClaim => read::<StreamReadReply>(alloc, &value, way, count),
        Operation::Autoclaim => read::<StreamAutoClaimReply>(alloc, &value, way, count),
        Operation::AutoclaimOfIds => read::<StreamAutoClaimReply>(alloc, &value, way, count),
        Operation::Pending => read::<StreamPendingCountReply>(alloc, &value, way, count),
        Operation::Table => read::<IndexMap<String, i64>>(alloc, &value, way, count),
        Operation::Add => add(alloc, way, count),
    }
}

fn add_options(alloc: Global) -> Result<StreamAddOptions, AllocError> {
    let trim = StreamTrimStrategy::maxlen(StreamTrimmingMode::Approx, 100000).limit(500);
    let producer = String::from_str(alloc, "producer-1")?;
    Ok(
        StreamAddOptions::default()
            .nomkstream()
            .trim(trim)
            .idmp(producer, String::from_str(alloc, "iid-1")?)
            .set_deletion_policy(StreamDeletionPolicy::KeepRef),
    )
}

/// All options of XADD: made anew, written as a new list, or written to a list with room.
fn add(alloc: Global, way: Way, count: usize) -> Result<(), ParsingError>
    ensures { IfErr result (λ e. e ≡ ParsingError.Memory) }
{
    let options = add_options(alloc)?;
    let mut list: Vec<Vec<u8>> = Vec::with_capacity(alloc, 16)?;
    for _ in 0..count {
        match way {
            Way::Copied => drop(add_options(alloc)?),
            Way::Owned => drop(options.to_redis_args(alloc)?),
            Way::Borrowed => {
                list.clear();
                if options.write_redis_args(&mut list).is_err() {
                    return Err(ParsingError::Memory);
                }
            }
        }
    }
    Ok(())
}
