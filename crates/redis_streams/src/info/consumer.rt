//! A consumer of a group, as XPENDING and XINFO CONSUMERS report it.
ghost use Rattle.std.specs.Prelude.{◌≡◌, [], IsOk, IfOk, map, string_bytes};
ghost use Rattle.redis_streams.specs.Info.{empty_consumer};
ghost use Rattle.redis_streams.specs.InfoMeaning.{consumer_meaning};

use std::alloc::{AllocError, Global};

/// A consumer of a group, as XPENDING and XINFO CONSUMERS report it.
#[derive(Debug, Drop)]
pub struct StreamInfoConsumer {
    /// The name of the consumer.
    pub name: String,
    /// The number of entries that were delivered to it and not yet acknowledged.
    pub pending: usize,
    /// The number of milliseconds that it has been idle; 0 from XPENDING, which does not report it.
    pub idle: usize,
}

impl StreamInfoConsumer {
    /// Returns a consumer with no name and nothing pending. It allocates no memory and is always Ok.
    pub fn empty(alloc: Global) -> Result<StreamInfoConsumer, AllocError>
        ensures ok { IsOk result }
        ensures consumer { IfOk result (λ c. consumer_meaning c ≡ empty_consumer) }
    {
        Ok(StreamInfoConsumer {
            name: String::new(alloc),
            pending: 0,
            idle: 0,
        })
    }

    /// Returns a copy of the consumer. It fails only if it runs out of memory.
    pub fn try_clone(&self, alloc: Global) -> Result<StreamInfoConsumer, AllocError>
        ensures { IfOk result (λ c. consumer_meaning c ≡ consumer_meaning self.now) }
    {
        Ok(StreamInfoConsumer {
            name: String::from_str(alloc, &self.name)?,
            pending: self.pending,
            idle: self.idle,
        })
    }
}

/// Returns copies of the consumers, in order. It fails only if it runs out of memory.
pub(crate) fn copy_consumers(
    alloc: Global,
    consumers: &[StreamInfoConsumer],
) -> Result<Vec<StreamInfoConsumer>, AllocError>
    ensures { IfOk result (λ r. map consumer_meaning r.items ≡ map consumer_meaning consumers.now) }
{
    let mut copies = Vec::with_capacity(alloc, consumers.len())?;
    for consumer in consumers {
        copies.push(consumer.try_clone(alloc)?)?;
    }
    Ok(copies)
}
