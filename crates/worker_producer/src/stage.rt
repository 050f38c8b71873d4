//! The stage of a producer.
ghost use Rattle.std.specs.Prelude.{◌+◌, ◌<◌, ◌^◌};

/// A batch that was sent and has no reply yet.
#[derive(Clone, Copy, Debug, PartialEq, Eq)]
pub struct OnTheWay {
    /// How many records were added before the batch.
    pub known: u64,
    /// How many records were sent.
    pub sent: u64,
    ghost fits: { known + sent < 2 ^ 64 },
}

/// What a producer knows of the stream's records.
#[derive(Clone, Copy, Debug, PartialEq, Eq)]
pub enum Stage {
    /// Nothing: it reads the last id.
    Asking,
    /// This number of records are in the stream, the first ones.
    Knows(u64),
    /// A batch is on its way, and the records before it are in the stream.
    Waits(OnTheWay),
}

/// The command that a producer sends.
#[derive(Clone, Copy, Debug, PartialEq, Eq)]
pub enum Asked {
    /// None: replies are still expected, or all records are added.
    Nothing,
    /// `XINFO STREAM`, for the last id.
    LastId,
    /// A batch of records.
    Records,
}
