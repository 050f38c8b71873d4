//! The settings and the state of a worker.
ghost use Rattle.std.specs.Prelude.{◌≡◌, OnOk, OnErr, string_bytes};
ghost use Rattle.worker.specs.Checked.{checked, counted};
ghost use Rattle.worker.specs.Questions.{count_again};

use std::fmt::{self, Display};
use thiserror::Error;

/// The start id of a group that a worker creates.
#[derive(Clone, Copy, Debug, PartialEq, Eq)]
pub enum MakeGroup {
    /// Creates no group: `NOGROUP` is an error.
    Never,
    /// From the first entry of the stream, `XGROUP CREATE key group 0 MKSTREAM`.
    FromTheFirst,
    /// From entries added after the group is created, `XGROUP CREATE key group $ MKSTREAM`.
    FromNow,
}

/// Why the settings were refused.
#[derive(Clone, Copy, Debug, PartialEq, Eq, Error)]
pub enum SettingsError {
    /// The key is empty.
    #[error("the key is empty")]
    NoKey,
    /// The group's name is empty.
    #[error("the group has no name")]
    NoGroup,
    /// The consumer's name is empty.
    #[error("the consumer has no name")]
    NoConsumer,
    /// The count is 0.
    #[error("the count is 1 at least")]
    NoCount,
    /// The count is more than 10,000.
    #[error("the count is 10,000 at most")]
    LargeCount,
}

/// The settings of a worker.
///
/// The names are not empty, and the count is from 1 to 10,000.
#[derive(Debug, Drop)]
pub struct Settings {
    /// The key of the stream.
    pub(crate) key: String,
    /// The consumer group.
    pub(crate) group: String,
    /// The consumer's name: unique to each worker, and the same after a restart.
    pub(crate) consumer: String,
    /// The most entries in a reply, `COUNT`.
    pub(crate) count: usize,
    /// Whether entries that were delivered before are requested one at a time.
    pub(crate) one_at_a_time: bool,
    /// How many milliseconds the server waits for new entries, `BLOCK`. 0 is no limit.
    pub(crate) block: usize,
    /// Entries that are pending for other consumers and idle for this many milliseconds are claimed, `min-idle-time`.
    pub(crate) min_idle: usize,
    /// How many reads of new entries are made between claims. For 0 and 1 the worker claims after each read.
    pub(crate) every: usize,
    /// Whether the worker creates the group if the first command returns `NOGROUP`.
    pub(crate) make_group: MakeGroup,
}

impl Settings {
    /// Returns settings for the stream `key`, a group and a consumer. The consumer's name must be unique, and
    /// the same after a restart.
    ///
    /// The default count is 1,000, also for entries that were delivered before, and `BLOCK` is five seconds.
    /// The worker claims entries that are idle for a minute, after every tenth read. No group is created.
    /// Returns the error of the first empty name.
    pub fn new(key: String, group: String, consumer: String) -> Result<Settings, SettingsError>
        ensures { result ≡ checked key group consumer }
    {
        if key.is_empty() {
            return Err(SettingsError::NoKey);
        }
        if group.is_empty() {
            return Err(SettingsError::NoGroup);
        }
        if consumer.is_empty() {
            return Err(SettingsError::NoConsumer);
        }
        Ok(Settings {
            key,
            group,
            consumer,
            count: 1_000,
            one_at_a_time: false,
            block: 5_000,
            min_idle: 60_000,
            every: 10,
            make_group: MakeGroup::Never,
        })
    }

    /// Sets the most entries in a reply, `COUNT`: from 1 to 10,000. Another number is refused, and changes nothing.
    ///
    /// A commit of a file costs one sync, whatever the count. A reply has room for all its entries.
    pub fn set_count(&mut self, count: usize) -> Result<(), SettingsError>
        ensures counted { result ≡ counted count }
        ensures ok { OnOk result (self.new ≡ record self.old { count = count }) }
        ensures err { OnErr result (self.new ≡ self.old) }
    {
        if count == 0 {
            return Err(SettingsError::NoCount);
        }
        if count > 10_000 {
            return Err(SettingsError::LargeCount);
        }
        self.count = count;
        Ok(())
    }

    /// Sets whether entries that were delivered before are requested one at a time, `COUNT 1`. These are the
    /// worker's own pending entries, and the entries that it claims. New entries are still requested by
    /// `count`.
    ///
    /// With this setting an entry that ends the process raises only its own delivery count. Each redelivered
    /// entry then costs a round and a commit.
    pub fn set_one_at_a_time(&mut self, one_at_a_time: bool)
        ensures { self.new ≡ record self.old { one_at_a_time = one_at_a_time } }
    {
        self.one_at_a_time = one_at_a_time;
    }

    /// How many milliseconds the server waits for new entries, `BLOCK`. 0 is no limit.
    pub fn set_block(&mut self, block: usize)
        ensures { self.new ≡ record self.old { block = block } }
    {
        self.block = block;
    }

    /// Entries that are pending for other consumers and idle for this many milliseconds are claimed, `min-idle-time`.
    pub fn set_min_idle(&mut self, min_idle: usize)
        ensures { self.new ≡ record self.old { min_idle = min_idle } }
    {
        self.min_idle = min_idle;
    }

    /// How many reads of new entries are made between claims. For 0 and 1 the worker claims after each read.
    pub fn set_every(&mut self, every: usize)
        ensures { self.new ≡ record self.old { every = every } }
    {
        self.every = every;
    }

    /// Whether the worker creates the group if the first command returns `NOGROUP`.
    pub fn set_make_group(&mut self, make_group: MakeGroup)
        ensures { self.new ≡ record self.old { make_group = make_group } }
    {
        self.make_group = make_group;
    }

    /// The key of the stream.
    pub fn key(&self) -> &str
        ensures { result.now ≡ string_bytes self.now.key }
    {
        self.key.as_str()
    }

    /// The consumer group.
    pub fn group(&self) -> &str
        ensures { result.now ≡ string_bytes self.now.group }
    {
        self.group.as_str()
    }

    /// The name of the consumer.
    pub fn consumer(&self) -> &str
        ensures { result.now ≡ string_bytes self.now.consumer }
    {
        self.consumer.as_str()
    }

    /// The `COUNT` for entries that were delivered before.
    pub(crate) fn count_again(&self) -> usize
        ensures { result ≡ count_again self.now }
    {
        if self.one_at_a_time { 1 } else { self.count }
    }

    /// How many milliseconds an entry may be idle before it is claimed.
    pub fn min_idle(&self) -> usize
        ensures { result ≡ self.now.min_idle }
    {
        self.min_idle
    }

    /// How many reads of new entries are made between claims. For 0 and 1 the worker claims after each read.
    pub fn every(&self) -> usize
        ensures { result ≡ self.now.every }
    {
        self.every
    }
}

/// The phase of a worker.
#[derive(Debug, Drop)]
pub enum Phase {
    /// The worker reads its own pending entries from the first on.
    Start,
    /// The worker reads its own pending entries after this id.
    Own(String),
    /// The worker claims idle entries, from the first on.
    ClaimFirst,
    /// The worker claims idle entries, from this id on.
    Claiming(String),
    /// The worker reads new entries, and has made this many reads since the last claim.
    Reading(usize),
}

/// What a worker knows of its group.
#[derive(Clone, Copy, Debug, PartialEq, Eq)]
pub enum GroupState {
    /// Nothing is known yet.
    Unknown,
    /// The first command returned `NOGROUP`, and the worker creates the group next.
    Missing,
    /// The group exists: the server read from it, or created it.
    Known,
}

/// The command whose reply a worker waits for.
#[derive(Clone, Copy, Debug, PartialEq, Eq)]
pub enum Asked {
    /// No command.
    Nothing,
    /// XACK.
    Acknowledgement,
    /// XGROUP CREATE.
    Group,
    /// XREADGROUP of the worker's own pending entries, before anything is known of the group.
    First,
    /// XREADGROUP of the worker's own pending entries.
    Own,
    /// XAUTOCLAIM.
    Claim,
    /// XREADGROUP of new entries.
    New,
}

/// The name of the command, for error messages.
impl Display for Asked {
    ghost use Rattle.std.specs.Prelude.{Some};
    ghost use Rattle.worker.specs.Questions.{asked_name};

    ghost output = { λ asked. Some (asked_name asked) };

    fn fmt<W: fmt::Write>(&self, f: &mut fmt::Formatter<W>) -> fmt::Result {
        f.write_str(match self {
            Asked::Nothing => "no command",
            Asked::Acknowledgement => "XACK",
            Asked::Group => "XGROUP CREATE",
            Asked::First | Asked::Own => "XREADGROUP of pending entries",
            Asked::Claim => "XAUTOCLAIM",
            Asked::New => "XREADGROUP of new entries",
        })
    }
}
