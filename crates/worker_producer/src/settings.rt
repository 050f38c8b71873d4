//! The settings of a producer.
ghost use Rattle.std.specs.Prelude.{◌≡◌, Some, string_bytes};
ghost use Rattle.worker_producer.specs.Checked.{based, checked};

use stream_options::StreamTrimStrategy;
use thiserror::Error;

/// Why the settings were refused.
#[derive(Clone, Copy, Debug, PartialEq, Eq, Error)]
pub enum SettingsError {
    /// The key is empty.
    #[error("the key is empty")]
    NoKey,
    /// A batch has no record.
    #[error("a batch has one record at least")]
    NoBatch,
    /// A batch has more than 10,000 records.
    #[error("a batch has 10,000 records at most")]
    LargeBatch,
    /// No id of 64 bits is above the base.
    #[error("no id is behind the base")]
    LargeBase,
}

/// The settings of a producer.
#[derive(Debug, Drop)]
pub struct Settings {
    /// The key of the stream.
    pub(crate) key: String,
    /// The first record has the id `(base + 1)-0`.
    pub(crate) base: u64,
    /// The most records in a batch.
    pub(crate) batch: usize,
    /// How each XADD trims the stream, if it does.
    pub(crate) trim: Option<StreamTrimStrategy>,
}

impl Settings {
    /// Settings for the stream `key`, the ids `(base + 1)-0`, `(base + 2)-0` and so on, and at most `batch` records at
    /// once, from 1 to 10,000. Use the same base as long as these records are added to the stream. Nothing is trimmed.
    /// Returns the first error that holds.
    pub fn new(key: String, base: u64, batch: usize) -> Result<Settings, SettingsError>
        ensures { result ≡ checked key base batch }
    {
        if key.is_empty() {
            return Err(SettingsError::NoKey);
        }
        if batch == 0 {
            return Err(SettingsError::NoBatch);
        }
        if batch > 10_000 {
            return Err(SettingsError::LargeBatch);
        }
        if base == u64::MAX {
            return Err(SettingsError::LargeBase);
        }
        Ok(Settings {
            key,
            base,
            batch,
            trim: None,
        })
    }

    /// The key of the stream.
    pub fn key(&self) -> &str
        ensures { result.now ≡ string_bytes self.now.key }
    {
        self.key.as_str()
    }

    /// The same with another base. It is refused if no id of 64 bits is above it.
    pub fn with_base(mut self, base: u64) -> Result<Settings, SettingsError>
        ensures { result ≡ based self base }
    {
        if base == u64::MAX {
            return Err(SettingsError::LargeBase);
        }
        self.base = base;
        Ok(self)
    }

    /// Each `XADD` has this `MAXLEN` or `MINID`, in place of any before. So the stream keeps only the newest entries.
    /// Trimming does not change its last id, so no record is added again.
    pub fn trim(mut self, strategy: StreamTrimStrategy) -> Settings
        ensures { result ≡ record self { trim = Some strategy } }
    {
        self.trim = Some(strategy);
        self
    }
}
