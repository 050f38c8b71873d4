//! Pauses between attempts, with exponential backoff.
ghost use Rattle.std.specs.Prelude.{◌≡◌, ◌≤◌, ◌*◌};
ghost use Rattle.std.specs.Duration.{as_nanos};
ghost use Rattle.redis_client.specs.Backoff.{IsAfterPause, limit_of, pause_of};

use std::time::Duration;

/// Pauses between failed attempts: each may be twice as long as the one before, up to a bound.
///
/// It reads no clock and generates no random number: the caller passes one and does the waiting.
#[derive(Clone, Copy, Debug, PartialEq, Eq)]
pub struct Backoff {
    /// The longest first pause, in milliseconds.
    pub first: u64,
    /// The longest pause, in milliseconds.
    pub most: u64,
    /// The number of pauses since the last reset.
    pub pauses: u32,
}

impl Default for Backoff {
    /// At first half a second, and at most half a minute.
    fn default() -> Backoff {
        Backoff::new(500, 30_000)
    }
}

impl Backoff {
    /// A backoff with no pause yet. Both bounds are in milliseconds.
    pub fn new(first: u64, most: u64) -> Backoff
        ensures { result ≡ record { first = first; most = most; pauses = 0 } }
    {
        Backoff {
            first,
            most,
            pauses: 0,
        }
    }

    /// The upper bound of the next pause, in milliseconds: `first` doubled for each pause so far,
    /// but at most `most`.
    pub fn limit(&self) -> u64
        ensures { result ≡ limit_of self.now }
    {
        let doubled = 2u64.saturating_pow(self.pauses);
        self.first.saturating_mul(doubled).min(self.most)
    }

    /// Returns the next pause. The random number chooses it from half of `limit` to all of it.
    pub fn next_pause(&mut self, random: u64) -> Duration
        ensures pause { as_nanos result ≡ pause_of (limit_of self.old) random * 1_000_000 }
        ensures most { as_nanos result ≤ limit_of self.old * 1_000_000 }
        ensures least { limit_of self.old * 1_000_000 ≤ 2 * as_nanos result }
        ensures counted { IsAfterPause self.old self.new }
    {
        let limit = self.limit();
        let pause = limit - random % (limit / 2 + 1);
        self.pauses = self.pauses.saturating_add(1);
        Duration::from_millis(pause)
    }

    /// Resets after an attempt that succeeded: the next pause is a first one.
    pub fn reset(&mut self)
        ensures { self.new ≡ record self.old { pauses = 0 } }
    {
        self.pauses = 0;
    }
}
