//! Limits on the size of a reply.
ghost use Rattle.std.specs.Prelude.{◌≡◌};
ghost use Rattle.redis_wire.specs.Limits.{default_limits};

/// The limits on the size of a reply.
#[derive(Clone, Copy, Debug, PartialEq, Eq)]
pub struct Limits {
    /// The maximum number of levels of nested values; attributes count as levels. A reply of
    /// `XREADGROUP` has six, with its texts counted.
    pub depth: u8,
    /// The largest length of a bulk string in bytes, and the largest count of a group.
    pub length: u32,
    /// The maximum length of a line in bytes, without its first byte and its CR LF.
    pub line: u32,
    /// The maximum number of values in one reply, with nested values and errors counted. A value takes
    /// 56 bytes besides its text; a growing list, or a map built of its members, takes up to twice that
    /// for a while. The default of 16,777,216 values takes 0.9 GiB, or 1.8 GiB for a while. This number
    /// of values comes in at least 48 MiB of bytes.
    pub values: u32,
    /// The maximum number of unconsumed bytes in a `ReplyStream`.
    pub bytes: usize,
}

impl Default for Limits {
    ghost is_default = { λ limits. limits ≡ default_limits };

    /// 128 levels, lengths of 512 MiB, which is the maximum of a server, lines of 64 KiB,
    /// 16,777,216 values in a reply, and 1 GiB in a stream.
    ///
    /// On a stack of 8 MiB, values of some thousands of levels can be dropped, compared and copied.
    /// `depth` is at most 255, so no limits allow a value that is too deep for these.
    fn default() -> Limits {
        Limits {
            depth: 128,
            length: 536_870_912,
            line: 65_536,
            values: 16_777_216,
            bytes: 1_073_741_824,
        }
    }
}
