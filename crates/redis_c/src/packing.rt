//! Commands as bytes in a buffer of the caller.
ghost use Rattle.std.specs.Prelude.{◌≡◌, ◌++◌};
ghost use Rattle.redis_c.specs.Packing.{number, len_of, IsPacking, IsWritten};

use crate::code;
use redis_resp::ToRedisArgs;
use redis_wire::{PackError, pack_command};
use std::alloc::Global;

/// The outcome of packing a command.
#[derive(Clone, Copy)]
pub enum Packing {
    /// The buffer begins with the command.
    Written {
        /// The number of bytes of the command.
        len: usize,
    },
    /// The buffer has too little room.
    Room {
        /// The number of bytes that are needed.
        len: usize,
    },
    /// Out of memory.
    Memory,
    /// An argument has 2^32 bytes or more, or there are 2^32 arguments or more.
    TooLarge,
    /// A place is outside the bytes.
    Outside,
    /// There is no entry or no field, but the server needs one.
    Nothing,
    /// The settings are invalid.
    Refused,
}

impl Packing {
    /// The status code.
    fn get_code(self) -> u32
        ensures { result ≡ number self }
    {
        match self {
            Packing::Written { .. } => code::OK,
            Packing::Room { .. } => code::ROOM,
            Packing::Memory => code::MEMORY,
            Packing::TooLarge => code::TOO_LARGE,
            Packing::Outside => code::OUTSIDE,
            Packing::Nothing => code::NOTHING,
            Packing::Refused => code::SETTINGS,
        }
    }

    /// The number of bytes that were written or are needed.
    fn get_len(self) -> usize
        ensures { result ≡ len_of self }
    {
        match self {
            Packing::Written { len } | Packing::Room { len } => len,
            Packing::Memory
            | Packing::TooLarge
            | Packing::Outside
            | Packing::Nothing
            | Packing::Refused => 0,
        }
    }

    /// Writes the number of bytes that were written or are needed to `len`, and returns the status code.
    pub fn tell(self, len: &mut usize) -> u32
        ensures told { result ≡ number self }
        ensures counted { len.new ≡ len_of self }
    {
        *len = self.get_len();
        self.get_code()
    }
}

/// Copies the bytes to the start of the buffer, if they fit.
pub fn copy_bytes(bytes: &[u8], out: &mut [u8]) -> Packing
    ensures { IsWritten bytes.now out.new result }
{
    if bytes.len() > out.len() {
        return Packing::Room { len: bytes.len() };
    }
    let (front, _) = out.split_at_mut(bytes.len());
    front.copy_from_slice(bytes);
    Packing::Written { len: bytes.len() }
}

/// Copies the first bytes and after them the second to the start of the buffer, if both fit.
pub fn copy_both(first: &[u8], second: &[u8], out: &mut [u8]) -> Packing
    ensures { IsWritten (first.now ++ second.now) out.new result }
{
    let len = first.len() + second.len();
    if len > out.len() {
        return Packing::Room { len };
    }
    let (front, _) = out.split_at_mut(len);
    let (begin, end) = front.split_at_mut(first.len());
    begin.copy_from_slice(first);
    end.copy_from_slice(second);
    Packing::Written { len }
}

/// Packs a command into the start of the buffer.
pub fn write_command<T: ToRedisArgs>(alloc: Global, command: &T, out: &mut [u8]) -> Packing
    ensures { IsPacking (T.args command.now) out.new result }
{
    match pack_command(alloc, command) {
        Ok(bytes) => copy_bytes(&bytes, out),
        Err(PackError::Full) => Packing::TooLarge,
        // Each command of this crate has its name, so it has arguments.
        Err(PackError::Memory | PackError::NoArguments) => Packing::Memory,
    }
}
