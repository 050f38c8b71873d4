//! Files that are read at any offset.
ghost use Rattle.std.specs.Prelude.{◌≡◌, ◌≤◌, ◌<◌, ℕ, List, Option, Some, None, IfOk, length, take, drop};
ghost use Rattle.std.specs.Option.{ForSome};

use std::fs::File;
use std::io;
use std::os::unix::fs::FileExt;

/// A file that is read at any offset. The file has no position, so a read changes nothing, even if it fails.
pub trait ByteFile {
    /// The bytes of the file, if they are known. The bytes of a system file are not known to any contract.
    ghost bytes: { Self → Option (List ℕ) };

    /// Reads bytes at `offset` into `piece`, as many as one read returns, and returns their number. The number
    /// is 0 only at the end of the file, or if `piece` is empty.
    fn read_at(&self, piece: &mut [u8], offset: u64) -> io::Result<usize>
        ensures room { IfOk result (λ n. n ≤ length piece.new) }
        ensures read { IfOk result (λ n. ForSome (bytes self.now) (λ all.
            take n piece.new ≡ take n (drop offset all))) }
        ensures end { IfOk result (λ n. n ≡ 0 → 0 < length piece.new → ForSome (bytes self.now) (λ all.
            length all ≤ offset)) };
}

/// A file of the operating system.
impl ByteFile for File {
    ghost bytes = { λ _. None };

    fn read_at(&self, piece: &mut [u8], offset: u64) -> io::Result<usize> {
        FileExt::read_at(self, piece, offset)
    }
}

/// Bytes in memory.
impl ByteFile for Vec<u8> {
    ghost bytes = { λ kept. Some kept.items };

    fn read_at(&self, piece: &mut [u8], offset: u64) -> io::Result<usize> {
        let rest = if offset < self.len() as u64 {
            &self[offset as usize..]
        } else {
            &[]
        };
        let len = rest.len().min(piece.len());
        piece[..len].copy_from_slice(&rest[..len]);
        Ok(len)
    }
}
