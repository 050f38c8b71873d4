//! The partitions of a stream.
ghost use Rattle.std.specs.Prelude.{◌≡◌, ◌%◌, ◌≤◌, ◌+◌, ◌++◌, length, IsOk, OnOk, OnErr, vec_capacity, vec_len};
ghost use Rattle.redis_client.specs.Cluster.Crc.{crc16};
ghost use Rattle.redis_client.specs.Cluster.Partition.{partition_name, partition_suffix};

use crate::cluster::crc::crc16;
use arrayvec::ArrayString;
use itoa::Buffer;
use std::alloc::AllocError;
use std::num::NonZeroU16;

/// The partition of a record, from 0 to one less than their number: CRC-16/XMODEM of the whole key of the
/// record, modulo the number of partitions. If that number changes, a record may belong to another partition.
pub fn partition_of(record_key: &[u8], number: NonZeroU16) -> u16
    ensures { result ≡ crc16 record_key.now % number.value }
{
    crc16(record_key) % number.get()
}

/// What follows the name of a stream in the key of its partition, such as `:{3}`. It has at most eight bytes.
pub fn partition_suffix(partition: u16) -> ArrayString<8>
    ensures { result.bytes ≡ partition_suffix partition }
{
    let mut digits = Buffer::new();
    let mut suffix = ArrayString::new();
    suffix.push_str(":{");
    suffix.push_str(digits.format(partition));
    suffix.push('}');
    suffix
}

/// Appends the key of a partition of a stream, such as `orders:{3}`. If memory runs out, `key` stays as it was.
/// That cannot be if `key` has room for the name and eight bytes more.
pub fn push_partition_name(key: &mut Vec<u8>, name: &[u8], partition: u16) -> Result<(), AllocError>
    ensures ok { OnOk result (key.new.items ≡ key.old.items ++ partition_name name.now partition) }
    ensures err { OnErr result (key.new.items ≡ key.old.items) }
    ensures succeeds { vec_len key.old + length name.now + 8 ≤ vec_capacity key.old → IsOk result }
{
    let suffix = partition_suffix(partition);
    key.reserve(name.len() + suffix.len())?;
    key.extend_from_slice(name)?;
    key.extend_from_slice(suffix.as_str().as_bytes())
}
