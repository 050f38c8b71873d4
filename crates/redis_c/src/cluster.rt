//! The slot of a key of Redis Cluster, and the partitions of a stream.
ghost use Rattle.std.specs.Prelude.{◌≡◌, ◌<◌, ◌≤◌, ◌^◌, ◌%◌, ◌⊎◌, None, Some, option_map};
ghost use Rattle.redis_client.specs.Cluster.Crc.{crc16};
ghost use Rattle.redis_client.specs.Cluster.Slot.{key_slot};
ghost use Rattle.redis_client.specs.Cluster.Partition.{partition_name};
ghost use Rattle.redis_c.specs.Packing.{IsPackedAs, IsWritten};

use crate::code;
use crate::packing::copy_both;
use redis_client::cluster::{key_slot, partition_of, partition_suffix};
use std::num::NonZeroU16;

/// The slot of a key, from 0 to 16,383.
#[unsafe(no_mangle)]
pub extern "C" fn redis_key_slot(key: &[u8]) -> u32
    ensures { result ≡ key_slot key.now }
{
    u32::from(key_slot(key))
}

/// The number of partitions, if it is not 0 and fits 16 bits.
fn check_number(number: usize) -> Option<NonZeroU16>
    ensures some { 0 < number → number < 2 ^ 16 → option_map (λ n. n.value) result ≡ Some number }
    ensures none { (number ≡ 0) ⊎ (2 ^ 16 ≤ number) → result ≡ None }
{
    NonZeroU16::new(u16::try_from(number).ok()?)
}

/// Returns the partition of a record among `number`, from 1 to 65,535.
#[unsafe(no_mangle)]
pub extern "C" fn redis_partition_of(record_key: &[u8], number: usize, partition: &mut usize) -> u32
    ensures ok { 0 < number → number < 2 ^ 16
        → (result ≡ 0) × (partition.new ≡ crc16 record_key.now % number) }
    ensures none { (number ≡ 0) ⊎ (2 ^ 16 ≤ number) → (result ≡ 11) × (partition.new ≡ 0) }
{
    match check_number(number) {
        Some(number) => {
            *partition = usize::from(partition_of(record_key, number));
            code::OK
        }
        None => {
            *partition = 0;
            code::NO_PARTITION
        }
    }
}

/// Writes the name of a partition of a stream, such as `orders:{3}`. It asks for no memory.
#[unsafe(no_mangle)]
pub extern "C" fn redis_partition_name(
    name: &[u8],
    partition: usize,
    out: &mut [u8],
    len: &mut usize,
) -> u32
    ensures ok { partition < 2 ^ 16
        → IsPackedAs (IsWritten (partition_name name.now partition) out.new) result len.new }
    ensures none { 2 ^ 16 ≤ partition → (result ≡ 11) × (len.new ≡ 0) }
{
    match u16::try_from(partition) {
        Ok(partition) => {
            let suffix = partition_suffix(partition);
            copy_both(name, suffix.as_str().as_bytes(), out).tell(len)
        }
        Err(_) => {
            *len = 0;
            code::NO_PARTITION
        }
    }
}
