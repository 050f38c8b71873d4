//! Laws of slots and errors.
ghost use Rattle.redis_client.specs.Cluster.Division.{ChecksumIsRemainder};
ghost use Rattle.redis_client.specs.Cluster.Sentence.{SentencesTell};
ghost use Rattle.redis_client.specs.Cluster.Partition.{SlotsOfPartitions};
ghost use Rattle.redis_client.specs.Cluster.Tag.{TagsDecide, WholeKeysDecide};

/// The checksum is the remainder of the message, with 16 zeros after it, when it is divided by
/// x^16 + x^12 + x^5 + 1 over bits.
pub fn checksum_is_remainder()
    ensures { ChecksumIsRemainder }
{}

/// No text of an error has two meanings.
pub fn sentences_tell()
    ensures { SentencesTell }
{}

/// The part between the first `{` and the first `}` after it determines the slot, if it is not empty, whatever
/// is around it; otherwise the whole key does.
pub fn tags_decide()
    ensures tag { TagsDecide }
    ensures whole { WholeKeysDecide }
{}

/// The slot of a partition depends only on its number, if the name has no `{`.
pub fn slots_of_partitions()
    ensures { SlotsOfPartitions }
{}
