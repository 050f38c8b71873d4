//! Streams by their keys, and groups by their names.
ghost use Rattle.std.specs.Prelude.{◌≡◌, IfErr, IfOk, IfSome, length as length_of};
ghost use Rattle.std.specs.List.{HoldsAt};
ghost use Rattle.std.specs.List.Sorted.{IsSearchInRange};
ghost use Rattle.server_commands.specs.Places.{AreInOrder, IsMissing, consumer_names, group_names, keys_of};

use server_store::{Group, Stream};

/// The index of the stream of this key, or of the first after it.
pub(super) fn place_of(streams: &[Stream], key: &[u8]) -> Result<usize, usize>
    ensures bound { IsSearchInRange result (length_of streams.now) }
    ensures found { IfOk result (HoldsAt (λ stream. stream.key.items ≡ key.now) streams.now) }
    ensures missing { IfErr result (λ _. AreInOrder (keys_of streams.now)
        → IsMissing key.now (keys_of streams.now)) }
{
    streams.binary_search_by(|stream| stream.key.as_slice().cmp(&key))
}

/// The stream of this key.
pub(super) fn stream_of<'a>(streams: &'a [Stream], key: &[u8]) -> Option<&'a Stream>
    ensures { IfSome result (λ stream. stream.now.key.items ≡ key.now) }
{
    match place_of(streams, key) {
        Ok(index) => Some(&streams[index]),
        Err(_) => None,
    }
}

/// The index of the group of this name, or of the first after it.
pub(super) fn place_of_group(stream: &Stream, name: &[u8]) -> Result<usize, usize>
    ensures bound { IsSearchInRange result (length_of stream.now.groups.items) }
    ensures found { IfOk result (HoldsAt (λ group. group.name.items ≡ name.now) stream.now.groups.items) }
    ensures missing { IfErr result (λ _. AreInOrder (group_names stream.now)
        → IsMissing name.now (group_names stream.now)) }
{
    stream
        .groups
        .binary_search_by(|group| group.name.as_slice().cmp(&name))
}

/// The group of this name.
pub(super) fn group_of<'a>(stream: &'a Stream, name: &[u8]) -> Option<&'a Group>
    ensures { IfSome result (λ group. group.now.name.items ≡ name.now) }
{
    match place_of_group(stream, name) {
        Ok(index) => Some(&stream.groups[index]),
        Err(_) => None,
    }
}

/// The index of the consumer of this name, or of the first after it.
pub(super) fn place_of_consumer(group: &Group, name: &[u8]) -> Result<usize, usize>
    ensures bound { IsSearchInRange result (length_of group.now.consumers.items) }
    ensures found { IfOk result (HoldsAt (λ consumer. consumer.name.items ≡ name.now) group.now.consumers.items) }
    ensures missing { IfErr result (λ _. AreInOrder (consumer_names group.now)
        → IsMissing name.now (consumer_names group.now)) }
{
    group
        .consumers
        .binary_search_by(|consumer| consumer.name.as_slice().cmp(&name))
}
