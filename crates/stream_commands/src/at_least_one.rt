//! Lists that are not empty.
ghost use Rattle.std.specs.Prelude.{◌≡◌, [], ◌∷◌, MatchOption, length};
ghost use Rattle.std.specs.List.{flat_map};
ghost use Rattle.stream_commands.specs.NonEmpty.{all};

use redis_resp::{RedisWrite, ToRedisArgs, WriteError};
use std::marker::Model;

/// One item or more, borrowed. A command that takes a list takes an `AtLeastOne`, since the server
/// refuses an empty list.
#[derive(Debug, Drop)]
pub struct AtLeastOne<'a, T> {
    first: &'a T,
    rest: &'a [T],
    count: usize,
}

impl<'a, T> Model for AtLeastOne<'a, T> {
    ghost use Rattle.std.specs.Prelude.{◌≡◌, length, suc};
    ghost use Rattle.stream_commands.specs.NonEmpty.{NonEmpty};

    ghost Value = { NonEmpty T };

    ghost view = { λ list. record { first = list.first.now; rest = list.rest.now } };

    ghost invariant = { λ list. list.count ≡ suc (length list.rest.now) };
}

impl<'a, T> AtLeastOne<'a, T> {
    /// These items; `None` if the slice is empty.
    pub fn new(items: &'a [T]) -> Option<AtLeastOne<'a, T>>
        ensures { MatchOption result (items.now ≡ []) (λ list. all list ≡ items.now) }
    {
        match items.split_first() {
            Some((first, rest)) => Some(AtLeastOne {
                first,
                rest,
                count: items.len(),
            }),
            None => None,
        }
    }

    /// Only this item.
    pub fn one(item: &'a T) -> AtLeastOne<'a, T>
        ensures { all result ≡ item.now ∷ [] }
    {
        AtLeastOne {
            first: item,
            rest: &[],
            count: 1,
        }
    }

    /// The first item.
    pub fn first(&self) -> &'a T
        ensures { result.now ≡ self.now.first }
    {
        self.first
    }

    /// The items after the first one.
    pub fn rest(&self) -> &'a [T]
        ensures { result.now ≡ self.now.rest }
    {
        self.rest
    }

    /// The number of items.
    pub fn len(&self) -> usize
        ensures { result ≡ length (all self.now) }
    {
        self.count
    }
}

impl<'a, T: ToRedisArgs> ToRedisArgs for AtLeastOne<'a, T> {
    ghost args = { λ list. flat_map T.args (all list) };

    fn write_redis_args<W: RedisWrite>(&self, out: &mut W) -> Result<(), WriteError> {
        (self.first, self.rest).write_redis_args(out)
    }
}
