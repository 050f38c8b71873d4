//! Items of a list that are taken one at a time.
ghost use Rattle.std.specs.Prelude.{◌≡◌, ◌∷◌, [], length, option_map, MatchOption};
ghost use Rattle.redis_resp.specs.Tree.{items};
ghost use Rattle.stream_entries.specs.ItemsLeft.{item_tree, trees_left};

use redis_resp::{Contents, Source};

/// An item of a list.
#[derive(Drop)]
pub(crate) enum Item<S> {
    /// A value.
    Whole(S),
    /// A pair of a map, which is read as a map of this one pair.
    Pair(S, S),
}

/// The items of a list that are left to take.
#[derive(Drop)]
pub(crate) enum ItemsLeft<V, P> {
    /// None.
    Nothing,
    /// These values.
    Values(V),
    /// These pairs, each a map of one pair.
    Pairs(P),
}

/// Returns the items of an `Array` or a `Set`, the pairs of a `Map`, or no items for `Nil`. `None` for
/// any other kind.
pub(crate) fn into_items<S: Source>(v: S) -> Option<ItemsLeft<S::Values, S::Pairs>>
    ensures { option_map (trees_left S.values_left S.pairs_left) result ≡ items (S.seen v) }
{
    match v.into_contents() {
        Contents::Nothing => Some(ItemsLeft::Nothing),
        Contents::Array(values) => Some(ItemsLeft::Values(values)),
        Contents::Set(values) => Some(ItemsLeft::Values(values)),
        Contents::Map(pairs) => Some(ItemsLeft::Pairs(pairs)),
        Contents::Other => None,
    }
}

/// Returns the number of items that are left.
#[tactic(auto, using(crate::proofs::ItemsLeftLemmas::counted))]
pub(crate) fn count_items<S: Source>(left: &ItemsLeft<S::Values, S::Pairs>) -> usize
    ensures { result ≡ length (trees_left S.values_left S.pairs_left left.now) }
{
    match left {
        ItemsLeft::Nothing => 0,
        ItemsLeft::Values(values) => S::count_values(values),
        ItemsLeft::Pairs(pairs) => S::count_pairs(pairs),
    }
}

/// Takes the next item. `None` if none is left.
#[inline(always)]
pub(crate) fn next_item<S: Source>(left: &mut ItemsLeft<S::Values, S::Pairs>) -> Option<Item<S>>
    ensures { MatchOption result (trees_left S.values_left S.pairs_left left.old ≡ [])
        (λ i. trees_left S.values_left S.pairs_left left.old
        ≡ item_tree S.seen i ∷ trees_left S.values_left S.pairs_left left.new) }
{
    match left {
        ItemsLeft::Nothing => None,
        ItemsLeft::Values(values) => Some(Item::Whole(S::next_value(values)?)),
        ItemsLeft::Pairs(pairs) => {
            let (key, value) = S::next_pair(pairs)?;
            Some(Item::Pair(key, value))
        }
    }
}
