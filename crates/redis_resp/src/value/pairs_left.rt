//! Pairs that are taken one at a time.
ghost use Rattle.std.specs.Prelude.{◌≡◌, ◌∷◌, [], length, option_map, MatchOption};
ghost use Rattle.redis_resp.specs.Tree.{pairs_in};
ghost use Rattle.redis_resp.specs.Source.{both, all_left};

use crate::value::contents::Contents;
use crate::value::source::Source;

/// The pairs that are left, after any number of the first ones were taken.
#[derive(Drop)]
pub enum PairsLeft<V, P> {
    /// No pairs.
    Nothing,
    /// These values two by two. The last one is left out if their number is odd.
    TwoByTwo(V),
    /// These pairs.
    Entries(P),
}

/// Returns the pairs of a `Map`, of an `Array` of even length two by two, or of `Nil`, which has none.
/// Returns `None` for any other kind or an odd length.
#[tactic(auto, using(crate::proofs::PairLemmas::two_by_two_read))]
pub fn into_pairs<S: Source>(v: S) -> Option<PairsLeft<S::Values, S::Pairs>>
    ensures { option_map (all_left S.values_left S.pairs_left) result ≡ pairs_in (S.seen v) }
{
    match v.into_contents() {
        Contents::Nothing => Some(PairsLeft::Nothing),
        Contents::Array(values) => {
            if S::count_values(&values) % 2 == 0 {
                Some(PairsLeft::TwoByTwo(values))
            } else {
                None
            }
        }
        Contents::Map(entries) => Some(PairsLeft::Entries(entries)),
        _ => None,
    }
}

/// Returns the number of pairs that are left.
#[tactic(auto, using(crate::proofs::PairLemmas::length_two_each))]
pub fn count_left<S: Source>(pairs: &PairsLeft<S::Values, S::Pairs>) -> usize
    ensures { result ≡ length (all_left S.values_left S.pairs_left pairs.now) }
{
    match pairs {
        PairsLeft::Nothing => 0,
        PairsLeft::TwoByTwo(values) => S::count_values(values) / 2,
        PairsLeft::Entries(entries) => S::count_pairs(entries),
    }
}

/// Takes the next pair, or returns `None` if none is left.
#[inline(always)]
pub fn next_left<S: Source>(pairs: &mut PairsLeft<S::Values, S::Pairs>) -> Option<(S, S)>
    ensures { MatchOption result (all_left S.values_left S.pairs_left pairs.old ≡ [])
        (λ p. all_left S.values_left S.pairs_left pairs.old
        ≡ both S.seen p ∷ all_left S.values_left S.pairs_left pairs.new) }
{
    match pairs {
        PairsLeft::Nothing => None,
        PairsLeft::TwoByTwo(values) => {
            let key = S::next_value(values)?;
            let value = S::next_value(values)?;
            Some((key, value))
        }
        PairsLeft::Entries(entries) => S::next_pair(entries),
    }
}
