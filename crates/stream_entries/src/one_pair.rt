//! Rows of exactly one pair, which are read without a table.
ghost use Rattle.std.specs.Prelude.{◌≡◌, Some, IfOk, IfErr, option_map};
ghost use Rattle.redis_resp.specs.Source.{both};
ghost use Rattle.stream_entries.specs.ItemsLeft.{pair_in};

use redis_resp::{Source, count_left, into_pairs, next_left};

/// Returns the pair of a value that has exactly one. `None` for any other value.
#[tactic(auto, using(crate::proofs::ItemsLeftLemmas::one_pair))]
fn into_pair<S: Source>(v: S) -> Option<(S, S)>
    ensures { option_map (both S.seen) result ≡ pair_in (S.seen v) }
{
    let mut pairs = into_pairs(v)?;
    let first = next_left::<S>(&mut pairs)?;
    if count_left::<S>(&pairs) == 0 {
        Some(first)
    } else {
        None
    }
}

/// Returns the pair of a value that has exactly one, and any other value as it is. Taking the pairs
/// consumes the value, so the number of pairs is checked first.
pub(crate) fn into_one_pair<S: Source>(v: S) -> Result<(S, S), S>
    ensures pair { IfOk result (λ p. pair_in (S.seen v) ≡ Some (both S.seen p)) }
    ensures other { IfErr result (λ w. S.seen w ≡ S.seen v) }
{
    if into_pair(v.as_value()).is_none() {
        return Err(v);
    }
    let Some(pair) = into_pair(v) else {
        unreachable!()
    };
    Ok(pair)
}
