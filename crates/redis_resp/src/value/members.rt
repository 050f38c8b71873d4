//! The members of arrays of a fixed length.
ghost use Rattle.std.specs.Prelude.{◌≡◌, option_map};
ghost use Rattle.redis_resp.specs.Reading.{two_in, three_in, four_in};
ghost use Rattle.redis_resp.specs.Source.{both, all_three, all_four};

use crate::value::source::Source;

/// Returns the members of an `Array` of exactly two, whatever attributes are around it, or `None` for
/// any other value. It allocates no memory.
pub fn into_two<S: Source>(v: S) -> Option<(S, S)>
    ensures { option_map (both S.seen) result ≡ two_in (S.seen v) }
{
    let mut values = v.into_plain().into_array()?;
    if S::count_values(&values) > 2 {
        return None;
    }
    let a = S::next_value(&mut values)?;
    let b = S::next_value(&mut values)?;
    Some((a, b))
}

/// Returns the members of an `Array` of exactly three, whatever attributes are around it, or `None`
/// for any other value. It allocates no memory.
pub fn into_three<S: Source>(v: S) -> Option<(S, S, S)>
    ensures { option_map (all_three S.seen) result ≡ three_in (S.seen v) }
{
    let mut values = v.into_plain().into_array()?;
    if S::count_values(&values) > 3 {
        return None;
    }
    let a = S::next_value(&mut values)?;
    let b = S::next_value(&mut values)?;
    let c = S::next_value(&mut values)?;
    Some((a, b, c))
}

/// Returns the members of an `Array` of exactly four, whatever attributes are around it, or `None`
/// for any other value. It allocates no memory.
pub fn into_four<S: Source>(v: S) -> Option<(S, S, S, S)>
    ensures { option_map (all_four S.seen) result ≡ four_in (S.seen v) }
{
    let mut values = v.into_plain().into_array()?;
    if S::count_values(&values) > 4 {
        return None;
    }
    let a = S::next_value(&mut values)?;
    let b = S::next_value(&mut values)?;
    let c = S::next_value(&mut values)?;
    let d = S::next_value(&mut values)?;
    Some((a, b, c, d))
}
