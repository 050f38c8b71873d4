//! Finds the places of the entries of a reply, in tables of any kind.
ghost use Rattle.std.specs.Prelude.{◌≡◌, ◌≤◌, ◌++◌, ℕ, Bool, List, IfOk, IfSome, IsOk, IsSome, IsSomeAnd, length, map};
ghost use Rattle.std.specs.Prelude.{Ok, None, true, false};
ghost use Rattle.stream_in_place.specs.Counted.{HoldSoMany};
ghost use Rattle.stream_in_place.specs.Forms.{is_claim};
ghost use Rattle.stream_in_place.specs.Held.{none_held};
ghost use Rattle.stream_in_place.specs.Lent.{StreamsFit, EntriesFit, FieldsFit};
ghost use Rattle.stream_in_place.specs.Placed.{entry_in, stream_in};
ghost use Rattle.stream_in_place.specs.Added.{IsFilled};
ghost use Rattle.stream_in_place.specs.Range.{IsRange, IsRead};
ghost use Rattle.stream_in_place.specs.Sent.{SentEntry, SentStream, all_fields, all_entries, all_stream_fields};
ghost use Rattle.stream_in_place.specs.Shapes.{as_array, as_map, BeginsAs, BeginsWithRange, BeginsWithStreams};

use crate::depth::{RANGE_DEPTH, STREAMS_DEPTH};
use crate::form::{Form, Spelling};
use crate::places::Places;
use crate::rows::add_entries;
use crate::streams::add_streams;
use redis_wire::Limits;
use redis_wire::place::{array_at, map_at, nil_at};

/// Finds the entries of the reply at the start of the bytes, and returns its length. The result is `None`
/// unless it has the shape that servers send for XRANGE, XREVRANGE and XCLAIM. With tables of the caller
/// no memory is allocated. No value is made, so `Limits::values` bounds nothing here.
pub fn find_range<P: Places>(
    limits: Limits,
    bytes: &[u8],
    places: &mut P,
) -> Result<Option<usize>, P::Refusal>
    ensures is { IfOk result (λ o. IfSome o (λ len. IsRange limits bytes.now
        (map (entry_in bytes.now (P.held places.new).fields) (P.held places.new).entries) len)) }
    ensures found { (es : List SentEntry) (len : ℕ) → BeginsWithRange limits bytes.now es len
        → IfOk result (λ o. IsSomeAnd o (λ n. (map (entry_in bytes.now (P.held places.new).fields)
        (P.held places.new).entries ≡ es) × (n ≡ len))) }
    ensures counts { (es : List SentEntry) (len : ℕ) → BeginsWithRange limits bytes.now es len
        → IfOk result (λ o. IfSome o (λ _. length (P.held places.new).fields ≡ length (all_fields es))) }
    ensures fits { (es : List SentEntry) (len : ℕ) → BeginsWithRange limits bytes.now es len
        → EntriesFit (P.lent places.old) (length es) → FieldsFit (P.lent places.old) (length (all_fields es))
        → IsOk result }
    ensures kept { P.lent places.new ≡ P.lent places.old }
{
    places.clear();
    if limits.depth < RANGE_DEPTH {
        return Ok(None);
    }
    let Some((count, at)) = array_at(limits, bytes, 0) else {
        return Ok(None);
    };
    add_entries(limits, bytes, at, Form::Standard, count, places)
}

/// Adds the streams of the array at the start of the bytes to empty tables, and returns its
/// length in bytes.
fn find_array<P: Places>(
    limits: Limits,
    bytes: &[u8],
    form: Form,
    places: &mut P,
) -> Result<Option<usize>, P::Refusal>
    requires deep { 6 ≤ limits.depth }
    requires none { P.held places.old ≡ none_held }
    ensures is { IfOk result (λ o. IfSome o (λ len.
        IsFilled limits bytes.now (is_claim form) len (P.held places.new))) }
    ensures found { (ss : List SentStream) → BeginsAs limits as_array (is_claim form) bytes.now ss
        → IfOk result (λ o. IsSome o) }
    ensures counts { (ss : List SentStream) → BeginsAs limits as_array (is_claim form) bytes.now ss
        → IfOk result (λ o. IfSome o (λ _. HoldSoMany (P.held places.new) ss)) }
    ensures fits { (ss : List SentStream) → BeginsAs limits as_array (is_claim form) bytes.now ss
        → StreamsFit (P.lent places.old) (length ss) → EntriesFit (P.lent places.old) (length (all_entries ss))
        → FieldsFit (P.lent places.old) (length (all_stream_fields ss)) → IsOk result }
    ensures no_map { (ss : List SentStream) → BeginsAs limits as_map (is_claim form) bytes.now ss → result ≡ Ok None }
    ensures kept { P.lent places.new ≡ P.lent places.old }
{
    let Some((count, at)) = array_at(limits, bytes, 0) else {
        return Ok(None);
    };
    add_streams(limits, bytes, at, Spelling::Array, form, count, places)
}

/// Adds the streams of the map at the start of the bytes to empty tables, and returns its
/// length in bytes.
fn find_map<P: Places>(
    limits: Limits,
    bytes: &[u8],
    form: Form,
    places: &mut P,
) -> Result<Option<usize>, P::Refusal>
    requires deep { 6 ≤ limits.depth }
    requires none { P.held places.old ≡ none_held }
    ensures is { IfOk result (λ o. IfSome o (λ len.
        IsFilled limits bytes.now (is_claim form) len (P.held places.new))) }
    ensures found { (ss : List SentStream) → BeginsAs limits as_map (is_claim form) bytes.now ss
        → IfOk result (λ o. IsSome o) }
    ensures counts { (ss : List SentStream) → BeginsAs limits as_map (is_claim form) bytes.now ss
        → IfOk result (λ o. IfSome o (λ _. HoldSoMany (P.held places.new) ss)) }
    ensures fits { (ss : List SentStream) → BeginsAs limits as_map (is_claim form) bytes.now ss
        → StreamsFit (P.lent places.old) (length ss) → EntriesFit (P.lent places.old) (length (all_entries ss))
        → FieldsFit (P.lent places.old) (length (all_stream_fields ss)) → IsOk result }
    ensures kept { P.lent places.new ≡ P.lent places.old }
{
    let Some((count, at)) = map_at(limits, bytes, 0) else {
        return Ok(None);
    };
    add_streams(limits, bytes, at, Spelling::Map, form, count, places)
}

/// Finds the streams of the reply at the start of the bytes, and returns its length in bytes.
pub fn find_form<P: Places>(
    limits: Limits,
    bytes: &[u8],
    form: Form,
    places: &mut P,
) -> Result<Option<usize>, P::Refusal>
    requires { 6 ≤ limits.depth }
    ensures is { IfOk result (λ o. IfSome o (λ len.
        IsFilled limits bytes.now (is_claim form) len (P.held places.new))) }
    ensures found { (ss : List SentStream) (len : ℕ) → BeginsWithStreams limits (is_claim form) bytes.now ss len
        → IfOk result (λ o. IsSome o) }
    ensures counts { (ss : List SentStream) (len : ℕ) → BeginsWithStreams limits (is_claim form) bytes.now ss len
        → IfOk result (λ o. IfSome o (λ _. HoldSoMany (P.held places.new) ss)) }
    ensures fits { (ss : List SentStream) (len : ℕ) → BeginsWithStreams limits (is_claim form) bytes.now ss len
        → StreamsFit (P.lent places.old) (length ss) → EntriesFit (P.lent places.old) (length (all_entries ss))
        → FieldsFit (P.lent places.old) (length (all_stream_fields ss)) → IsOk result }
    ensures kept { P.lent places.new ≡ P.lent places.old }
{
    places.clear();
    if let Some(len) = nil_at(limits, bytes, 0) {
        return Ok(Some(len));
    }
    if let Some(len) = find_array(limits, bytes, form, places)? {
        return Ok(Some(len));
    }
    places.clear();
    find_map(limits, bytes, form, places)
}

/// Finds the streams of the reply at the start of the bytes, and returns its length. The result is `None`
/// unless it has the shape that servers send for XREAD and XREADGROUP. With tables of the caller no
/// memory is allocated. No value is made, so `Limits::values` bounds nothing here.
pub fn find_streams<P: Places>(
    limits: Limits,
    bytes: &[u8],
    places: &mut P,
) -> Result<Option<usize>, P::Refusal>
    ensures is { IfOk result (λ o. IfSome o (λ len. IsRead limits bytes.now
        (map (stream_in bytes.now (P.held places.new).entries (P.held places.new).fields)
        (P.held places.new).streams) len)) }
    ensures found { (ss : List SentStream) (len : ℕ) → BeginsWithStreams limits false bytes.now ss len
        → IfOk result (λ o. IsSomeAnd o (λ n. (map (stream_in bytes.now (P.held places.new).entries
        (P.held places.new).fields) (P.held places.new).streams ≡ ss) × (n ≡ len))) }
    ensures counts { (ss : List SentStream) (len : ℕ) → BeginsWithStreams limits false bytes.now ss len
        → IfOk result (λ o. IfSome o (λ _. HoldSoMany (P.held places.new) ss)) }
    ensures fits { (ss : List SentStream) (len : ℕ) → BeginsWithStreams limits false bytes.now ss len
        → StreamsFit (P.lent places.old) (length ss) → EntriesFit (P.lent places.old) (length (all_entries ss))
        → FieldsFit (P.lent places.old) (length (all_stream_fields ss)) → IsOk result }
    ensures kept { P.lent places.new ≡ P.lent places.old }
{
    if limits.depth < STREAMS_DEPTH {
        return Ok(None);
    }
    find_form(limits, bytes, Form::Standard, places)
}

/// Finds the streams of the reply at the start of the bytes, as `find_streams` does, if each row has the
/// claim form. After the fields such a row has the milliseconds since the last delivery, and the delivery
/// count. Servers send this form for XREADGROUP with `CLAIM`.
pub fn find_claimed_streams<P: Places>(
    limits: Limits,
    bytes: &[u8],
    places: &mut P,
) -> Result<Option<usize>, P::Refusal>
    ensures is { IfOk result (λ o. IfSome o (λ len. IsRead limits bytes.now
        (map (stream_in bytes.now (P.held places.new).entries (P.held places.new).fields)
        (P.held places.new).streams) len)) }
    ensures found { (ss : List SentStream) (len : ℕ) → BeginsWithStreams limits true bytes.now ss len
        → IfOk result (λ o. IsSomeAnd o (λ n. (map (stream_in bytes.now (P.held places.new).entries
        (P.held places.new).fields) (P.held places.new).streams ≡ ss) × (n ≡ len))) }
    ensures counts { (ss : List SentStream) (len : ℕ) → BeginsWithStreams limits true bytes.now ss len
        → IfOk result (λ o. IfSome o (λ _. HoldSoMany (P.held places.new) ss)) }
    ensures fits { (ss : List SentStream) (len : ℕ) → BeginsWithStreams limits true bytes.now ss len
        → StreamsFit (P.lent places.old) (length ss) → EntriesFit (P.lent places.old) (length (all_entries ss))
        → FieldsFit (P.lent places.old) (length (all_stream_fields ss)) → IsOk result }
    ensures kept { P.lent places.new ≡ P.lent places.old }
{
    if limits.depth < STREAMS_DEPTH {
        return Ok(None);
    }
    find_form(limits, bytes, Form::Claim, places)
}

/// Finds the streams of the reply at the start of the bytes, in the standard form or else in the claim form.
/// Returns the form and the length in bytes.
pub fn find_either_form<P: Places>(
    limits: Limits,
    bytes: &[u8],
    places: &mut P,
) -> Result<Option<(Form, usize)>, P::Refusal>
    requires { 6 ≤ limits.depth }
    ensures is { IfOk result (λ o. IfSome o (λ x.
        IsFilled limits bytes.now (is_claim x.0) x.1 (P.held places.new))) }
    ensures found { (claim : Bool) (ss : List SentStream) (len : ℕ)
        → BeginsWithStreams limits claim bytes.now ss len → IfOk result (λ o. IsSome o) }
    ensures kept { P.lent places.new ≡ P.lent places.old }
{
    if let Some(len) = find_form(limits, bytes, Form::Standard, places)? {
        return Ok(Some((Form::Standard, len)));
    }
    match find_form(limits, bytes, Form::Claim, places)? {
        None => Ok(None),
        Some(len) => Ok(Some((Form::Claim, len))),
    }
}
