//! Finds the places of streams, with their entries.
ghost use Rattle.std.specs.Prelude.{◌≡◌, ◌≤◌, ◌+◌, ◌++◌, ℕ, List, IfOk, IfSome, IsOk, IsSomeAnd, drop, flat_map};
ghost use Rattle.std.specs.Prelude.{length};
ghost use Rattle.stream_in_place.specs.Counted.{HoldSoMany};
ghost use Rattle.stream_in_place.specs.Forms.{is_claim, is_map};
ghost use Rattle.stream_in_place.specs.Held.{none_held};
ghost use Rattle.stream_in_place.specs.Lent.{StreamsFit, EntriesFit, FieldsFit};
ghost use Rattle.stream_in_place.specs.Added.{IsStreamHead, StreamAdded, StreamsAdded};
ghost use Rattle.std.specs.List.{AllByRecursion};
ghost use Rattle.redis_wire.specs.Place.{EndsBefore};
ghost use Rattle.stream_in_place.specs.Sent.{SentStream, all_fields, all_entries, all_stream_fields};
ghost use Rattle.stream_in_place.specs.Shapes.{NilForm, stream_head, stream_bytes, AllowsRows, IsStreamOf};

use crate::form::{Form, Spelling};
use crate::places::{Places, StreamPlace};
use crate::rows::{add_entries, name_at};
use redis_wire::Limits;
use redis_wire::place::array_at;

/// Returns the offset after what precedes the name of a stream. In a map that is nothing. In an array it
/// is the header of the array of the name and the rows.
fn find_head_end(limits: Limits, bytes: &[u8], at: usize, spelling: Spelling) -> Option<usize>
    requires { at ≤ length bytes.now }
    ensures is { IfSome result (λ behind. IsStreamHead limits bytes.now at (is_map spelling) behind) }
    ensures found { (rest : List ℕ) → AllowsRows limits → drop at bytes.now ≡ stream_head (is_map spelling) ++ rest
        → IsSomeAnd result (EndsBefore bytes.now rest) }
{
    match spelling {
        Spelling::Map => Some(at),
        Spelling::Array => match array_at(limits, bytes, at)? {
            (2, behind) => Some(behind),
            _ => None,
        },
    }
}

/// Adds the entries of the stream at `at`, and returns the stream and the offset of its end.
fn add_stream<P: Places>(
    limits: Limits,
    bytes: &[u8],
    at: usize,
    spelling: Spelling,
    form: Form,
    places: &mut P,
) -> Result<Option<(StreamPlace, usize)>, P::Refusal>
    requires { at ≤ length bytes.now }
    ensures is { IfOk result (λ o. IfSome o (λ x.
        StreamAdded limits bytes.now at (is_map spelling) (is_claim form) x.1 x.0 (P.held places.old) (P.held places.new))) }
    ensures found { (nil : NilForm) (s : SentStream) (rest : List ℕ) → AllowsRows limits
        → IsStreamOf limits (is_claim form) s → drop at bytes.now ≡ stream_bytes (is_map spelling) nil s ++ rest
        → IfOk result (λ o. IsSomeAnd o (λ x. EndsBefore bytes.now rest x.1)) }
    ensures counts { (nil : NilForm) (s : SentStream) (rest : List ℕ) → AllowsRows limits
        → IsStreamOf limits (is_claim form) s → drop at bytes.now ≡ stream_bytes (is_map spelling) nil s ++ rest
        → IfOk result (λ o. IfSome o (λ _.
        (length (P.held places.new).entries ≡ length (P.held places.old).entries + length s.entries)
        × (length (P.held places.new).fields ≡ length (P.held places.old).fields + length (all_fields s.entries)))) }
    ensures fits { (nil : NilForm) (s : SentStream) (rest : List ℕ) → AllowsRows limits
        → IsStreamOf limits (is_claim form) s → drop at bytes.now ≡ stream_bytes (is_map spelling) nil s ++ rest
        → EntriesFit (P.lent places.old) (length (P.held places.old).entries + length s.entries)
        → FieldsFit (P.lent places.old) (length (P.held places.old).fields + length (all_fields s.entries))
        → IsOk result }
    ensures kept { P.lent places.new ≡ P.lent places.old }
{
    let Some(behind) = find_head_end(limits, bytes, at, spelling) else {
        return Ok(None);
    };
    let Some((name, behind)) = name_at(limits, bytes, behind) else {
        return Ok(None);
    };
    let Some((count, behind)) = array_at(limits, bytes, behind) else {
        return Ok(None);
    };
    let from = places.count_entries();
    let Some(after) = add_entries(limits, bytes, behind, form, count, places)? else {
        return Ok(None);
    };
    let to = places.count_entries();
    Ok(Some((StreamPlace { name, from, to }, after)))
}

/// Adds the `count` streams at `at`, with their entries and fields, to empty tables. Returns
/// the offset of their end.
pub fn add_streams<P: Places>(
    limits: Limits,
    bytes: &[u8],
    at: usize,
    spelling: Spelling,
    form: Form,
    count: u32,
    places: &mut P,
) -> Result<Option<usize>, P::Refusal>
    requires at { at ≤ length bytes.now }
    requires none { P.held places.old ≡ none_held }
    ensures is { IfOk result (λ o. IfSome o (λ after.
        StreamsAdded limits bytes.now at (is_map spelling) (is_claim form) count after (P.held places.new))) }
    ensures found { (nil : NilForm) (ss : List SentStream) (rest : List ℕ) → AllowsRows limits
        → AllByRecursion (IsStreamOf limits (is_claim form)) ss
        → drop at bytes.now ≡ flat_map (stream_bytes (is_map spelling) nil) ss ++ rest → count ≡ length ss
        → IfOk result (λ o. IsSomeAnd o (EndsBefore bytes.now rest)) }
    ensures counts { (nil : NilForm) (ss : List SentStream) (rest : List ℕ) → AllowsRows limits
        → AllByRecursion (IsStreamOf limits (is_claim form)) ss
        → drop at bytes.now ≡ flat_map (stream_bytes (is_map spelling) nil) ss ++ rest → count ≡ length ss
        → IfOk result (λ o. IfSome o (λ _. HoldSoMany (P.held places.new) ss)) }
    ensures fits { (nil : NilForm) (ss : List SentStream) (rest : List ℕ) → AllowsRows limits
        → AllByRecursion (IsStreamOf limits (is_claim form)) ss
        → drop at bytes.now ≡ flat_map (stream_bytes (is_map spelling) nil) ss ++ rest → count ≡ length ss
        → StreamsFit (P.lent places.old) (length ss) → EntriesFit (P.lent places.old) (length (all_entries ss))
        → FieldsFit (P.lent places.old) (length (all_stream_fields ss)) → IsOk result }
    ensures kept { P.lent places.new ≡ P.lent places.old }
{
    let mut behind = at;
    for _ in 0..count {
        let Some((stream, after)) = add_stream(limits, bytes, behind, spelling, form, places)?
        else {
            return Ok(None);
        };
        places.push_stream(stream)?;
        behind = after;
    }
    Ok(Some(behind))
}
