//! Entries of decoded replies, with their fields in order, also repeated ones. Names and values are any bytes.
ghost use Rattle.std.specs.Prelude.{◌≡◌, IfOk, IfErr, List, None, Option, Some, map, option_map, string_bytes, ℕ};
ghost use Rattle.std.specs.Option.{is_some};
ghost use Rattle.redis_resp.specs.Bytes.{bytes_reading};
ghost use Rattle.redis_resp.specs.Reading.{two_in, four_in, traverse, two_of};
ghost use Rattle.redis_resp.specs.Refusal.{OneRefused, Refuses};
ghost use Rattle.redis_resp.specs.Source.{all_left};
ghost use Rattle.redis_resp.specs.Value.{tree};
ghost use Rattle.stream_in_place.specs.Sent.{Pairs, SentEntry, SentAutoClaim};
ghost use Rattle.stream_in_place.specs.SentMeaning.{octet_pair, octet_pairs, sent_of, claim_of};
ghost use Rattle.stream_in_place.specs.SentReading.{octets_reading, octet_pairs_reading, sent_row_reading};
ghost use Rattle.stream_in_place.specs.SentReading.{sent_autoclaim_reading, there};
ghost use Rattle.stream_in_place.specs.SentRefusal.{RefusesOctets, RefusesOctetPair, RefusesOctetPairs};
ghost use Rattle.stream_in_place.specs.SentRefusal.{RefusesSentRow, RefusesSentAutoClaim};

use crate::entry::Delivery;
use redis_resp::{
    FromRedisValue, PairsLeft, ParsingError, RawBytes, Source, Value, count_left, into_four,
    into_pairs, into_two, next_left,
};
use std::alloc::Global;

/// Bytes: those of any bulk string, or else the text of the value. `NotText` for a value that
/// has no text.
#[derive(Debug, Drop)]
pub struct Octets(pub Vec<u8>);

/// Whether the value is a bulk string.
fn is_bulk(v: &Value) -> bool
    ensures { result ≡ is_some (bytes_reading (tree v.now)) }
{
    match v.as_plain() {
        Value::BulkString(_) => true,
        _ => false,
    }
}

/// Reads bytes. Those of an owned value are moved.
fn read_bytes<S: Source>(alloc: Global, v: S) -> Result<Octets, ParsingError>
    ensures ok { IfOk result (λ r. octets_reading (S.seen v) ≡ Some r.0.items) }
    ensures err { IfErr result (Refuses octets_reading RefusesOctets (S.seen v)) }
{
    if is_bulk(v.as_value()) {
        let bytes: RawBytes = v.read(alloc)?;
        return Ok(Octets(bytes.0));
    }
    let text: String = v.read(alloc)?;
    Ok(Octets(text.into_bytes()))
}

impl FromRedisValue for Octets {
    ghost Meaning = { List ℕ };

    ghost meaning = { λ o. o.0.items };

    ghost reading = { octets_reading };

    ghost may_refuse = { RefusesOctets };

    fn from_redis_value(alloc: Global, v: Value) -> Result<Octets, ParsingError> {
        read_bytes(alloc, v)
    }

    fn from_redis_value_ref(alloc: Global, v: &Value) -> Result<Octets, ParsingError> {
        read_bytes(alloc, v)
    }
}

/// Names and values, in order and with repeated ones. They are the pairs of a `Map`, or of an `Array` of even
/// length. `NotPairs` for any other kind or an odd length.
#[derive(Debug, Drop)]
pub struct OctetPairs(pub Vec<(Octets, Octets)>);

/// Reads each pair, in order.
fn read_octets<S: Source>(
    alloc: Global,
    mut entries: PairsLeft<S::Values, S::Pairs>,
) -> Result<Vec<(Octets, Octets)>, ParsingError>
    ensures ok { IfOk result (λ r. traverse (two_of octets_reading octets_reading)
        (all_left S.values_left S.pairs_left entries) ≡ Some (map octet_pair r.items)) }
    ensures err { IfErr result (Refuses (traverse (two_of octets_reading octets_reading))
        (OneRefused RefusesOctetPair) (all_left S.values_left S.pairs_left entries)) }
{
    let mut pairs = Vec::with_capacity(alloc, count_left::<S>(&entries))?;
    while let Some((name, value)) = next_left::<S>(&mut entries) {
        pairs.push(read_octet_pair(alloc, name, value)?)?;
    }
    Ok(pairs)
}

/// Reads a name and its value.
fn read_octet_pair<S: Source>(
    alloc: Global,
    name: S,
    value: S,
) -> Result<(Octets, Octets), ParsingError>
    ensures ok { IfOk result (λ r. two_of octets_reading octets_reading (S.seen name, S.seen value)
        ≡ Some (octet_pair r)) }
    ensures err { IfErr result (Refuses (two_of octets_reading octets_reading) RefusesOctetPair
        (S.seen name, S.seen value)) }
{
    let name: Octets = name.read(alloc)?;
    let value: Octets = value.read(alloc)?;
    Ok((name, value))
}

/// Reads names and values.
fn read_octet_pairs<S: Source>(alloc: Global, v: S) -> Result<OctetPairs, ParsingError>
    ensures ok { IfOk result (λ r. octet_pairs_reading (S.seen v) ≡ Some (octet_pairs r)) }
    ensures err { IfErr result (Refuses octet_pairs_reading RefusesOctetPairs (S.seen v)) }
{
    match into_pairs(v) {
        Some(pairs) => Ok(OctetPairs(read_octets::<S>(alloc, pairs)?)),
        None => Err(ParsingError::NotPairs),
    }
}

impl FromRedisValue for OctetPairs {
    ghost Meaning = { Pairs };

    ghost meaning = { octet_pairs };

    ghost reading = { octet_pairs_reading };

    ghost may_refuse = { RefusesOctetPairs };

    fn from_redis_value(alloc: Global, v: Value) -> Result<OctetPairs, ParsingError> {
        read_octet_pairs(alloc, v)
    }

    fn from_redis_value_ref(alloc: Global, v: &Value) -> Result<OctetPairs, ParsingError> {
        read_octet_pairs(alloc, v)
    }
}

/// An entry of a decoded reply, as the server sent it.
#[derive(Debug, Drop)]
pub struct SentRow {
    /// The id.
    pub id: String,
    /// The fields, in order and with repeated ones. `None` if the reply has nil in their place.
    pub fields: Option<OctetPairs>,
    /// When it was last delivered, and how many times, if the reply has it.
    pub delivery: Option<Delivery>,
}

/// Whether the value is an array of four elements.
fn has_four(v: &Value) -> bool
    ensures { result ≡ is_some (four_in (tree v.now)) }
{
    into_four(v).is_some()
}

/// Reads a row: an array of an id and fields, optionally followed by the two numbers of a delivery.
fn read_row<S: Source>(alloc: Global, v: S) -> Result<SentRow, ParsingError>
    ensures ok { IfOk result (λ r. sent_row_reading (S.seen v) ≡ Some (sent_of r)) }
    ensures err { IfErr result (Refuses sent_row_reading RefusesSentRow (S.seen v)) }
{
    if has_four(v.as_value()) {
        let (id, fields, elapsed, count): (String, Option<OctetPairs>, u64, u64) = v.read(alloc)?;
        return Ok(SentRow {
            id,
            fields,
            delivery: Some(Delivery { elapsed, count }),
        });
    }
    let (id, fields): (String, Option<OctetPairs>) = v.read(alloc)?;
    Ok(SentRow {
        id,
        fields,
        delivery: None,
    })
}

impl FromRedisValue for SentRow {
    ghost Meaning = { SentEntry };

    ghost meaning = { sent_of };

    ghost reading = { sent_row_reading };

    ghost may_refuse = { RefusesSentRow };

    fn from_redis_value(alloc: Global, v: Value) -> Result<SentRow, ParsingError> {
        read_row(alloc, v)
    }

    fn from_redis_value_ref(alloc: Global, v: &Value) -> Result<SentRow, ParsingError> {
        read_row(alloc, v)
    }
}

/// The decoded reply of XAUTOCLAIM, with its entries as the server sent them.
#[derive(Debug, Drop)]
pub struct SentClaim {
    /// The id from which the next XAUTOCLAIM continues; `0-0` once all pending entries were scanned.
    pub next: String,
    /// The entries that were claimed, in order, without those that are nil.
    pub claimed: Vec<SentRow>,
    /// The ids of entries that were pending and are no longer in the stream.
    pub deleted: Vec<String>,
}

/// The rows that are not `None`, in order.
fn count_rows_there(alloc: Global, rows: Vec<Option<SentRow>>) -> Result<Vec<SentRow>, ParsingError>
    ensures ok { IfOk result (λ r. map sent_of r.items ≡ there (map (option_map sent_of) rows.items)) }
    ensures err { IfErr result (λ e. e ≡ ParsingError.Memory) }
{
    let mut found = Vec::with_capacity(alloc, rows.len())?;
    for row in rows {
        if let Some(row) = row {
            found.push(row)?;
        }
    }
    Ok(found)
}

/// Whether the value is an array of two elements.
fn has_two(v: &Value) -> bool
    ensures { result ≡ is_some (two_in (tree v.now)) }
{
    into_two(v).is_some()
}

/// Reads the reply of XAUTOCLAIM.
fn read_claim<S: Source>(alloc: Global, v: S) -> Result<SentClaim, ParsingError>
    ensures ok { IfOk result (λ r. sent_autoclaim_reading (S.seen v) ≡ Some (claim_of r)) }
    ensures err { IfErr result (Refuses sent_autoclaim_reading RefusesSentAutoClaim (S.seen v)) }
{
    if has_two(v.as_value()) {
        let (next, rows): (String, Vec<Option<SentRow>>) = v.read(alloc)?;
        return Ok(SentClaim {
            next,
            claimed: count_rows_there(alloc, rows)?,
            deleted: Vec::new(alloc),
        });
    }
    let (next, rows, deleted): (String, Vec<Option<SentRow>>, Vec<String>) = v.read(alloc)?;
    Ok(SentClaim {
        next,
        claimed: count_rows_there(alloc, rows)?,
        deleted,
    })
}

impl FromRedisValue for SentClaim {
    ghost Meaning = { SentAutoClaim };

    ghost meaning = { claim_of };

    ghost reading = { sent_autoclaim_reading };

    ghost may_refuse = { RefusesSentAutoClaim };

    fn from_redis_value(alloc: Global, v: Value) -> Result<SentClaim, ParsingError> {
        read_claim(alloc, v)
    }

    fn from_redis_value_ref(alloc: Global, v: &Value) -> Result<SentClaim, ParsingError> {
        read_claim(alloc, v)
    }
}
