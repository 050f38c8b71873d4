//! Laws of the replies, each a function whose contract depends on the definitions alone.
//!
//! RESP2 and RESP3 spell a list of pairs in two ways: as an array of even length, and as a map. They spell
//! a list as an array, a set or a map's pairs. The four laws of respelling give the positions in a
//! reply where one may replace the other: both values then read as one record, or both as none.
ghost use Rattle.std.specs.Prelude.{◌≡◌, ◌↔◌, IsTrue};
ghost use Rattle.redis_streams.specs.AutoClaimLaws.{InvalidEntriesTellNil};
ghost use Rattle.redis_streams.specs.Info.{
  consumer_reading,
  group_reading,
  stream_reading,
  tracked_reading,
};
ghost use Rattle.redis_streams.specs.InfoFull.{
  full_consumer_reading,
  full_group_reading,
  full_reading,
};
ghost use Rattle.redis_streams.specs.OtherKeys.{
  HasMoreInStream,
  MoreChangesNothing,
  OtherKeysChangeNothing,
  consumer_names,
  full_consumer_names,
  full_group_names,
  full_names,
  group_names,
  stream_names,
  tracked_names,
};
ghost use Rattle.stream_entries.specs.AutoClaim.{autoclaim_reading};
ghost use Rattle.stream_entries.specs.OverlapLaws.{
  BothRecordsAreShape,
  ClaimIsGiven,
  EachEntryIsRead,
  RecordsDiffer,
  StandardIsGiven,
};
ghost use Rattle.stream_entries.specs.Read.{read_reading, standard_reading};
ghost use Rattle.stream_entries.specs.Respelling.{AutoclaimAlike, ClaimAlike, RangeAlike, ReadAlike};
ghost use Rattle.stream_entries.specs.RespellingLaws.{
  HoldsOfEqual,
  IsSymmetric,
  KeepsRecord,
  ProtocolsAreAlike,
};
ghost use Rattle.stream_entries.specs.Rows.{rows_reading};

use crate::status::{XAckDelStatusCode, XDelExStatusCode};
pub use stream_entries::{copied_forms, equal_read_forms};

/// The meaning of `invalid_entries` if each item of the claimed list is nil, one id or a row of
/// one pair: it is true exactly if an item is nil. It allocates no memory.
#[tactic(auto, using(crate::proofs::AutoClaimLawLemmas::invalid_entries))]
pub fn invalid_entries_tell_nil()
    ensures { InvalidEntriesTellNil }
{}

/// Other keys are ignored: an additional pair, at any position, whose key is a text and none of the
/// names read, does not change the reading. That holds of a stream, a stream with its producers, a
/// consumer and a group in the replies of XINFO. The function does nothing; its clauses are the law.
pub fn other_keys_change_nothing()
    ensures stream { OtherKeysChangeNothing stream_names stream_reading }
    ensures tracked { OtherKeysChangeNothing tracked_names tracked_reading }
    ensures consumer { OtherKeysChangeNothing consumer_names consumer_reading }
    ensures group { OtherKeysChangeNothing group_names group_reading }
{}

/// Pairs with other keys do not change the reading of the reply to XINFO STREAM FULL: of the stream,
/// of a group and of a consumer. A pair that a newer server adds to any of the three does not change
/// the reading of the whole reply.
pub fn other_keys_change_nothing_in_full()
    ensures whole { MoreChangesNothing HasMoreInStream full_reading }
    ensures stream { OtherKeysChangeNothing full_names full_reading }
    ensures group { OtherKeysChangeNothing full_group_names full_group_reading }
    ensures consumer { OtherKeysChangeNothing full_consumer_names full_consumer_reading }
{}

/// A reply to XRANGE or XREVRANGE may be respelled at the list of rows, the rows and the
/// fields: both then read as one record or both as none. The relation holds of equal values, and in both
/// directions. It allocates no memory.
#[tactic(auto, using(stream_entries::proofs::RespellingLemmas::range_laws))]
pub fn respell_range()
    ensures record { KeepsRecord RangeAlike rows_reading }
    ensures equal { HoldsOfEqual RangeAlike }
    ensures symmetric { IsSymmetric RangeAlike }
{}

/// A reply to XCLAIM has one record in every spelling. The law allocates no memory.
#[tactic(auto, using(stream_entries::proofs::RespellingLemmas::claim_laws))]
pub fn respell_claim()
    ensures record { KeepsRecord ClaimAlike rows_reading }
    ensures equal { HoldsOfEqual ClaimAlike }
    ensures symmetric { IsSymmetric ClaimAlike }
{}

/// A reply to XREAD or XREADGROUP has one record in every spelling of the list of rows, the rows,
/// the lists of entries and the fields. At the entries too, if the value has a standard record:
/// an entry of the claim form is an array of four in every spelling. Both values then have the same standard
/// record or both none, which is why the relation has no direction. The array of rows of RESP2 and the
/// map of RESP3 are such values. It allocates no memory.
#[tactic(auto, using(stream_entries::proofs::RespellingLemmas::read_laws))]
pub fn respell_read()
    ensures record { KeepsRecord ReadAlike read_reading }
    ensures standard { KeepsRecord ReadAlike standard_reading }
    ensures equal { HoldsOfEqual ReadAlike }
    ensures symmetric { IsSymmetric ReadAlike }
    ensures protocols { ProtocolsAreAlike }
{}

/// A reply to XAUTOCLAIM has one record in every spelling of the fields of claimed rows. The rows are
/// arrays in both values, or maps in both, with no attribute around them. The law allocates no memory.
#[tactic(auto, using(crate::proofs::AutoclaimRespellingLemmas::autoclaim_laws))]
pub fn respell_autoclaim()
    ensures record { KeepsRecord AutoclaimAlike autoclaim_reading }
    ensures equal { HoldsOfEqual AutoclaimAlike }
    ensures symmetric { IsSymmetric AutoclaimAlike }
{}

/// A read has both a standard and a claim record exactly if its skeleton is readable and
/// each entry is an array of four: a text, fields, a number and nil. In the standard record such an
/// entry gives its id with the fields, and its number's text without fields (the second alone if the
/// two texts are equal). In the claim record it gives one delivered entry. So the records differ
/// exactly if a list that a row's table keeps has an entry. It allocates no memory.
#[tactic(auto, using(stream_entries::proofs::OverlapLemmas::overlap_laws))]
pub fn overlap()
    ensures shape { BothRecordsAreShape }
    ensures entries { EachEntryIsRead }
    ensures standard { StandardIsGiven }
    ensures claim { ClaimIsGiven }
    ensures differ { RecordsDiffer }
{}

/// `==` holds of two codes of XDELEX exactly if they are the same. It allocates no memory.
pub fn equal_deletions(a: XDelExStatusCode, b: XDelExStatusCode) -> bool
    ensures { IsTrue result ↔ (a ≡ b) }
{
    a == b
}

/// `==` holds of two codes of XACKDEL exactly if they are the same. It allocates no memory.
pub fn equal_acknowledgements(a: XAckDelStatusCode, b: XAckDelStatusCode) -> bool
    ensures { IsTrue result ↔ (a ≡ b) }
{
    a == b
}
