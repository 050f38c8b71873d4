//! The laws of the arguments of options, over the definitions alone: what they determine, and what
//! the order of calls means.
//!
//! The *arguments* of settings are the list that they write. A *free rest* is no argument, or
//! arguments the first of which is none of the fixed words of the type. Numbers are in the ranges of
//! their types, and texts are UTF-8.
ghost use Rattle.std.specs.Prelude.{◌≡◌, ◌↔◌, IsTrue, Ok};
ghost use Rattle.stream_options.specs.Add.{AddFits, add_sentence, add_words};
ghost use Rattle.stream_options.specs.AddCalls.{final_add};
ghost use Rattle.stream_options.specs.AutoClaim.{AutoClaimFits, autoclaim_sentence, autoclaim_words};
ghost use Rattle.stream_options.specs.AutoClaimCalls.{final_autoclaim};
ghost use Rattle.stream_options.specs.Claim.{ClaimFits, claim_sentence, claim_words};
ghost use Rattle.stream_options.specs.ClaimCalls.{final_claim};
ghost use Rattle.stream_options.specs.Config.{IsConfig, config_sentence, config_words};
ghost use Rattle.stream_options.specs.ConfigCalls.{final_config};
ghost use Rattle.stream_options.specs.Idempotency.{IdempotencyFits, idempotency_sentence, idempotency_words};
ghost use Rattle.stream_options.specs.Laws.{Any, Equal, Determines, IsExact, LastCallWins, SettersCommute};
ghost use Rattle.stream_options.specs.Maxlen.{MaxlenFits, maxlen_sentence, maxlen_words};
ghost use Rattle.stream_options.specs.Nack.{nack_sentence, nack_words};
ghost use Rattle.stream_options.specs.Policy.{policy_sentence, policy_words};
ghost use Rattle.stream_options.specs.Read.{Read, ReadFits, CountAlike, read_sentence, read_words};
ghost use Rattle.stream_options.specs.ReadCalls.{final_read};
ghost use Rattle.stream_options.specs.StrategyCalls.{final_strategy};
ghost use Rattle.stream_options.specs.Trim.{mode_sentence, mode_words, StrategyFits, strategy_sentence, strategy_words, TrimFits, trim_sentence, trim_words};
ghost use Rattle.stream_options.specs.TrimCalls.{final_trim};

use crate::options::{ConfigError, StreamDeletionPolicy, StreamMaxlen, StreamNackMode};
use std::alloc::AllocError;

/// The arguments of a `StreamMaxlen`, before any free rest, determine it and the rest. Equal settings
/// are those with equal arguments.
#[tactic(auto, using(crate::proofs::UniqueDecoding::maxlen_law))]
pub fn unique_maxlen()
    ensures determined { Determines MaxlenFits maxlen_sentence maxlen_words Equal }
    ensures exact { IsExact MaxlenFits maxlen_sentence Equal }
{}

/// The word of a `StreamTrimmingMode`, before any free rest, determines it and the rest. Equal
/// settings are those with equal words.
#[tactic(auto, using(crate::proofs::UniqueDecoding::mode_law))]
pub fn unique_mode()
    ensures determined { Determines Any mode_sentence mode_words Equal }
    ensures exact { IsExact Any mode_sentence Equal }
{}

/// The arguments of a `StreamTrimStrategy`, before any free rest, determine its settings and the
/// rest. Settings are equal exactly if their arguments are.
#[tactic(auto, using(crate::proofs::UniqueDecoding::strategy_law))]
pub fn unique_strategy()
    ensures determined { Determines StrategyFits strategy_sentence strategy_words Equal }
    ensures exact { IsExact StrategyFits strategy_sentence Equal }
{}

/// The arguments of `StreamTrimOptions`, before any free rest, determine their settings and the
/// rest. Settings are equal exactly if their arguments are.
#[tactic(auto, using(crate::proofs::UniqueDecoding::trim_law))]
pub fn unique_trim()
    ensures determined { Determines TrimFits trim_sentence trim_words Equal }
    ensures exact { IsExact TrimFits trim_sentence Equal }
{}

/// The arguments of a `StreamIdempotencyMode`, before any free rest, determine its ids and the
/// rest. Settings are equal exactly if their arguments are.
#[tactic(auto, using(crate::proofs::UniqueDecoding::idempotency_law))]
pub fn unique_idempotency()
    ensures determined { Determines IdempotencyFits idempotency_sentence idempotency_words Equal }
    ensures exact { IsExact IdempotencyFits idempotency_sentence Equal }
{}

/// The arguments of `StreamConfigOptions`, before any free rest, determine their settings and the
/// rest. Settings are in the ranges of the configuration, and at least one is set. Equal settings
/// are those with equal arguments.
#[tactic(auto, using(crate::proofs::UniqueDecoding::config_law))]
pub fn unique_config()
    ensures determined { Determines IsConfig config_sentence config_words Equal }
    ensures exact { IsExact IsConfig config_sentence Equal }
{}

/// The arguments of `StreamAddOptions`, before any free rest, determine their settings and the
/// rest. Settings are equal exactly if their arguments are.
#[tactic(auto, using(crate::proofs::UniqueDecoding::add_law))]
pub fn unique_add()
    ensures determined { Determines AddFits add_sentence add_words Equal }
    ensures exact { IsExact AddFits add_sentence Equal }
{}

/// The arguments of `StreamAutoClaimOptions`, before any free rest, determine their settings and
/// the rest. Settings are equal exactly if their arguments are.
#[tactic(auto, using(crate::proofs::UniqueDecoding::autoclaim_law))]
pub fn unique_autoclaim()
    ensures determined { Determines AutoClaimFits autoclaim_sentence autoclaim_words Equal }
    ensures exact { IsExact AutoClaimFits autoclaim_sentence Equal }
{}

/// The arguments of `StreamClaimOptions`, before any free rest, determine their settings and the
/// rest. Settings are equal exactly if their arguments are.
#[tactic(auto, using(crate::proofs::UniqueDecoding::claim_law))]
pub fn unique_claim()
    ensures determined { Determines ClaimFits claim_sentence claim_words Equal }
    ensures exact { IsExact ClaimFits claim_sentence Equal }
{}

/// The arguments of `StreamReadOptions` with single names, before any free rest, determine the rest
/// and the settings that count: the group, the block and the count, and if a group is set also noack
/// and claim. The settings that count are equal exactly if the arguments are. Equal ones have equal
/// arguments also if names are not single.
#[tactic(auto, using(crate::proofs::UniqueDecoding::read_law))]
pub fn unique_read()
    ensures determined { Determines ReadFits read_sentence read_words CountAlike }
    ensures exact { IsExact ReadFits read_sentence CountAlike }
    ensures alike { (a b : Read) → CountAlike a b → read_sentence a ≡ read_sentence b }
{}

/// The word of a `StreamDeletionPolicy`, before any free rest, determines it and the rest. Equal
/// settings are those with equal words.
#[tactic(auto, using(crate::proofs::UniqueDecoding::policy_law))]
pub fn unique_policy()
    ensures determined { Determines Any policy_sentence policy_words Equal }
    ensures exact { IsExact Any policy_sentence Equal }
{}

/// The word of `StreamNackOptions` and of a `StreamNackMode`, before any free rest, determines it
/// and the rest. Settings are equal exactly if their words are.
#[tactic(auto, using(crate::proofs::UniqueDecoding::nack_law))]
pub fn unique_nack()
    ensures determined { Determines Any nack_sentence nack_words Equal }
    ensures exact { IsExact Any nack_sentence Equal }
{}

/// Of two calls in a row that name one setting, the first may be removed: no final setting changes,
/// anywhere in a list of calls, whatever options the list starts from.
///
/// A call is the pair of the setting that it names and its value: of `StreamTrimStrategy` the call
/// `limit`; of `StreamTrimOptions` the calls `limit` and `set_deletion_policy`; of
/// `StreamAddOptions`, where `idmp` and `idmpauto` name one setting, and `trim` names a strategy
/// with its limit; the accepted calls of `StreamConfigOptions`; and the calls of
/// `StreamAutoClaimOptions`, of `StreamClaimOptions` and of `StreamReadOptions`, where `group` names
/// both names.
#[tactic(auto, using(crate::proofs::CallLemmas::last_wins))]
pub fn last_call_wins()
    ensures strategy { LastCallWins final_strategy }
    ensures trim { LastCallWins final_trim }
    ensures add { LastCallWins final_add }
    ensures config { LastCallWins final_config }
    ensures autoclaim { LastCallWins final_autoclaim }
    ensures claim { LastCallWins final_claim }
    ensures read { LastCallWins final_read }
{}

/// Two adjacent calls that name different settings may be swapped: no final setting changes,
/// anywhere in a list of calls, whatever options the list starts from.
///
/// It applies to the same calls as [`last_call_wins`]: those of `StreamTrimStrategy`, of which no two
/// name different settings, `StreamTrimOptions`, `StreamAddOptions`, `StreamConfigOptions`,
/// `StreamAutoClaimOptions`, `StreamClaimOptions` and `StreamReadOptions`.
#[tactic(auto, using(crate::proofs::CallLemmas::commute))]
pub fn setters_commute()
    ensures strategy { SettersCommute final_strategy }
    ensures trim { SettersCommute final_trim }
    ensures add { SettersCommute final_add }
    ensures config { SettersCommute final_config }
    ensures autoclaim { SettersCommute final_autoclaim }
    ensures claim { SettersCommute final_claim }
    ensures read { SettersCommute final_read }
{}

/// `==` holds of two `StreamMaxlen` exactly if they are the same. It allocates no memory.
pub fn equal_maxlens(a: StreamMaxlen, b: StreamMaxlen) -> bool
    ensures { IsTrue result ↔ (a ≡ b) }
{
    a == b
}

/// `==` holds of two `StreamNackMode` exactly if they are the same. It allocates no memory.
pub fn equal_nack_modes(a: StreamNackMode, b: StreamNackMode) -> bool
    ensures { IsTrue result ↔ (a ≡ b) }
{
    a == b
}

/// `==` holds of two `ConfigError` exactly if they are the same. It allocates no memory.
pub fn equal_config_errors(a: &ConfigError, b: &ConfigError) -> bool
    ensures { IsTrue result ↔ (a.now ≡ b.now) }
{
    a == b
}

/// Returns a copy of a `StreamMaxlen`, equal to it. It allocates no memory and is always Ok.
pub fn copied_maxlen(maxlen: &StreamMaxlen) -> Result<StreamMaxlen, AllocError>
    ensures { result ≡ Ok maxlen.now }
{
    maxlen.clone()
}

/// Returns a copy of a `StreamNackMode`, equal to it. It allocates no memory and is always Ok.
pub fn copied_nack_mode(mode: &StreamNackMode) -> Result<StreamNackMode, AllocError>
    ensures { result ≡ Ok mode.now }
{
    mode.clone()
}

/// Returns a copy of a `StreamDeletionPolicy`, equal to it. It allocates no memory and is always Ok.
pub fn copied_policy(policy: &StreamDeletionPolicy) -> Result<StreamDeletionPolicy, AllocError>
    ensures { result ≡ Ok policy.now }
{
    policy.clone()
}
