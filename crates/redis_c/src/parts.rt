//! Parsed settings as plain numbers, flags and places. The texts are at the places of the arguments.
ghost use Rattle.std.specs.Prelude.{◌≡◌, ◌≢◌, List, ℕ, Some, drop, codes, is_some, option_map, string_bytes, IfSome};
ghost use Rattle.std.specs.Str.{IsUtf8};
ghost use Rattle.redis_args.specs.Clause.{clause, flag, word_number, word_text};
ghost use Rattle.stream_options.specs.Add.{AddFits, add_sentence};
ghost use Rattle.stream_options.specs.Claim.{ClaimFits, claim_sentence};
ghost use Rattle.stream_options.specs.Idempotency.{IdempotencyFits, idempotency_sentence};
ghost use Rattle.stream_options.specs.Laws.{Any};
ghost use Rattle.stream_options.specs.Policy.{policy_sentence};
ghost use Rattle.stream_options.specs.Read.{group_sentence};
ghost use Rattle.stream_options.specs.Trim.{StrategyFits, TrimFits, strategy_sentence, trim_sentence};
ghost use Rattle.stream_options.specs.View.{idempotency_of, mode_of, policy_of, strategy_of};
ghost use Rattle.stream_option_parsing.specs.Parts as told;
ghost use Rattle.redis_c.specs.Outcome.{nowhere};
ghost use Rattle.redis_c.specs.Parts.{first_place, asked_by, asked_of, group_in, Skips, Tells};
ghost use Rattle.redis_c.specs.Plain.{IsZeroUnless, IsNowhereUnless, IsPlainTrim, IsPlainAdd, IsPlainClaim};
ghost use Rattle.redis_c.specs.Plain.{IsPlainAutoClaim, IsPlainRead, IsPlainGroup};
ghost use Rattle.redis_c.specs.Settings.{if_set, lastid_by, claim_in, autoclaim_of, policy_by, mode_by, strategy_in};
ghost use Rattle.redis_c.specs.Settings.{any_strategy_in, trim_in, add_in, idempotency_by};

use crate::commands::ReadSettings;
use crate::server::GroupPlace;
use crate::settings::{AddSettings, AutoClaimSettings, ClaimSettings, TrimSettings};
use redis_wire::place::Span;
use stream_option_parsing::{
    AddParts, AutoClaimParts, ClaimParts, GroupNames, ReadParts, TrimParts,
};
use stream_options::{
    StreamDeletionPolicy, StreamIdempotencyMode, StreamTrimStrategy, StreamTrimmingMode,
};

/// The empty place, for no text.
fn build_empty_place() -> Span
    ensures { result ≡ nowhere }
{
    Span { start: 0, len: 0 }
}

/// The place at index `n`.
fn get_place(places: &[Span], n: usize) -> Span
    ensures { result ≡ first_place (drop n places.now) }
{
    match skip_places(places, n) {
        [place, ..] => *place,
        [] => build_empty_place(),
    }
}

/// The places from index `n` on.
fn skip_places(places: &[Span], n: usize) -> &[Span]
    ensures { result.now ≡ drop n places.now }
{
    match places.get(n..) {
        Some(rest) => rest,
        None => &[],
    }
}

/// The places after a word, if it is present.
fn skip_flag(places: &[Span], is_there: bool) -> &[Span]
    ensures { (word : List ℕ) → Skips (flag word is_there) places.now result.now }
{
    if is_there {
        skip_places(places, 1)
    } else {
        places
    }
}

/// The places after a word and its number, if they are present.
fn skip_number(places: &[Span], number: Option<usize>) -> &[Span]
    ensures { (word : List ℕ) → Skips (clause (word_number word) number) places.now result.now }
{
    match number {
        Some(_) => skip_places(places, 2),
        None => places,
    }
}

/// Whether the number is set, and the number, or 0.
fn set_number(number: Option<usize>) -> (bool, usize)
    ensures plain { IsZeroUnless result.0 result.1 }
    ensures is { if_set result.0 result.1 ≡ number }
{
    match number {
        Some(n) => (true, n),
        None => (false, 0),
    }
}

/// What happens to deleted entries in the pending lists of groups, as a number.
fn get_policy_number(policy: &Option<StreamDeletionPolicy>) -> u32
    ensures { policy_by result ≡ Some (option_map policy_of policy.now) }
{
    match policy {
        None => 0,
        Some(StreamDeletionPolicy::KeepRef) => 1,
        Some(StreamDeletionPolicy::DelRef) => 2,
        Some(StreamDeletionPolicy::Acked) => 3,
    }
}

/// Whether the trimming may keep more entries.
fn is_approximate(mode: &StreamTrimmingMode) -> bool
    ensures { mode_by result ≡ mode_of mode.now }
{
    match mode {
        StreamTrimmingMode::Exact => false,
        StreamTrimmingMode::Approx => true,
    }
}

/// The settings without a bound, a limit or a policy.
fn build_untrimmed() -> TrimSettings
    ensures bound { result.bound ≡ 0 }
    ensures plain { IsPlainTrim result }
{
    TrimSettings {
        bound: 0,
        policy: 0,
        approximate: false,
        has_limit: false,
        maxlen: 0,
        minid: build_empty_place(),
        limit: 0,
    }
}

/// How a stream is trimmed, without the policy. The places are those of the strategy and what follows.
fn build_strategy_settings(strategy: &StreamTrimStrategy, places: &[Span]) -> TrimSettings
    ensures bound { result.bound ≢ 0 }
    ensures plain { IsPlainTrim result }
    ensures is { Tells StrategyFits strategy_sentence (λ bytes. strategy_in bytes result)
        (strategy_of strategy.now) places.now }
{
    let mut settings = build_untrimmed();
    match strategy {
        StreamTrimStrategy::MaxLen(mode, maxlen, limit) => {
            settings.bound = 1;
            settings.approximate = is_approximate(mode);
            settings.maxlen = *maxlen;
            (settings.has_limit, settings.limit) = set_number(*limit);
        }
        StreamTrimStrategy::MinId(mode, _, limit) => {
            settings.bound = 2;
            settings.approximate = is_approximate(mode);
            settings.minid = get_place(places, 2);
            (settings.has_limit, settings.limit) = set_number(*limit);
        }
    }
    settings
}

/// How a stream is trimmed, without the policy, if it is trimmed.
fn build_any_strategy_settings(
    strategy: &Option<StreamTrimStrategy>,
    places: &[Span],
) -> TrimSettings
    ensures plain { IsPlainTrim result }
    ensures is { Tells (λ x. IfSome x StrategyFits) (clause strategy_sentence)
        (λ bytes. any_strategy_in bytes result) (option_map strategy_of strategy.now) places.now }
{
    match strategy {
        Some(strategy) => build_strategy_settings(strategy, places),
        None => build_untrimmed(),
    }
}

/// How a stream is trimmed, by the places of the arguments.
pub fn build_trim_settings(parts: &TrimParts, places: &[Span]) -> TrimSettings
    ensures plain { IsPlainTrim result }
    ensures is { Tells TrimFits trim_sentence (λ bytes. trim_in bytes result)
        (told.trim_of parts.now) places.now }
{
    let mut settings = build_strategy_settings(&parts.strategy, places);
    settings.policy = get_policy_number(&parts.policy);
    settings
}

/// How the server detects duplicates, and the places of the texts for it.
fn build_idempotency_settings(mode: &StreamIdempotencyMode, places: &[Span]) -> (u32, Span, Span)
    ensures producer { result.0 ≢ 0 }
    ensures idempotent_id { result.0 ≢ 1 → result.2 ≡ nowhere }
    ensures is { Tells (λ x. IfSome x IdempotencyFits) (clause idempotency_sentence)
        (λ bytes. idempotency_by bytes result.0 result.1 result.2) (Some (idempotency_of mode.now))
        places.now }
{
    match mode {
        StreamIdempotencyMode::Manual { .. } => (1, get_place(places, 1), get_place(places, 2)),
        StreamIdempotencyMode::Automatic { .. } => (2, get_place(places, 1), build_empty_place()),
    }
}

/// The same, if the server detects duplicates.
fn build_any_idempotency_settings(
    mode: &Option<StreamIdempotencyMode>,
    places: &[Span],
) -> (u32, Span, Span)
    ensures producer { result.0 ≡ 0 → result.1 ≡ nowhere }
    ensures idempotent_id { result.0 ≢ 1 → result.2 ≡ nowhere }
    ensures is { Tells (λ x. IfSome x IdempotencyFits) (clause idempotency_sentence)
        (λ bytes. idempotency_by bytes result.0 result.1 result.2) (option_map idempotency_of mode.now)
        places.now }
{
    match mode {
        Some(mode) => build_idempotency_settings(mode, places),
        None => (0, build_empty_place(), build_empty_place()),
    }
}

/// The places after the clause for duplicates, if there is one.
fn skip_idempotency<'a>(places: &'a [Span], mode: &Option<StreamIdempotencyMode>) -> &'a [Span]
    ensures { Skips (clause idempotency_sentence (option_map idempotency_of mode.now)) places.now result.now }
{
    match mode {
        None => places,
        Some(StreamIdempotencyMode::Manual { .. }) => skip_places(places, 3),
        Some(StreamIdempotencyMode::Automatic { .. }) => skip_places(places, 2),
    }
}

/// The places after a policy, if there is one.
fn skip_policy<'a>(places: &'a [Span], policy: &Option<StreamDeletionPolicy>) -> &'a [Span]
    ensures { Skips (clause policy_sentence (option_map policy_of policy.now)) places.now result.now }
{
    match policy {
        None => places,
        Some(_) => skip_places(places, 1),
    }
}

/// How an entry is added, by the places of the arguments.
pub fn build_add_settings(parts: &AddParts, places: &[Span]) -> AddSettings
    ensures plain { IsPlainAdd result }
    ensures is { Tells AddFits add_sentence (λ bytes. add_in bytes result)
        (told.add_of parts.now) places.now }
{
    let rest = skip_policy(skip_flag(places, parts.nomkstream), &parts.policy);
    let (idempotency, producer, idempotent_id) = build_any_idempotency_settings(
        &parts.idempotency,
        rest,
    );
    let rest = skip_idempotency(rest, &parts.idempotency);
    let mut trim = build_any_strategy_settings(&parts.strategy, rest);
    trim.policy = get_policy_number(&parts.policy);
    AddSettings {
        nomkstream: parts.nomkstream,
        idempotency,
        producer,
        idempotent_id,
        trim,
    }
}

/// Whether LASTID is set, and the place of its id. The places are those of the clause and what follows.
fn build_lastid_settings(lastid: &Option<String>, places: &[Span]) -> (bool, Span)
    ensures plain { IsNowhereUnless result.0 result.1 }
    ensures is { Tells (λ x. IfSome x IsUtf8) (clause (word_text (codes "LASTID")))
        (λ bytes. lastid_by bytes result.0 result.1) (option_map string_bytes lastid.now) places.now }
{
    match lastid {
        Some(_) => (true, get_place(places, 1)),
        None => (false, build_empty_place()),
    }
}

/// How entries are claimed by their ids, by the places of the arguments.
pub fn build_claim_settings(parts: &ClaimParts, places: &[Span]) -> ClaimSettings
    ensures plain { IsPlainClaim result }
    ensures is { Tells ClaimFits claim_sentence (λ bytes. claim_in bytes result)
        (told.claim_of parts.now) places.now }
{
    let rest = skip_number(skip_number(places, parts.idle), parts.time);
    let rest = skip_flag(skip_number(rest, parts.retry), parts.force);
    let rest = skip_flag(rest, parts.justid);
    let (has_lastid, lastid) = build_lastid_settings(&parts.lastid, rest);
    let (has_idle, idle) = set_number(parts.idle);
    let (has_time, time) = set_number(parts.time);
    let (has_retry, retry) = set_number(parts.retry);
    ClaimSettings {
        has_idle,
        has_time,
        has_retry,
        force: parts.force,
        justid: parts.justid,
        has_lastid,
        idle,
        time,
        retry,
        lastid,
    }
}

/// How idle entries are claimed, whatever their ids.
pub fn build_autoclaim_settings(parts: AutoClaimParts) -> AutoClaimSettings
    ensures plain { IsPlainAutoClaim result }
    ensures is { autoclaim_of result ≡ told.autoclaim_of parts }
{
    let (has_count, count) = set_number(parts.count);
    AutoClaimSettings {
        has_count,
        justid: parts.justid,
        count,
    }
}

/// The settings of a read after the group.
pub fn build_read_settings(parts: ReadParts<'_>) -> ReadSettings
    ensures plain { IsPlainRead result }
    ensures is { asked_by result ≡ asked_of parts.entry }
{
    let (has_block, block) = set_number(parts.block);
    let (has_count, count) = set_number(parts.count);
    let (has_claim, claim) = set_number(parts.claim);
    ReadSettings {
        has_count,
        has_block,
        noack: parts.noack,
        has_claim,
        count,
        block,
        claim,
    }
}

/// The group and the consumer, if they are given, by the places of the arguments.
pub fn build_group_place(names: Option<GroupNames<'_>>, places: &[Span]) -> GroupPlace
    ensures plain { IsPlainGroup result }
    ensures named { result.has_group ≡ is_some names.entry }
    ensures is { Tells Any (clause group_sentence) (λ bytes. group_in bytes result)
        (option_map told.group_of names.entry) places.now }
{
    match names {
        Some(_) => GroupPlace {
            has_group: true,
            group: get_place(places, 1),
            consumer: get_place(places, 2),
        },
        None => GroupPlace {
            has_group: false,
            group: build_empty_place(),
            consumer: build_empty_place(),
        },
    }
}
