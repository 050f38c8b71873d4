//! The commands that a worker sends.
ghost use Rattle.std.specs.Prelude.{◌≡◌, ◌≢◌, [], ◌++◌, IfOk, OnOk, OnErr, map, string_bytes};
ghost use Rattle.redis_wire.specs.Packed.{command_bytes};
ghost use Rattle.worker.specs.Questions.{ack_sentence, asks, claim_sentence, group_sentence, news_sentence, own_sentence};
ghost use Rattle.worker.specs.Questions.{first_asks, phase_asks, phase_of, phase_sentence, sentence};

use crate::packing::append_command;
use crate::state::{Asked, GroupState, MakeGroup, Phase, Settings};
use redis_resp::{ToRedisArgs, WriteError};
use std::alloc::Global;
use stream_commands::{
    AtLeastOne, xack, xautoclaim_options, xgroup_create_mkstream, xread_options,
};
use stream_options::{StreamAutoClaimOptions, StreamReadOptions};

/// Appends the bytes of the next command. An `Err` changes nothing.
pub fn append_question(
    alloc: Global,
    out: &mut Vec<u8>,
    settings: &Settings,
    group: GroupState,
    phase: &Phase,
    ids: &[String],
) -> Result<Asked, WriteError>
    ensures ok { OnOk result (out.new.items ≡ out.old.items ++ command_bytes
        (sentence settings.now group (phase_of phase.now) (map string_bytes ids.now))) }
    ensures asked { IfOk result (λ a. a
        ≡ asks group (phase_of phase.now) (map string_bytes ids.now)) }
    ensures err { OnErr result (out.new.items ≡ out.old.items) }
{
    if !ids.is_empty() {
        return append_acknowledgement(alloc, out, settings, ids);
    }
    match group {
        GroupState::Missing => append_create_group(alloc, out, settings),
        GroupState::Unknown => append_first(alloc, out, settings, phase),
        GroupState::Known => append_by_phase(alloc, out, settings, phase),
    }
}

/// Appends the command of the phase, before anything is known of the group.
fn append_first(
    alloc: Global,
    out: &mut Vec<u8>,
    settings: &Settings,
    phase: &Phase,
) -> Result<Asked, WriteError>
    ensures ok { OnOk result (out.new.items ≡ out.old.items
        ++ command_bytes (phase_sentence settings.now (phase_of phase.now))) }
    ensures asked { IfOk result (λ a. a ≡ first_asks (phase_of phase.now)) }
    ensures err { OnErr result (out.new.items ≡ out.old.items) }
{
    let asked = append_by_phase(alloc, out, settings, phase)?;
    Ok(mark_first(phase, asked))
}

/// The command of a phase, before anything is known of the group.
fn mark_first(phase: &Phase, asked: Asked) -> Asked
    requires { asked ≡ phase_asks (phase_of phase.now) }
    ensures { result ≡ first_asks (phase_of phase.now) }
{
    match phase {
        Phase::Start | Phase::Own(_) => Asked::First,
        Phase::ClaimFirst | Phase::Claiming(_) | Phase::Reading(_) => asked,
    }
}

/// Appends `XACK key group id [id ...]`.
fn append_acknowledgement(
    alloc: Global,
    out: &mut Vec<u8>,
    settings: &Settings,
    ids: &[String],
) -> Result<Asked, WriteError>
    requires { ids.now ≢ [] }
    ensures ok { OnOk result (out.new.items ≡ out.old.items
        ++ command_bytes (ack_sentence settings.now (map string_bytes ids.now))) }
    ensures asked { IfOk result (λ a. a ≡ Asked.Acknowledgement) }
    ensures err { OnErr result (out.new.items ≡ out.old.items) }
{
    let Some(ids) = AtLeastOne::new(ids) else {
        unreachable!()
    };
    let command = xack(settings.key.as_str(), settings.group.as_str(), ids);
    append_command_for(alloc, out, &command, Asked::Acknowledgement)
}

/// Appends `XGROUP CREATE` with `MKSTREAM`.
fn append_create_group(
    alloc: Global,
    out: &mut Vec<u8>,
    settings: &Settings,
) -> Result<Asked, WriteError>
    ensures ok { OnOk result (out.new.items ≡ out.old.items
        ++ command_bytes (group_sentence settings.now)) }
    ensures asked { IfOk result (λ a. a ≡ Asked.Group) }
    ensures err { OnErr result (out.new.items ≡ out.old.items) }
{
    let start = match settings.make_group {
        MakeGroup::FromTheFirst => "0",
        MakeGroup::FromNow | MakeGroup::Never => "$",
    };
    let command = xgroup_create_mkstream(settings.key.as_str(), settings.group.as_str(), start);
    append_command_for(alloc, out, &command, Asked::Group)
}

/// Appends the command of the phase.
fn append_by_phase(
    alloc: Global,
    out: &mut Vec<u8>,
    settings: &Settings,
    phase: &Phase,
) -> Result<Asked, WriteError>
    ensures ok { OnOk result (out.new.items ≡ out.old.items
        ++ command_bytes (phase_sentence settings.now (phase_of phase.now))) }
    ensures asked { IfOk result (λ a. a ≡ phase_asks (phase_of phase.now)) }
    ensures err { OnErr result (out.new.items ≡ out.old.items) }
{
    match phase {
        Phase::Start => append_read_own(alloc, out, settings, "0"),
        Phase::Own(id) => append_read_own(alloc, out, settings, id.as_str()),
        Phase::ClaimFirst => append_claim(alloc, out, settings, "0-0"),
        Phase::Claiming(id) => append_claim(alloc, out, settings, id.as_str()),
        Phase::Reading(_) => append_read_new(alloc, out, settings),
    }
}

/// Appends `XREADGROUP` of the consumer's own pending entries after this id.
fn append_read_own(
    alloc: Global,
    out: &mut Vec<u8>,
    settings: &Settings,
    id: &str,
) -> Result<Asked, WriteError>
    ensures ok { OnOk result (out.new.items ≡ out.old.items
        ++ command_bytes (own_sentence settings.now id.now)) }
    ensures asked { IfOk result (λ a. a ≡ Asked.Own) }
    ensures err { OnErr result (out.new.items ≡ out.old.items) }
{
    let options = StreamReadOptions::default()
        .count(settings.count_again())
        .group(alloc, settings.group.as_str(), settings.consumer.as_str())?;
    let stream = (settings.key.as_str(), id);
    let command = xread_options(AtLeastOne::one(&stream), &options);
    append_command_for(alloc, out, &command, Asked::Own)
}

/// Appends `XAUTOCLAIM` from this id on.
fn append_claim(
    alloc: Global,
    out: &mut Vec<u8>,
    settings: &Settings,
    id: &str,
) -> Result<Asked, WriteError>
    ensures ok { OnOk result (out.new.items ≡ out.old.items
        ++ command_bytes (claim_sentence settings.now id.now)) }
    ensures asked { IfOk result (λ a. a ≡ Asked.Claim) }
    ensures err { OnErr result (out.new.items ≡ out.old.items) }
{
    let options = StreamAutoClaimOptions::default().count(settings.count_again());
    let Ok(command) = xautoclaim_options(
        settings.key.as_str(),
        settings.group.as_str(),
        settings.consumer.as_str(),
        settings.min_idle,
        id,
        &options,
    ) else {
        unreachable!()
    };
    append_command_for(alloc, out, &command, Asked::Claim)
}

/// Appends `XREADGROUP` of new entries.
fn append_read_new(
    alloc: Global,
    out: &mut Vec<u8>,
    settings: &Settings,
) -> Result<Asked, WriteError>
    ensures ok { OnOk result (out.new.items ≡ out.old.items
        ++ command_bytes (news_sentence settings.now)) }
    ensures asked { IfOk result (λ a. a ≡ Asked.New) }
    ensures err { OnErr result (out.new.items ≡ out.old.items) }
{
    let options = StreamReadOptions::default()
        .count(settings.count)
        .block(settings.block)
        .group(alloc, settings.group.as_str(), settings.consumer.as_str())?;
    let stream = (settings.key.as_str(), ">");
    let command = xread_options(AtLeastOne::one(&stream), &options);
    append_command_for(alloc, out, &command, Asked::New)
}

/// Appends the bytes of this command. An `Err` changes nothing.
fn append_command_for<T: ToRedisArgs>(
    alloc: Global,
    out: &mut Vec<u8>,
    command: &T,
    asked: Asked,
) -> Result<Asked, WriteError>
    requires { T.args command.now ≢ [] }
    ensures ok { OnOk result (out.new.items ≡ out.old.items ++ command_bytes (T.args command.now)) }
    ensures asked { IfOk result (λ a. a ≡ asked) }
    ensures err { OnErr result (out.new.items ≡ out.old.items) }
{
    append_command(alloc, out, command)?;
    Ok(asked)
}
