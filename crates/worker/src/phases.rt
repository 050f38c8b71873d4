//! The next phase of a worker after a reply.
ghost use Rattle.std.specs.Prelude.{◌≡◌, IfOk, map, string_bytes};
ghost use Rattle.model_server.specs.Group.Worker.{after_claim, after_news, after_own};
ghost use Rattle.stream_in_place.specs.SentMeaning.{sent_of};
ghost use Rattle.worker.specs.Handed.{entries_sent};
ghost use Rattle.worker.specs.Questions.{phase_of};
ghost use Rattle.worker.specs.Taking.{all_delivered};

use crate::state::Phase;
use std::alloc::{AllocError, Global};
use stream_in_place::{EntriesRef, SentRow};

/// Returns the phase after a read of own pending entries. The worker reads on until none is left.
#[tactic(auto, using(crate::proofs::PhaseLemmas::after_last))]
pub fn next_own(entries: &[SentRow]) -> Result<Phase, AllocError>
    ensures { IfOk result (λ p. phase_of p
        ≡ after_own (all_delivered (map sent_of entries.now))) }
{
    match entries {
        [] => Ok(Phase::ClaimFirst),
        [.., last] => Ok(Phase::Own(last.id.clone()?)),
    }
}

/// Returns the phase after borrowed own pending entries, if there are any.
pub fn next_own_in_place(
    alloc: Global,
    entries: &Option<EntriesRef<'_>>,
) -> Result<Phase, AllocError>
    ensures { IfOk result (λ p. phase_of p ≡ after_own (all_delivered (entries_sent entries.now))) }
{
    match entries {
        None => Ok(Phase::ClaimFirst),
        Some(entries) => continue_after_last(alloc, entries.again()),
    }
}

/// Returns the phase that reads on after the last of these entries.
fn continue_after_last(alloc: Global, entries: EntriesRef<'_>) -> Result<Phase, AllocError>
    ensures { IfOk result (λ p. phase_of p ≡ after_own (all_delivered entries.entry)) }
{
    let mut last = None;
    for entry in entries {
        last = Some(entry.id());
    }
    match last {
        None => Ok(Phase::ClaimFirst),
        Some(id) => Ok(Phase::Own(String::from_str(alloc, id)?)),
    }
}

/// Returns the phase after a claim. The worker claims on from the id that the server returned, until that is
/// `0-0`.
pub fn next_claim(next: String) -> Phase
    ensures { phase_of result ≡ after_claim (string_bytes next) }
{
    if next.as_str() == "0-0" {
        Phase::Reading(0)
    } else {
        Phase::Claiming(next)
    }
}

/// Returns the phase after a read of new entries. After `every` reads the worker claims idle entries.
pub fn next_round(every: usize, phase: Phase) -> Phase
    ensures { phase_of result ≡ after_news every (phase_of phase) }
{
    match phase {
        Phase::Reading(rounds) => {
            if every > 0 && rounds < every - 1 {
                Phase::Reading(rounds + 1)
            } else {
                Phase::ClaimFirst
            }
        }
        other => other,
    }
}
