//! What the arguments of whole commands determine, from the definitions alone.
//!
//! Numbers are in the ranges of their types, texts are UTF-8, and an id is none of the fixed words
//! of the options in the same command: [`ids_are_apart`] gives texts that are none of them.
ghost use Rattle.std.specs.Prelude.{codes};
ghost use Rattle.stream_options.specs.Add.{add_words};
ghost use Rattle.stream_options.specs.Claim.{claim_words};
ghost use Rattle.stream_commands.specs.WholeCommands.{IsApart, NumbersAreApart, IsDetermined, AddPartsFit, add_list, SameAdd, TrimPartsFit, trim_list, SameTrim, ReadPartsFit, read_list, SameRead, ClaimPartsFit, claim_list, SameClaim, AutoClaimPartsFit, autoclaim_list, SameAutoClaim};

/// The arguments of an XADD determine its key, its settings, its id and its fields.
#[tactic(auto, using(crate::proofs::WholeCommandLemmas::add_law))]
pub fn unique_xadd()
    ensures { IsDetermined AddPartsFit add_list SameAdd }
{}

/// The arguments of an XTRIM determine its key and its settings.
#[tactic(auto, using(crate::proofs::WholeCommandLemmas::trim_law))]
pub fn unique_xtrim()
    ensures { IsDetermined TrimPartsFit trim_list SameTrim }
{}

/// The arguments of an XREAD or XREADGROUP with single names determine the settings that
/// count, and the key and the id of each stream.
#[tactic(auto, using(crate::proofs::WholeCommandLemmas::read_law))]
pub fn unique_xread()
    ensures { IsDetermined ReadPartsFit read_list SameRead }
{}

/// The arguments of an XCLAIM determine its key, its group and consumer, how long the entries are
/// idle, their ids and its settings.
#[tactic(auto, using(crate::proofs::WholeCommandLemmas::claim_law))]
pub fn unique_xclaim()
    ensures { IsDetermined ClaimPartsFit claim_list SameClaim }
{}

/// The arguments of an XAUTOCLAIM determine its key, its group and consumer, how long the entries
/// are idle, the id that it starts from, and its settings.
#[tactic(auto, using(crate::proofs::WholeCommandLemmas::autoclaim_law))]
pub fn unique_xautoclaim()
    ensures { IsDetermined AutoClaimPartsFit autoclaim_list SameAutoClaim }
{}

/// A text that begins with a number, such as `5-1`, `5-*` or `5`, is none of the fixed words of an
/// XADD or an XCLAIM; neither is `*`.
#[tactic(auto, using(crate::proofs::IdLemmas::add_ids, crate::proofs::IdLemmas::claim_ids))]
pub fn ids_are_apart()
    ensures add { NumbersAreApart add_words }
    ensures made { IsApart add_words (codes "*") }
    ensures claim { NumbersAreApart claim_words }
{}
