//! Policies of deletion.
ghost use Rattle.std.specs.Prelude.{◌≡◌, Some};
ghost use Rattle.std.specs.Option.{option_map};
ghost use Rattle.stream_options.specs.ReadBack as reading;
ghost use Rattle.stream_options.specs.View as view;
ghost use Rattle.stream_option_parsing.specs.Split.{arguments};

use stream_options::StreamDeletionPolicy;

/// `[policy]`, and the arguments after it.
#[tactic(auto, using(crate::proofs::PolicyLemmas::policy_there, crate::proofs::PolicyLemmas::policy_missing))]
pub(crate) fn parse_policy_clause(args: &[Vec<u8>]) -> (Option<StreamDeletionPolicy>, &[Vec<u8>])
    ensures { reading.policy_clause (arguments args.now)
        ≡ Some (option_map view.policy_of result.0, arguments result.1.now) }
{
    match args {
        [] => (None, args),
        [first, rest @ ..] => match parse_policy(first) {
            Some(policy) => (Some(policy), rest),
            None => (None, args),
        },
    }
}

/// The policy of a word.
fn parse_policy(arg: &[u8]) -> Option<StreamDeletionPolicy>
    ensures { option_map view.policy_of result ≡ reading.policy_of arg.now }
{
    if arg == b"KEEPREF".as_slice() {
        Some(StreamDeletionPolicy::KeepRef)
    } else if arg == b"DELREF".as_slice() {
        Some(StreamDeletionPolicy::DelRef)
    } else if arg == b"ACKED".as_slice() {
        Some(StreamDeletionPolicy::Acked)
    } else {
        None
    }
}
