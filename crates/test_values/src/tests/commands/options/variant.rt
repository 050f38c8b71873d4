//! Equality, copies and defaults, as a caller can prove them.
ghost use Rattle.std.specs.Prelude.{◌≡◌};
ghost use Rattle.stream_options.specs.declared.options.policy.StreamDeletionPolicy.TheVariants.{KeepRef};

use stream_options::laws::{copied_policy, equal_config_errors, equal_maxlens, equal_nack_modes};
use stream_options::{ConfigError, StreamDeletionPolicy, StreamMaxlen, StreamNackMode};

#[test]
fn variants(rt: HostRuntime) {
    assert!(rt; equal_maxlens(StreamMaxlen::Equals(1), StreamMaxlen::Equals(1)));
    assert!(rt; !equal_maxlens(StreamMaxlen::Equals(1), StreamMaxlen::Approx(1)));
    assert!(rt; !equal_maxlens(StreamMaxlen::Equals(1), StreamMaxlen::Equals(2)));
    assert!(rt; equal_nack_modes(StreamNackMode::Fail, StreamNackMode::Fail));
    assert!(rt; !equal_nack_modes(StreamNackMode::Fail, StreamNackMode::Fatal));
    assert!(rt; equal_config_errors(&ConfigError::Seconds(0), &ConfigError::Seconds(0)));
    assert!(rt; !equal_config_errors(&ConfigError::Seconds(0), &ConfigError::Maxsize(0)));
    assert!(rt; !equal_config_errors(&ConfigError::Maxsize(0), &ConfigError::Maxsize(10001)));
    let policy = copied_policy(&default_policy()).expect(&rt, "memory");
    assert!(rt; matches!(policy, StreamDeletionPolicy::KeepRef));
}

fn default_policy() -> StreamDeletionPolicy
    ensures { result ≡ KeepRef }
{
    StreamDeletionPolicy::default()
}
