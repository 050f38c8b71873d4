//! Argument lists that several options write, and why the laws exclude them.
use crate::tests::{check, text};
use stream_options::{
    StreamAddOptions, StreamClaimOptions, StreamTrimOptions, StreamTrimStrategy, StreamTrimmingMode,
};

/// The rest may not begin with a fixed word of its type.
#[test]
fn a_rest_that_is_not_free(rt: HostRuntime) {
    let unlimited = StreamTrimOptions::maxlen(StreamTrimmingMode::Approx, 10);
    let behind = (&unlimited, ("LIMIT", 5usize));
    check(&rt, &behind, "MAXLEN ~ 10 LIMIT 5");
    check(&rt, &unlimited.limit(5), "MAXLEN ~ 10 LIMIT 5");
}

/// Ids that spell fixed words.
#[test]
fn ids_that_spell_words(rt: HostRuntime) {
    let claim = StreamClaimOptions::default().with_lastid(text(&rt, "FORCE"));
    check(&rt, &claim, "LASTID FORCE");
    let from = StreamTrimStrategy::minid(StreamTrimmingMode::Approx, text(&rt, "="));
    let add = StreamAddOptions::default().trim(from);
    let add = add.idmp(text(&rt, "NOMKSTREAM"), text(&rt, "IDMPAUTO"));
    check(&rt, &add, "IDMP NOMKSTREAM IDMPAUTO MINID ~ =");
}
