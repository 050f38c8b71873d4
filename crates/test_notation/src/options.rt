//! The options of the stream commands in their printed form: the arguments that they write, with a
//! space between each two. An argument that is not UTF-8 is `?`; no arguments are `-`.
ghost use Rattle.std.specs.Prelude.{◌≡◌, ◌++◌, OnOk, string_bytes};
ghost use Rattle.stream_options.specs.Add.{add_sentence};
ghost use Rattle.stream_options.specs.AutoClaim.{autoclaim_sentence};
ghost use Rattle.stream_options.specs.Claim.{claim_sentence};
ghost use Rattle.stream_options.specs.Config.{config_sentence};
ghost use Rattle.stream_options.specs.Maxlen.{maxlen_sentence};
ghost use Rattle.stream_options.specs.Nack.{nack_sentence};
ghost use Rattle.stream_options.specs.Read.{read_sentence};
ghost use Rattle.stream_options.specs.Trim.{trim_sentence};
ghost use Rattle.stream_options.specs.View.{maxlen_of};
ghost use Rattle.test_notation.specs.Options.{argument_form, sentence_form};

use crate::form::{PrintedForm, print_listed};
use redis_resp::ToRedisArgs;
use std::alloc::{AllocError, Global};
use stream_options::{
    StreamAddOptions, StreamAutoClaimOptions, StreamClaimOptions, StreamConfigOptions,
    StreamMaxlen, StreamNackOptions, StreamReadOptions, StreamTrimOptions,
};

/// An argument as it is, or `?` if it is not UTF-8.
impl PrintedForm for Vec<u8> {
    ghost form = { λ arg. argument_form arg.items };

    fn print(&self, _alloc: Global, line: &mut String) -> Result<(), AllocError> {
        match std::str::from_utf8(self) {
            Ok(text) => line.push_str(text),
            Err(_) => line.push_str("?"),
        }
    }
}

/// Appends the arguments that the options write to the line.
#[tactic(auto, using(crate::proofs::OptionsLemmas::listed_map))]
fn print_args<T: ToRedisArgs>(
    alloc: Global,
    options: &T,
    line: &mut String,
) -> Result<(), AllocError>
    ensures { OnOk result (string_bytes line.new
        ≡ string_bytes line.old ++ sentence_form (T.args options.now)) }
{
    let args = options.to_redis_args(alloc)?;
    print_listed(alloc, &args, " ", line)
}

/// The arguments of `XTRIM`.
impl PrintedForm for StreamTrimOptions {
    ghost form = { λ options. sentence_form (trim_sentence options) };

    fn print(&self, alloc: Global, line: &mut String) -> Result<(), AllocError> {
        print_args(alloc, self, line)
    }
}

/// The arguments of a `MAXLEN` option of `XTRIM` and `XADD`.
impl PrintedForm for StreamMaxlen {
    ghost form = { λ options. sentence_form (maxlen_sentence (maxlen_of options)) };

    fn print(&self, alloc: Global, line: &mut String) -> Result<(), AllocError> {
        print_args(alloc, self, line)
    }
}

/// The arguments of `XADD`.
impl PrintedForm for StreamAddOptions {
    ghost form = { λ options. sentence_form (add_sentence options) };

    fn print(&self, alloc: Global, line: &mut String) -> Result<(), AllocError> {
        print_args(alloc, self, line)
    }
}

/// The arguments of `XCFGSET`.
impl PrintedForm for StreamConfigOptions {
    ghost form = { λ options. sentence_form (config_sentence options) };

    fn print(&self, alloc: Global, line: &mut String) -> Result<(), AllocError> {
        print_args(alloc, self, line)
    }
}

/// The arguments of `XAUTOCLAIM`.
impl PrintedForm for StreamAutoClaimOptions {
    ghost form = { λ options. sentence_form (autoclaim_sentence options) };

    fn print(&self, alloc: Global, line: &mut String) -> Result<(), AllocError> {
        print_args(alloc, self, line)
    }
}

/// The arguments of `XCLAIM`.
impl PrintedForm for StreamClaimOptions {
    ghost form = { λ options. sentence_form (claim_sentence options) };

    fn print(&self, alloc: Global, line: &mut String) -> Result<(), AllocError> {
        print_args(alloc, self, line)
    }
}

/// The arguments of `XREAD` and `XREADGROUP`.
impl PrintedForm for StreamReadOptions {
    ghost form = { λ options. sentence_form (read_sentence options) };

    fn print(&self, alloc: Global, line: &mut String) -> Result<(), AllocError> {
        print_args(alloc, self, line)
    }
}

/// The arguments of `XNACK`.
impl PrintedForm for StreamNackOptions {
    ghost form = { λ options. sentence_form (nack_sentence options) };

    fn print(&self, alloc: Global, line: &mut String) -> Result<(), AllocError> {
        print_args(alloc, self, line)
    }
}
