//! The side of a server or a proxy: the arguments of XADD, with the options that a client sent.
ghost use Rattle.std.specs.Prelude.{◌≡◌, ℕ, List, IfOk, IfErr};
ghost use Rattle.redis.specs.Words.{AddSettings as Add, arguments};
ghost use Rattle.examples.specs.Server.{Asks};

use redis::sentences::{SentenceError, read_add};
use redis::streams::StreamAddOptions;
use std::alloc::Global;

/// The arguments of XADD after its key.
#[derive(Debug, Drop)]
pub struct AddRequest<'a> {
    /// The options.
    pub options: StreamAddOptions,
    /// The id, or `*`, borrowed.
    pub id: &'a [u8],
    /// The fields, each before its value, borrowed.
    pub fields: &'a [Vec<u8>],
}

/// Reads the arguments of XADD after its key: options, an id and fields. Arguments have at most one reading.
/// Returns `NotASentence` if there is none.
pub fn add_request<'a>(alloc: Global, args: &'a [Vec<u8>]) -> Result<AddRequest<'a>, SentenceError>
    ensures ok { IfOk result (λ r. Asks (arguments args.now)
        r.options r.id.now (arguments r.fields.now)) }
    ensures only { (add : Add) (id : List ℕ) (fields : List (List ℕ))
        → Asks (arguments args.now) add id fields → IfOk result (λ r.
        (r.options ≡ add) × (r.id.now ≡ id) × (arguments r.fields.now ≡ fields)) }
    ensures err { IfErr result (λ e. e ≡ SentenceError.NotASentence
        → (add : Add) (id : List ℕ) (fields : List (List ℕ))
        → Asks (arguments args.now) add id fields → ⊥) }
{
    let (options, len) = read_add(alloc, args)?;
    match &args[len..] {
        [] => Err(SentenceError::NotASentence),
        [id, fields @ ..] => Ok(AddRequest {
            options,
            id,
            fields,
        }),
    }
}
