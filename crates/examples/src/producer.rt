//! A producer whose entries are distinct. An entry that is sent twice is added once.
//!
//! The producer gives each entry a number, and keeps the number until the entry has a reply. After an error it
//! sends the same command again, so the server knows that the entry is the same.
ghost use Rattle.std.specs.Prelude.{◌≡◌, ◌≢◌, [], ◌∷◌, ◌++◌, Some, None, codes, decimal, map};
ghost use Rattle.std.specs.Prelude.{flat_map, string_bytes, suc, IfOk, IfErr, OnOk, OnErr};
ghost use Rattle.redis.specs.Words.{text_reading, tree};
ghost use Rattle.examples.specs.Producer.{Stays};
ghost use Rattle.examples.specs.declared.producer.ProducerError.TheVariants.{Answer};

use redis::streams::{StreamAddOptions, StreamTrimStrategy, StreamTrimmingMode};
use redis::{FromRedisValue, ParsingError, ToRedisArgs, Value};
use std::alloc::{AllocError, Global};
use thiserror::Error;

/// A producer of entries.
#[derive(Debug, Drop)]
pub struct Producer {
    /// The id of the producer, which no other producer of the stream has.
    pub id: String,
    /// The number of the next entry, which may have been sent already but has no reply.
    pub number: u64,
}

/// Why a producer stays at its entry.
#[derive(Debug, Drop, Error)]
pub enum ProducerError {
    /// The reply is not an id.
    #[error("the reply to XADD is {0}")]
    Answer(ParsingError),
    /// The number of the entry is the largest one.
    #[error("no number is left for a further entry")]
    LastNumber,
}

impl From<ParsingError> for ProducerError {
    ghost from_gives = { λ error e. e ≡ Answer error };

    fn from(error: ParsingError) -> ProducerError {
        ProducerError::Answer(error)
    }
}

impl Producer {
    /// Returns `XADD key IDMP producer number MAXLEN ~ n * field value ..`. The command is the same until the
    /// entry has a reply. A value is one argument of any bytes, and is borrowed.
    pub fn arguments(
        &self,
        alloc: Global,
        key: &str,
        length: usize,
        fields: &[(&str, &[u8])],
    ) -> Result<Vec<Vec<u8>>, AllocError>
        ensures { IfOk result (λ list. map (λ arg. arg.items) list.items ≡ codes "XADD" ∷ key.now
            ∷ codes "IDMP" ∷ string_bytes self.now.id ∷ decimal self.now.number
            ∷ codes "MAXLEN" ∷ codes "~" ∷ decimal length ∷ codes "*"
            ∷ flat_map (λ f. f.0.now ∷ f.1.now ∷ []) fields.now) }
    {
        let number = self.number.to_string(alloc)?;
        let options = StreamAddOptions::default()
            .idmp(self.id.clone()?, number)
            .trim(StreamTrimStrategy::maxlen(StreamTrimmingMode::Approx, length));
        (("XADD", key), &options, "*", fields).to_redis_args(alloc)
    }

    /// Returns the id of the added entry, and goes on to the next entry. After an `Err`, or after an error of
    /// the connection, the same entry may be sent again.
    pub fn answered(&mut self, alloc: Global, answer: Value) -> Result<String, ProducerError>
        ensures id { IfOk result (λ id. text_reading (tree answer) ≡ Some (string_bytes id)) }
        ensures next { OnOk result (self.new.number ≡ suc self.old.number) }
        ensures producer { self.new.id ≡ self.old.id }
        ensures again { OnErr result (self.new ≡ self.old) }
        ensures cause { IfErr result (Stays self.old.number (tree answer)) }
    {
        let Some(next) = self.number.checked_add(1) else {
            return Err(ProducerError::LastNumber);
        };
        let id = String::from_redis_value(alloc, answer)?;
        self.number = next;
        Ok(id)
    }
}
