//! Dead letters: entries that are given up are copied to another stream.
ghost use Rattle.std.specs.Prelude.{◌≡◌, [], ◌∷◌, ◌++◌, false, true, IfErr, IfOk, OnErr, OnOk, string_bytes};
ghost use Rattle.redis_wire.specs.Packed.{command_bytes};
ghost use Rattle.redis_wire.specs.Reply.{answer};
ghost use Rattle.worker.specs.Letters.{Unserved, after_letter, desk_of, letter_asks, letter_bytes};
ghost use Rattle.worker.specs.Letters.{letter_sentence, names_of, serves};

use crate::packing::append_command;
use redis_resp::{Value, WriteError};
use redis_wire::{Reply, ServerError};
use std::alloc::Global;
use std::mem;
use stream_commands::{AtLeastOne, ToFieldArgs, xack};
use thiserror::Error;

/// The command whose reply `DeadLetters` waits for.
#[derive(Clone, Copy, Debug, PartialEq, Eq)]
pub enum LetterAsked {
    /// No command.
    Nothing,
    /// XADD of a letter.
    Add,
    /// XACK of an entry whose letter was added.
    Acknowledge,
}

/// Why a reply was refused. Nothing changed, and the next call requests the same command again.
#[derive(Debug, Drop, Error)]
pub enum LetterError {
    /// No command waits for a reply.
    #[error("a reply without a command")]
    NotAsked,
    /// The server returned an error.
    #[error("the server replied {0}")]
    Server(ServerError),
    /// The reply to XADD is not an id, or the reply to XACK is not a number.
    #[error("the reply is not of this command")]
    NotAnAnswer,
}

/// An entry that was given up: its id, and the command that adds its letter.
#[derive(Debug, Drop)]
struct Letter {
    id: String,
    command: Vec<u8>,
}

/// Moves entries that are given up to a stream of dead letters, without input and output. Each letter has the entry's
/// id, its delivery count and its fields. The entry is acknowledged after the server has returned the letter's id.
///
/// The entry stays pending until then. So a handler returns `Verdict::LeavePending` and gives the entry up
/// here. After a crash the entry is delivered again, and its letter may be added twice.
#[derive(Debug, Drop)]
pub struct DeadLetters {
    key: String,
    group: String,
    dead: String,
    letters: Vec<Letter>,
    added: bool,
    asked: LetterAsked,
}

impl DeadLetters {
    /// Returns an empty queue of letters for entries of this group of the stream `key`. Letters are added to
    /// the stream `dead`. Allocates nothing.
    pub fn new(alloc: Global, key: String, group: String, dead: String) -> DeadLetters
        ensures desk { desk_of result ≡ record { waiting = []; added = false } }
        ensures names { names_of result ≡ (string_bytes key, string_bytes group, string_bytes dead) }
        ensures asked { result.asked ≡ LetterAsked.Nothing }
    {
        DeadLetters {
            key,
            group,
            dead,
            letters: Vec::new(alloc),
            added: false,
            asked: LetterAsked::Nothing,
        }
    }

    /// Gives up an entry with this id, delivery count and fields. Queues `XADD dead * entry id deliveries n
    /// field value ..`. An `Err` changes nothing.
    pub fn give_up<F: ToFieldArgs>(
        &mut self,
        alloc: Global,
        id: &str,
        deliveries: usize,
        fields: &F,
    ) -> Result<(), WriteError>
        ensures ok { OnOk result (desk_of self.new ≡ record (desk_of self.old) {
          waiting
              = (desk_of self.old).waiting ++ (
                id.now,
                command_bytes (letter_sentence
                    (string_bytes self.old.dead) [] id.now deliveries (F.args fields.now)),
              ) ∷ [];
        }) }
        ensures err { OnErr result (desk_of self.new ≡ desk_of self.old) }
        ensures names { names_of self.new ≡ names_of self.old }
        ensures asked { self.new.asked ≡ self.old.asked }
    {
        self.give_up_for(alloc, b"", id, deliveries, fields)
    }

    /// As `give_up`, and the letter begins with the reason, `XADD dead * reason text entry id deliveries n field
    /// value ..`. If the reason is empty, the letter has none. An `Err` changes nothing.
    #[tactic(auto, using(crate::proofs::LetterLemmas::posted))]
    pub fn give_up_for<F: ToFieldArgs>(
        &mut self,
        alloc: Global,
        reason: &[u8],
        id: &str,
        deliveries: usize,
        fields: &F,
    ) -> Result<(), WriteError>
        ensures ok { OnOk result (desk_of self.new ≡ record (desk_of self.old) {
          waiting
              = (desk_of self.old).waiting ++ (
                id.now,
                command_bytes (letter_sentence
                    (string_bytes self.old.dead) reason.now id.now deliveries (F.args fields.now)),
              ) ∷ [];
        }) }
        ensures err { OnErr result (desk_of self.new ≡ desk_of self.old) }
        ensures names { names_of self.new ≡ names_of self.old }
        ensures asked { self.new.asked ≡ self.old.asked }
    {
        let command = build_letter(alloc, self.dead.as_str(), reason, id, deliveries, fields)?;
        let id = String::from_str(alloc, id)?;
        self.letters.push(Letter { id, command })?;
        Ok(())
    }

    /// Appends the bytes of the next command: XADD of the first letter, or XACK of its entry after the letter
    /// was added. Appends nothing if no entry is queued. An `Err` appends nothing.
    pub fn request(&mut self, alloc: Global, out: &mut Vec<u8>) -> Result<LetterAsked, WriteError>
        ensures bytes { OnOk result (out.new.items ≡ out.old.items
            ++ letter_bytes (names_of self.old) (desk_of self.old)) }
        ensures asks { IfOk result (λ a. (a ≡ letter_asks (desk_of self.old)) × (self.new.asked ≡ a)) }
        ensures err { OnErr result ((out.new.items ≡ out.old.items) × (self.new.asked ≡ self.old.asked)) }
        ensures desk { desk_of self.new ≡ desk_of self.old }
        ensures names { names_of self.new ≡ names_of self.old }
    {
        let asked = match self.letters.as_slice() {
            [] => LetterAsked::Nothing,
            [letter, ..] => {
                if self.added {
                    let id = letter.id.as_str();
                    let ids = AtLeastOne::one(&id);
                    append_command(
                        alloc,
                        out,
                        &xack(self.key.as_str(), self.group.as_str(), ids),
                    )?;
                    LetterAsked::Acknowledge
                } else {
                    out.extend_from_slice(&letter.command)?;
                    LetterAsked::Add
                }
            }
        };
        self.asked = asked;
        Ok(asked)
    }

    /// Takes the reply to the command that was requested last. After the reply to XADD, XACK of the entry is
    /// next. After the reply to XACK, the next letter is.
    pub fn answered(&mut self, reply: Reply) -> Result<(), LetterError>
        ensures ok { OnOk result ((serves self.old.asked (answer reply) ≡ true)
            × (desk_of self.new ≡ after_letter self.old.asked (desk_of self.old))) }
        ensures err { IfErr result (λ e. (serves self.old.asked (answer reply) ≡ false)
            × Unserved self.old.asked (answer reply) e × (desk_of self.new ≡ desk_of self.old)) }
        ensures asked { self.new.asked ≡ LetterAsked.Nothing }
        ensures names { names_of self.new ≡ names_of self.old }
    {
        let asked = mem::replace(&mut self.asked, LetterAsked::Nothing);
        match (asked, reply) {
            (LetterAsked::Nothing, _) => Err(LetterError::NotAsked),
            (_, Reply::Error(error)) => Err(LetterError::Server(error)),
            (LetterAsked::Add, Reply::Value(Value::BulkString(_))) => {
                self.added = true;
                Ok(())
            }
            (LetterAsked::Acknowledge, Reply::Value(Value::Int(_))) => {
                if !self.letters.is_empty() {
                    let _sent = self.letters.remove(0);
                }
                self.added = false;
                Ok(())
            }
            _ => Err(LetterError::NotAnAnswer),
        }
    }
}

/// `XADD dead * entry id deliveries n field value ..`, as bytes, with `reason text` before `entry` if the reason is not
/// empty.
fn build_letter<F: ToFieldArgs>(
    alloc: Global,
    dead: &str,
    reason: &[u8],
    id: &str,
    deliveries: usize,
    fields: &F,
) -> Result<Vec<u8>, WriteError>
    ensures { IfOk result (λ bytes. bytes.items
        ≡ command_bytes (letter_sentence dead.now reason.now id.now deliveries (F.args fields.now))) }
{
    let mut bytes = Vec::new(alloc);
    let about = ("entry", id, "deliveries", deliveries);
    if reason.is_empty() {
        append_command(alloc, &mut bytes, &("XADD", dead, ("*", about), fields))?;
    } else {
        let why = ("*", "reason", reason);
        append_command(alloc, &mut bytes, &("XADD", dead, (why, about), fields))?;
    }
    Ok(bytes)
}
