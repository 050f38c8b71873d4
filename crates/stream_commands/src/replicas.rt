//! The commands that wait for replicas: WAIT and WAITAOF.
ghost use Rattle.std.specs.Prelude.{◌≡◌, ◌∷◌, [], codes, decimal};

use crate::command::{Command, Word};

/// `WAIT replicas milliseconds`: waits until this number of replicas have acknowledged all earlier writes of this
/// connection, or until the milliseconds elapsed; 0 is no limit. The reply is the number of replicas that acknowledged
/// them. Fewer are not an error. In a MULTI the server does not wait.
///
/// ```text
/// let confirmed = connection.ask_as::<u64, _>(alloc, &wait(1, 1000))?;     // WAIT 1 1000
/// ```
pub fn wait<'w>(replicas: u64, milliseconds: u64) -> Command<(Word<'w>, u64, u64), u64>
    ensures { result ≡ codes "WAIT" ∷ decimal replicas ∷ decimal milliseconds ∷ [] }
{
    Command::new((Word("WAIT"), replicas, milliseconds))
}

/// `WAITAOF local replicas milliseconds`, from Redis 7.2 on: waits until all earlier writes of this connection are
/// fsynced to the server's append-only file, if `local` is 1, and to those of this number of replicas. It waits until
/// the milliseconds elapsed; 0 is no limit. The reply is two numbers: 1 if the server's own file has them, else 0, and
/// the number of replicas whose files have them. The server refuses a `local` of 1 if it has no append-only file.
///
/// ```text
/// let (own, replicas) = connection.ask_as::<(u64, u64), _>(alloc, &wait_aof(1, 1, 1000))?;     // WAITAOF 1 1 1000
/// ```
pub fn wait_aof<'w>(
    local: u64,
    replicas: u64,
    milliseconds: u64,
) -> Command<(Word<'w>, u64, u64, u64), (u64, u64)>
    ensures { result ≡ codes "WAITAOF" ∷ decimal local ∷ decimal replicas ∷ decimal milliseconds ∷ [] }
{
    Command::new((Word("WAITAOF"), local, replicas, milliseconds))
}
