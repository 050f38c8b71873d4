//! Laws of entries that are given up over a connection.
ghost use Rattle.model_workers.specs.Letters.{ClaimsAreMoves, DeliveriesAreMoves, GiveUpsAreMoves};

/// Giving up entries is a list of moves of the model `model_workers::system`. Each entry queued after its claim
/// is a move. Each dead letter or acknowledgement that gets its reply is a move too, whether all get replies or
/// only the first ones. After all moves the model's queue is empty.
pub fn give_ups_are_moves()
    ensures claims { ClaimsAreMoves }
    ensures letters { DeliveriesAreMoves }
    ensures all { GiveUpsAreMoves }
{}
