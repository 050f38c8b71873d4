//! The laws of the numbers of ids.
ghost use Rattle.worker_journal.specs.KnownIds.Known.{KnowsOneMore};
ghost use Rattle.worker_journal.specs.KnownIds.Number.{NumbersTell};

/// Two different ids have different numbers.
pub fn numbers_tell()
    ensures { NumbersTell }
{}

/// After the number of an id is added, this id and all earlier ids are known, and no other id.
pub fn knows_one_more()
    ensures { KnowsOneMore }
{}
