//! Laws of the order of entries.
ghost use Rattle.server_store.specs.Laws.{EntriesStayInOrder, PendingStaysInOrder};

/// The ids of pending entries still ascend after an entry is delivered or acknowledged.
pub fn pending_stays_in_order()
    ensures { PendingStaysInOrder }
{}

/// The ids of the entries still ascend after one is appended above them, one is removed, or the first ones are
/// trimmed.
pub fn entries_stay_in_order()
    ensures { EntriesStayInOrder }
{}
