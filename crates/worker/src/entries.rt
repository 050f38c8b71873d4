//! What a handler does with entries, and the ids to acknowledge then.
ghost use Rattle.std.specs.Prelude.{map, string_bytes};
ghost use Rattle.stream_in_place.specs.SentMeaning.{sent_of};
ghost use Rattle.worker.specs.Machine.{ending_said};
ghost use Rattle.worker.specs.Taking.{Took, TookOneOr, all_delivered, delivered_of};

use crate::handler::{Handler, Verdict};
use crate::worker::Progress;
use std::alloc::{AllocError, Global};
use stream_in_place::{EntriesRef, EntryRef, EntryRoom, SentRow};

/// Passes one entry to the handler. The id is stored before the call, and removed if the entry is not done. So
/// memory cannot run out after the call.
fn take_entry<H: Handler>(
    alloc: Global,
    ids: &mut Vec<String>,
    entry: &EntryRef<'_>,
    handler: &mut H,
) -> Result<Progress, AllocError>
    ensures { TookOneOr H.with_verdict (delivered_of entry.now)
        (map string_bytes ids.old.items) (map string_bytes ids.new.items)
        (H.history handler.old) (H.history handler.new) result }
{
    let len = ids.len();
    ids.push(String::from_str(alloc, entry.id())?)?;
    if entry.is_deleted() {
        return Ok(Progress::GoesOn);
    }
    match handler.handle(alloc, entry) {
        Verdict::Done => Ok(Progress::GoesOn),
        Verdict::LeavePending => {
            ids.truncate(len);
            Ok(Progress::GoesOn)
        }
        Verdict::Stop => {
            ids.truncate(len);
            Ok(Progress::Stopped)
        }
    }
}

/// Passes a decoded entry to the handler as a borrowed entry.
fn take_row<H: Handler>(
    alloc: Global,
    room: &mut EntryRoom,
    ids: &mut Vec<String>,
    row: &SentRow,
    handler: &mut H,
) -> Result<Progress, AllocError>
    ensures { TookOneOr H.with_verdict (delivered_of (sent_of row.now))
        (map string_bytes ids.old.items) (map string_bytes ids.new.items)
        (H.history handler.old) (H.history handler.new) result }
{
    let entry = row.entry_in(room)?;
    take_entry(alloc, ids, &entry, handler)
}

/// Passes decoded entries to the handler, in order, until it returns `Stop`.
pub fn take_entries<H: Handler>(
    alloc: Global,
    ids: &mut Vec<String>,
    entries: &[SentRow],
    handler: &mut H,
) -> Result<Progress, AllocError>
    ensures { Took H.with_verdict (all_delivered (map sent_of entries.now))
        (map string_bytes ids.old.items) (map string_bytes ids.new.items)
        (H.history handler.old) (H.history handler.new) (ending_said result) }
{
    let mut room = EntryRoom::new(alloc);
    for entry in entries {
        match take_row(alloc, &mut room, ids, entry, handler)? {
            Progress::GoesOn => {}
            Progress::Stopped => return Ok(Progress::Stopped),
        }
    }
    Ok(Progress::GoesOn)
}

/// Passes borrowed entries to the handler, in order, until it returns `Stop`.
pub fn take_in_place<H: Handler>(
    alloc: Global,
    ids: &mut Vec<String>,
    entries: EntriesRef<'_>,
    handler: &mut H,
) -> Result<Progress, AllocError>
    ensures { Took H.with_verdict (all_delivered entries.entry)
        (map string_bytes ids.old.items) (map string_bytes ids.new.items)
        (H.history handler.old) (H.history handler.new) (ending_said result) }
{
    for entry in entries {
        match take_entry(alloc, ids, &entry, handler)? {
            Progress::GoesOn => {}
            Progress::Stopped => return Ok(Progress::Stopped),
        }
    }
    Ok(Progress::GoesOn)
}
