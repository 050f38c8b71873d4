//! Laws of the gathered and the committed rows, over the rounds of workers.
ghost use Rattle.worker_table.specs.Acknowledged.{AcknowledgedIsARow};
ghost use Rattle.worker_table.specs.InMemory.{GoesThroughSchedules};
ghost use Rattle.worker_table.specs.Kept.{GathersItsRows};
ghost use Rattle.worker_table.specs.Lived.{RoundsAreLived};
ghost use Rattle.worker_table.specs.Passed.{AcknowledgedIsPassedOn};

use crate::handler::Rows;
use crate::row_table::{MemoryTable, Table};
use worker::Handler;

/// The gathered rows are those of the entries that are done and not committed, in order. The committed rows are
/// the first rows of the table, followed by the rows of the committed entries, in order. This holds after each
/// verdict and each commit.
pub fn gathers_its_rows()
    ensures { GathersItsRows }
{}

/// Each round of a handler of rows is a round of a worker's life. In that life some entries were done, and the
/// gathered rows are those of the entries not committed. The deleted entries are exactly those that the
/// server's replies reported. Therefore the laws of `worker` hold: before an id is acknowledged, its entry was
/// done and committed, or the server reported that it was deleted.
pub fn rounds_are_lived()
    ensures { RoundsAreLived }
{}

/// Each acknowledged id has a row, or the server reported that the entry was deleted. No id has two rows. This
/// holds over every schedule of rounds, crashes and restarts, whatever the server remembers.
pub fn acknowledged_is_a_row()
    ensures { AcknowledgedIsARow }
{}

/// A worker whose table is in memory follows the schedules of `acknowledged_is_a_row`, from its start. Its rows
/// are known, and so are the rows that a crash leaves. After a crash another worker continues with these rows.
/// Each acknowledged id has a row in its table, or the server reported that the entry was deleted.
pub fn tables_in_memory_are_known()
    ensures { GoesThroughSchedules ⟦<Rows<MemoryTable> as Handler>⟧.history
        (λ h. ⟦<MemoryTable as Table>⟧.may_leave h.table) }
{}

/// Each id acknowledged by a worker that forwards has a row that was passed on, or the server reported that its
/// entry was deleted. A row is passed on if its command is in the outbox or got a reply, or if it existed
/// before the outbox. This holds over every schedule of rounds, commits, replies, crashes and restarts,
/// whatever the server remembers.
pub fn acknowledged_is_passed_on()
    ensures { AcknowledgedIsPassedOn }
{}
