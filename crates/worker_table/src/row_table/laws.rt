//! Laws of inserted rows.
ghost use Rattle.worker_table.specs.RowTable.Laws.{RowsArePutIn};
ghost use Rattle.worker_table.specs.RowTable.Sent.{NoPostIsLost};

/// An existing row keeps its values and its position, whatever is inserted. No key occurs twice, if no key did
/// at first. The key of each inserted row is in the table. Inserting rows at once has the same effect as
/// inserting them one by one.
pub fn rows_are_put_in()
    ensures { RowsArePutIn }
{}

/// No post of an outbox is lost, over every schedule of transactions, crashes and replies. For each row, the
/// row existed at first, or its post is in the outbox, or the reply to its command was received. No post is in
/// the outbox before its row is in the table.
pub fn no_post_is_lost()
    ensures { NoPostIsLost }
{}
