//! The trait of a table with an outbox.
ghost use Rattle.std.specs.Prelude.{◌≡◌, ◌⊎◌, Bool, true, false, List, Option, OnErr, OnOk, IfOk, IfSome, IsTrue, ◌↔◌};
ghost use Rattle.std.specs.Prelude.{option_map, is_some, if◌then◌else◌};
ghost use Rattle.worker_table.specs.RowTable.Posts as posts;
ghost use Rattle.worker_table.specs.RowTable.Posts.{IsFirst, with_post, with_stored, without_post};
ghost use Rattle.worker_table.specs.RowTable.Rows.{IsClosed, IsRow, LeavesJust, LeavesNoOther, LeavesOldOr, find};
ghost use Rattle.worker_table.specs.RowTable.OfPost.{post_of, posted_of};
ghost use Rattle.worker_table.specs.RowTable.OfRow.{key_of, row_of};

use crate::row_table::error::TableError;
use crate::row_table::post::{Post, PostedRow};
use crate::row_table::row::Row;
use std::alloc::Global;

/// A table of rows with an outbox beside it, in a database whose transactions change both.
///
/// The contracts assume that the disk is honest. Then any crash leaves a transaction completely or not at all.
/// After a successful commit any crash leaves the transaction completely.
pub trait WithOutbox {
    /// The rows and the posts in the open transaction, if they are known.
    ghost seen: { Self → Option posts.Stored };

    /// The rows and the posts of the last commit, if they are known.
    ghost committed: { Self → Option posts.Stored };

    /// The rows and posts that a crash at this moment may leave.
    ghost may_leave: { Self → posts.Stored → Type 0 };

    /// Whether a transaction is open, if that is known.
    ghost is_open: { Self → Option Bool };

    /// Begins a transaction.
    fn begin(&mut self) -> Result<(), TableError>
        ensures seen { OnOk result (seen self.new ≡ committed self.old) }
        ensures committed { committed self.new ≡ committed self.old }
        ensures crash { LeavesNoOther (may_leave self.old) (may_leave self.new) };

    /// Inserts a row, unless its key exists. Returns whether the row was inserted.
    fn insert(&mut self, alloc: Global, row: &Row) -> Result<bool, TableError>
        ensures seen { OnOk result (seen self.new
            ≡ option_map (λ s. with_stored s (row_of row.now)) (seen self.old)) }
        ensures told { IfOk result (λ is_new. IfSome (seen self.old)
            (λ s. is_some (find (key_of row.now) s.rows) ≡ (if is_new then false else true))) }
        ensures committed { committed self.new ≡ committed self.old }
        ensures crash { LeavesNoOther (may_leave self.old) (may_leave self.new) };

    /// Whether the table has a row with the same key and the same values.
    fn holds(&mut self, alloc: Global, row: &Row) -> Result<bool, TableError>
        ensures seen { OnOk result (seen self.new ≡ seen self.old) }
        ensures told { IfOk result (λ is_there. IfSome (seen self.old)
            (λ s. IsTrue is_there ↔ IsRow s.rows (row_of row.now))) }
        ensures committed { committed self.new ≡ committed self.old }
        ensures crash { LeavesNoOther (may_leave self.old) (may_leave self.new) };

    /// Inserts the post of a row. Returns an error if a post with its key exists.
    fn enqueue(&mut self, alloc: Global, row: &PostedRow) -> Result<(), TableError>
        ensures seen { OnOk result (seen self.new
            ≡ option_map (λ s. with_post s (posts.post_for (posted_of row.now))) (seen self.old)) }
        ensures committed { committed self.new ≡ committed self.old }
        ensures crash { LeavesNoOther (may_leave self.old) (may_leave self.new) };

    /// Returns the post with the smallest key, or `None` if there are no posts.
    fn first(&mut self, alloc: Global) -> Result<Option<Post>, TableError>
        ensures seen { OnOk result (seen self.new ≡ seen self.old) }
        ensures first { IfOk result (λ found. IfSome (seen self.old)
            (λ s. IsFirst (option_map post_of found) s.posts)) }
        ensures committed { committed self.new ≡ committed self.old }
        ensures crash { LeavesNoOther (may_leave self.old) (may_leave self.new) };

    /// Removes the post with the key of `post`.
    fn remove(&mut self, alloc: Global, post: &Post) -> Result<(), TableError>
        ensures seen { OnOk result (seen self.new
            ≡ option_map (λ s. without_post s (post_of post.now).key) (seen self.old)) }
        ensures committed { committed self.new ≡ committed self.old }
        ensures crash { LeavesNoOther (may_leave self.old) (may_leave self.new) };

    /// Commits the transaction. After `Ok`, any crash leaves the transaction's changes.
    fn commit(&mut self) -> Result<(), TableError>
        ensures ok { OnOk result (committed self.new ≡ seen self.old) }
        ensures err { OnErr result (committed self.new ≡ committed self.old) }
        ensures durable { OnOk result (LeavesJust (seen self.old) (may_leave self.new)) }
        ensures crash { LeavesOldOr (seen self.old) (may_leave self.old) (may_leave self.new) }
        ensures closed { OnOk result (IsClosed (is_open self.new)) };

    /// Rolls the transaction back, if one is open.
    fn roll_back(&mut self)
        ensures committed { committed self.new ≡ committed self.old }
        ensures crash { LeavesNoOther (may_leave self.old) (may_leave self.new) }
        ensures closed { IsClosed (is_open self.new) };
}
