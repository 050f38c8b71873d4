//! A table in memory with an outbox beside it.
ghost use Rattle.std.specs.Prelude.{◌≡◌, [], Some, map, option_map, take};
ghost use Rattle.worker_table.specs.RowTable.OfPost.{post_of, stored_of};
ghost use Rattle.worker_table.specs.RowTable.Posts.{IsFirst, is_not_behind};
ghost use Rattle.worker_table.specs.RowTable.Rows.{same_key};

use crate::row_table::error::TableError;
use crate::row_table::memory::MemoryTable;
use crate::row_table::outbox::WithOutbox;
use crate::row_table::post::{Post, PostedRow};
use crate::row_table::row::Row;
use crate::row_table::table::Table;
use std::alloc::Global;

/// A table in memory with an outbox beside it. A crash leaves the rows and the posts of the last commit.
#[derive(Drop)]
pub struct MemoryOutbox {
    table: MemoryTable,
    /// The posts in the open transaction.
    posts: Vec<Post>,
    /// The posts of the last commit.
    committed: Vec<Post>,
}

impl MemoryOutbox {
    /// Creates a table without rows, with an outbox without posts.
    pub fn new(alloc: Global) -> MemoryOutbox
        ensures rows { result.table.rows.items ≡ [] }
        ensures posts { result.committed.items ≡ [] }
    {
        MemoryOutbox {
            table: MemoryTable::new(alloc),
            posts: Vec::new(alloc),
            committed: Vec::new(alloc),
        }
    }

    /// Returns the table.
    pub fn table(&self) -> &MemoryTable
        ensures { result.now ≡ self.now.table }
    {
        &self.table
    }

    /// Returns the committed posts, in the order in which they were inserted.
    pub fn posts(&self) -> &[Post]
        ensures { result.now ≡ self.now.committed.items }
    {
        &self.committed
    }
}

impl WithOutbox for MemoryOutbox {
    ghost seen = { λ o. Some (stored_of o.table.rows.items o.posts.items) };

    ghost committed = { λ o. Some (stored_of (take o.table.committed o.table.rows.items) o.committed.items) };

    ghost may_leave = { λ o left. left
        ≡ stored_of (take o.table.committed o.table.rows.items) o.committed.items };

    ghost is_open = { λ o. Some o.table.is_open };

    /// Begins a transaction. Returns an error if another transaction is open.
    fn begin(&mut self) -> Result<(), TableError> {
        let posts = self.committed.clone()?;
        self.table.begin()?;
        self.posts = posts;
        Ok(())
    }

    fn insert(&mut self, alloc: Global, row: &Row) -> Result<bool, TableError> {
        self.table.insert(alloc, row)
    }

    fn holds(&mut self, alloc: Global, row: &Row) -> Result<bool, TableError> {
        self.table.holds(alloc, row)
    }

    fn enqueue(&mut self, _alloc: Global, row: &PostedRow) -> Result<(), TableError> {
        self.table.check_open()?;
        let key = &row.row;
        if self.posts.iter().any(|post| post.first == key.first && post.second == key.second) {
            return Err(TableError::Refused("a post of this key is there"));
        }
        self.posts.push(Post {
            first: key.first,
            second: key.second,
            command: row.command.clone()?,
            question: row.question.clone()?,
        })?;
        Ok(())
    }

    fn first(&mut self, _alloc: Global) -> Result<Option<Post>, TableError> {
        self.table.check_open()?;
        match find_first(&self.posts) {
            Some(post) => Ok(Some(post.clone()?)),
            None => Ok(None),
        }
    }

    fn remove(&mut self, _alloc: Global, post: &Post) -> Result<(), TableError> {
        self.table.check_open()?;
        self.posts.retain(|there| there.first != post.first || there.second != post.second);
        Ok(())
    }

    fn commit(&mut self) -> Result<(), TableError> {
        let posts = self.posts.clone()?;
        self.table.commit()?;
        self.committed = posts;
        Ok(())
    }

    fn roll_back(&mut self) {
        self.table.roll_back();
    }
}

/// Whether the post has the key `(first, second)`.
fn has_key(post: &Post, first: u64, second: u64) -> bool
    ensures { result ≡ same_key (post_of post.now).key (first, second) }
{
    post.first == first && post.second == second
}

/// Returns the post with the smallest key, or `None` if there are no posts.
fn find_first(posts: &[Post]) -> Option<&Post>
    ensures { IsFirst (option_map (λ post. post_of post.now) result) (map post_of posts.now) }
{
    let mut first = posts.first()?;
    for post in posts {
        if !is_in_order(first, post) {
            first = post;
        }
    }
    Some(first)
}

/// Whether the key of `a` is not after the key of `b`.
fn is_in_order(a: &Post, b: &Post) -> bool
    ensures { result ≡ is_not_behind (post_of a.now).key (post_of b.now).key }
{
    a.first < b.first || (a.first == b.first && a.second <= b.second)
}
