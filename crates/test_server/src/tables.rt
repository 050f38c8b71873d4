//! Tables in memory. Each expected result was computed by hand.
use crate::check_same;
use std::alloc::{AllocError, Global};
use std::process::Abort;
use worker_table::row_table::{
    Cell, MemoryOutbox, MemoryTable, PostedRow, Row, TableError, WithOutbox, put_all,
    put_all_posted,
};

/// Returns a row of this key with one text.
fn make_row(alloc: Global, key: u64, text: &[u8]) -> Result<Row, AllocError> {
    let mut cells = Vec::new(alloc);
    cells.push(Cell::Text(text.to_vec(alloc)?))?;
    Ok(Row {
        first: key,
        second: 0,
        cells,
    })
}

/// Inserts rows of these keys and texts, in one transaction.
fn put(alloc: Global, table: &mut MemoryTable, texts: &[(u64, &[u8])]) -> Result<(), TableError> {
    let mut rows = Vec::new(alloc);
    for (key, text) in texts {
        rows.push(make_row(alloc, *key, text)?)?;
    }
    put_all(alloc, table, &rows)
}

/// Checks that the rows have these keys.
fn check_keys(rt: &impl Abort, table: &MemoryTable, keys: &[u64]) {
    check_same(rt, table.rows().len(), keys.len());
    for (row, key) in table.rows().iter().zip(keys) {
        check_same(rt, row.first, *key);
    }
}

#[test]
fn each_key_is_there_once(rt: HostRuntime) {
    let mut table = MemoryTable::new(rt.alloc());
    let first = [(1, b"a".as_slice()), (2, b"b".as_slice())];
    check_same(&rt, put(rt.alloc(), &mut table, first.as_slice()), Ok(()));
    let again = [(2, b"b".as_slice()), (3, b"c".as_slice())];
    check_same(&rt, put(rt.alloc(), &mut table, again.as_slice()), Ok(()));
    check_keys(&rt, &table, [1, 2, 3].as_slice());
}

#[test]
fn other_values_roll_the_rows_back(rt: HostRuntime) {
    let mut table = MemoryTable::new(rt.alloc());
    let first = [(1, b"a".as_slice())];
    check_same(&rt, put(rt.alloc(), &mut table, first.as_slice()), Ok(()));
    let other = [(2, b"b".as_slice()), (1, b"c".as_slice())];
    check_same(
        &rt,
        put(rt.alloc(), &mut table, other.as_slice()),
        Err(TableError::OtherText {
            first: 1,
            second: 0,
        }),
    );
    check_keys(&rt, &table, [1].as_slice());
}

/// Inserts rows of these keys with their posts, in one transaction.
fn put_posted(alloc: Global, outbox: &mut MemoryOutbox, keys: &[u64]) -> Result<(), TableError> {
    let mut rows = Vec::new(alloc);
    for key in keys {
        rows.push(PostedRow {
            row: make_row(alloc, *key, b"a")?,
            command: b"command".to_vec(alloc)?,
            question: b"question".to_vec(alloc)?,
        })?;
    }
    put_all_posted(alloc, outbox, &rows)
}

/// Removes the first post, and returns its key.
fn take_first(alloc: Global, outbox: &mut MemoryOutbox) -> Result<Option<u64>, TableError> {
    let Some(post) = outbox.first(alloc)? else {
        return Ok(None);
    };
    outbox.remove(alloc, &post)?;
    Ok(Some(post.first))
}

#[test]
fn posts_come_in_the_order_of_their_keys(rt: HostRuntime) {
    let mut outbox = MemoryOutbox::new(rt.alloc());
    check_same(
        &rt,
        put_posted(rt.alloc(), &mut outbox, [3, 1, 2].as_slice()),
        Ok(()),
    );
    check_keys(&rt, outbox.table(), [3, 1, 2].as_slice());
    check_same(&rt, outbox.begin(), Ok(()));
    for key in [1, 2, 3] {
        check_same(&rt, take_first(rt.alloc(), &mut outbox), Ok(Some(key)));
    }
    check_same(&rt, take_first(rt.alloc(), &mut outbox), Ok(None));
    outbox.roll_back();
    check_same(&rt, outbox.posts().len(), 3);
}
