use crate::tests::check_same;
use std::alloc::{AllocError, Global};
use std::io::{self, ErrorKind, Write};
use std::process::Abort;
use test_notation::row_lines::{PrintError, print_rows};
use test_notation::vectors::Row;

/// A row of the name `v01` for each text and its expected text.
fn rows_of(alloc: Global, texts: &[(&str, &str)]) -> Result<Vec<Row>, AllocError> {
    let mut rows = Vec::new(alloc);
    for (text, stored) in texts {
        rows.push(row(alloc, text, stored)?)?;
    }
    Ok(rows)
}

fn row(alloc: Global, text: &str, stored: &str) -> Result<Row, AllocError> {
    let name = String::from_str(alloc, "v01")?;
    let text = String::from_str(alloc, text)?;
    let stored = String::from_str(alloc, stored)?;
    Ok(Row { name, text, stored })
}

/// Checks that the rows of these texts are printed as these lines.
fn check_lines(
    rt: &(impl AllocGlobal + Abort),
    texts: &[(&str, &str)],
    all_same: bool,
    lines: &str,
) {
    let rows = rows_of(rt.alloc(), texts).expect(rt, "memory");
    let mut written = Vec::new(rt.alloc());
    check_same(rt, print_rows(&rows, &mut written), Ok(all_same));
    check_same(rt, written.as_slice(), lines.as_bytes());
}

#[test]
fn a_row_that_differs_says_so(rt: HostRuntime) {
    check_lines(&rt, &[("a", "b")], false, "v01 a differs from b\n");
    check_lines(&rt, &[("a", "a")], true, "v01 a\n");
    check_lines(&rt, &[], true, "");
    let two = "v01 x differs from y\nv01 \n";
    check_lines(&rt, &[("x", "y"), ("", "")], false, two);
}

/// A writer that fails at each write, as a closed pipe does.
#[derive(Drop)]
struct Closed;

impl Write for Closed {
    fn write(&mut self, _bytes: &[u8]) -> io::Result<usize> {
        Err(io::Error::from(ErrorKind::BrokenPipe))
    }

    fn flush(&mut self) -> io::Result<()> {
        Ok(())
    }
}

/// A writer that accepts this number of bytes, and then 0 at each write.
#[derive(Drop)]
struct Bounded(usize);

impl Write for Bounded {
    fn write(&mut self, bytes: &[u8]) -> io::Result<usize> {
        let taken = self.0.min(bytes.len());
        self.0 -= taken;
        Ok(taken)
    }

    fn flush(&mut self) -> io::Result<()> {
        Ok(())
    }
}

#[test]
fn a_writer_that_fails_is_told(rt: HostRuntime) {
    let rows = rows_of(rt.alloc(), &[("a", "a")]).expect(&rt, "memory");
    check_same(&rt, print_rows(&rows, &mut Closed), Err(PrintError::Write));
    for room in 0..6 {
        let answer = print_rows(&rows, &mut Bounded(room));
        assert!(rt; answer == Err(PrintError::Write), "room {room}");
    }
    check_same(&rt, print_rows(&rows, &mut Bounded(6)), Ok(true));
}
