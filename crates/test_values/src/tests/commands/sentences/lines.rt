//! Lines, and readers and writers that fail.
ghost use Rattle.std.specs.Prelude.{◌≡◌, IfOk};

use crate::tests::check_same;
use crate::tests::commands::sentences::rows::ROWS;
use std::alloc::{AllocError, Global};
use std::io::{self, ErrorKind, Read, Write};
use std::process::Abort;
use stream_option_parsing::{RunError, run};

/// Each kind of line, the last one without LF.
const LINES: &str = "trim MAXLEN ~ 10 LIMIT 5 x\n\
trim MAXLEN ~ 10 LIMIT\n\
trim MAXLEN ~ 010\n\
trim MINID = LIMIT ACKED\n\
add * f v\n\
add LIMIT\n\
config IDMP-DURATION 86401\n\
config\n\
autoclaim COUNT 3 JUSTID\n\
claim\n\
read GROUP g c STREAMS s >\n\
read NOACK\n\
nack FAIL 1-0\n\
foo\n\
\n\
config IDMP-MAXSIZE 10000 x";

const ANSWER: &str = "ok 5\nno\nno\nok 4\nok 0\nno\nno\nno\nok 3\nok 0\nok 3\nno\nok 1\nunknown\n\
unknown\nok 2\n";

/// A reader that returns its bytes in chunks of at most `size`. It fails once, after `reads` reads, and
/// would go on after that.
#[derive(Drop)]
struct Chunks<'a> {
    bytes: &'a [u8],
    size: usize,
    reads: usize,
}

impl<'a> Read for Chunks<'a> {
    fn read(&mut self, buffer: &mut [u8]) -> io::Result<usize> {
        if self.reads == 0 {
            self.reads = usize::MAX;
            return Err(io::Error::from(ErrorKind::Interrupted));
        }
        self.reads -= 1;
        let given = self.size.min(self.bytes.len()).min(buffer.len());
        buffer[..given].copy_from_slice(&self.bytes[..given]);
        self.bytes = &self.bytes[given..];
        Ok(given)
    }
}

fn chunks_of(text: &str) -> Chunks<'_> {
    Chunks {
        bytes: text.as_bytes(),
        size: 7,
        reads: usize::MAX,
    }
}

/// What a page does that has no room left.
#[derive(Clone, Copy, Debug)]
enum Full {
    Fails,
    TakesNone,
    FailsOnce,
    TakesNoneOnce,
}

/// A writer that accepts `room` bytes, at most three at a time, and then does what `full` selects.
#[derive(Drop)]
struct Page {
    written: Vec<u8>,
    room: usize,
    full: Full,
}

impl Page {
    /// The result of a write to a page without room. With the `Once` variants it has room from then on.
    fn write_without_room(&mut self) -> io::Result<usize>
        ensures { IfOk result (λ count. count ≡ 0) }
    {
        match self.full {
            Full::Fails => Err(io::Error::from(ErrorKind::Interrupted)),
            Full::TakesNone => Ok(0),
            Full::FailsOnce => {
                self.room = usize::MAX;
                Err(io::Error::from(ErrorKind::Interrupted))
            }
            Full::TakesNoneOnce => {
                self.room = usize::MAX;
                Ok(0)
            }
        }
    }
}

impl Write for Page {
    fn write(&mut self, bytes: &[u8]) -> io::Result<usize> {
        if self.room == 0 {
            return self.write_without_room();
        }
        let taken = bytes.len().min(3).min(self.room);
        self.room -= taken;
        match self.written.extend_from_slice(&bytes[..taken]) {
            Ok(()) => Ok(taken),
            Err(AllocError) => Err(io::Error::from(ErrorKind::OutOfMemory)),
        }
    }

    fn flush(&mut self) -> io::Result<()> {
        Ok(())
    }
}

/// An empty page that allocates no more memory up to 128 bytes.
fn page_of(alloc: Global, room: usize, full: Full) -> Result<Page, AllocError> {
    Ok(Page {
        written: Vec::with_capacity(alloc, 128)?,
        room,
        full,
    })
}

/// Runs the program on the input, with the page as its output.
fn answer_on(alloc: Global, input: &mut Chunks<'_>, page: &mut Page) -> Result<(), RunError> {
    run(alloc, input, page)
}

/// Checks that these bytes, in chunks of at most `size`, have this output, on a page with room for no more.
fn check_lines(
    rt: &(impl AllocGlobal + Abort),
    bytes: &[u8],
    size: usize,
    answer: &str,
    full: Full,
) {
    let mut page = page_of(rt.alloc(), answer.len(), full).expect(rt, "memory");
    let mut input = Chunks {
        bytes,
        size,
        reads: usize::MAX,
    };
    check_same(rt, answer_on(rt.alloc(), &mut input, &mut page), Ok(()));
    check_same(rt, page.written.as_slice(), answer.as_bytes());
}

/// Checks that this line, which ends with the input, has this output.
fn check_line(rt: &(impl AllocGlobal + Abort), line: &str, wanted: &str) {
    let mut page = page_of(rt.alloc(), 128, Full::Fails).expect(rt, "memory");
    let mut input = chunks_of(line);
    check_same(rt, answer_on(rt.alloc(), &mut input, &mut page), Ok(()));
    let answer = page.written.strip_suffix(b"\n");
    assert!(rt; answer == Some(wanted.as_bytes()), "of {line}");
}

#[test]
fn each_line_is_answered(rt: HostRuntime) {
    for (line, wanted) in &ROWS {
        check_line(&rt, line, wanted);
    }
}

#[test]
fn lines_are_parted(rt: HostRuntime) {
    for (text, answer) in [
        (LINES, ANSWER),
        ("", ""),
        ("\n", "unknown\n"),
        (" ", "unknown\n"),
        ("claim \n", "ok 0\n"),
        ("claim\r\n", "unknown\n"),
        ("claim\n\nclaim", "ok 0\nunknown\nok 0\n"),
    ] {
        check_lines(&rt, text.as_bytes(), 7, answer, Full::Fails);
    }
    let bytes = b"trim MINID = \xff\nread GROUP \xff \xfe\n\xff".as_slice();
    check_lines(&rt, bytes, 1, "no\nok 3\nunknown\n", Full::Fails);
}

/// Checks that nothing is written if a read fails after `reads` reads.
fn check_failing_read(rt: &(impl AllocGlobal + Abort), reads: usize) {
    let mut page = page_of(rt.alloc(), ANSWER.len(), Full::Fails).expect(rt, "memory");
    let mut input = chunks_of(LINES);
    input.reads = reads;
    let answer = answer_on(rt.alloc(), &mut input, &mut page);
    check_same(rt, answer, Err(RunError::Read));
    assert!(rt; page.written.is_empty(), "after {reads} reads");
}

#[test]
fn nothing_is_written_where_a_read_fails(rt: HostRuntime) {
    // the last of these reads would have found the end
    for reads in 0..LINES.len().div_ceil(7) + 1 {
        check_failing_read(&rt, reads);
    }
}

/// Checks that a page with too little room holds the first `room` bytes of the output, even if it would
/// accept more at the next write.
fn check_little_room(rt: &(impl AllocGlobal + Abort), room: usize, full: Full) {
    let mut page = page_of(rt.alloc(), room, full).expect(rt, "memory");
    let answer = answer_on(rt.alloc(), &mut chunks_of(LINES), &mut page);
    assert!(rt;
        answer == Err(RunError::Write),
        "room for {room}, then {full:?}"
    );
    let begun = ANSWER.as_bytes().get(..room);
    assert!(rt; begun == Some(page.written.as_slice()));
}

#[test]
fn a_beginning_is_written_where_a_write_fails(rt: HostRuntime) {
    for room in 0..ANSWER.len() {
        check_little_room(&rt, room, Full::Fails);
        check_little_room(&rt, room, Full::TakesNone);
        check_little_room(&rt, room, Full::FailsOnce);
        check_little_room(&rt, room, Full::TakesNoneOnce);
    }
    check_lines(&rt, LINES.as_bytes(), 7, ANSWER, Full::TakesNone);
}

#[test]
fn refused_memory_writes_nothing(rt: HostRuntime) {
    let Ok(mut page) = page_of(rt.alloc(), ANSWER.len(), Full::Fails) else {
        return;
    };
    match answer_on(rt.alloc(), &mut chunks_of(LINES), &mut page) {
        Ok(()) => check_same(&rt, page.written.as_slice(), ANSWER.as_bytes()),
        Err(error) => {
            check_same(&rt, error, RunError::Memory);
            assert!(rt; page.written.is_empty());
        }
    }
}
