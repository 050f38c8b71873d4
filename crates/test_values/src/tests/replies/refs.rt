//! Views of what is read in place, and tables that the caller supplies.
use redis_wire::Limits;
use redis_wire::place::Span;
use std::iter::ExactSizeIterator;
use std::process::Abort;
use stream_in_place::{
    EntryPlace, EntryTables, EntryTape, FieldPlace, Full, StreamPlace, find_autoclaim, find_justid,
    find_range, find_streams,
};

/// A reply of XREAD of one stream with one entry, which has two fields of one name.
const READ: &[u8] =
    b"*1\r\n*2\r\n$1\r\ns\r\n*1\r\n*2\r\n$3\r\n1-0\r\n*4\r\n$1\r\na\r\n$1\r\n1\r\n$1\r\na\r\n$1\r\n2\r\n";

/// The next id, an entry and a deleted id.
const CLAIM: &[u8] =
    b"*3\r\n$3\r\n5-0\r\n*1\r\n*2\r\n$3\r\n1-0\r\n*2\r\n$1\r\na\r\n$1\r\n1\r\n*1\r\n$3\r\n2-0\r\n";

/// The length that an iterator reports.
fn size<I: ExactSizeIterator>(left: &I) -> usize {
    left.len()
}

/// The counts and the fields that the views of a read return.
#[test]
fn views_count_and_find(rt: HostRuntime) {
    let mut tape = EntryTape::new(rt.alloc());
    let Ok(Some(mut read)) = tape.read_streams(READ, Limits::default()) else {
        panic!(&rt; "not read in place");
    };
    assert!(rt; read.len == READ.len() && size(&read.streams) == 1);
    assert!(rt; read.streams.len() == 1 && !read.streams.is_empty());
    let Some(stream) = read.streams.next() else {
        panic!(&rt; "no stream");
    };
    assert!(rt; size(&read.streams) == 0 && read.streams.is_empty());
    let entries = stream.entries();
    assert!(rt; size(&entries) == 1 && entries.len() == 1 && !entries.is_empty());
    for entry in entries.again() {
        assert!(rt; entry.get(b"a") == Some(b"2".as_slice()) && entry.get(b"b") == None);
        assert!(rt; entry.delivery() == None && entry.delivered_count() == None);
        let fields = entry.fields();
        assert!(rt; size(&fields) == 2 && fields.len() == 2 && !fields.is_empty());
        assert!(rt; fields.again().get(b"a") == Some(b"2".as_slice()));
        assert!(rt; fields.none().is_empty());
    }
}

#[test]
fn ids_are_counted(rt: HostRuntime) {
    let mut tape = EntryTape::new(rt.alloc());
    let Ok(Some(found)) = tape.read_autoclaim(CLAIM, Limits::default()) else {
        panic!(&rt; "not read in place");
    };
    assert!(rt; found.len == CLAIM.len());
    assert!(rt; found.claimed.len() == 1 && found.deleted_ids.len() == 1);
    let mut ids = found.deleted_ids.again();
    assert!(rt; !ids.is_empty() && ids.next() == Some("2-0") && ids.is_empty());
}

const NOWHERE: Span = Span { start: 0, len: 0 };

const NO_FIELD: FieldPlace = FieldPlace {
    name: NOWHERE,
    value: NOWHERE,
};

const NO_ENTRY: EntryPlace = EntryPlace {
    id: NOWHERE,
    from: 0,
    to: 0,
    deleted: false,
    delivered: false,
    elapsed: 0,
    count: 0,
};

const NO_STREAM: StreamPlace = StreamPlace {
    name: NOWHERE,
    from: 0,
    to: 0,
};

/// Slices of the caller hold the positions if there is room; otherwise the result is `Full`.
#[test]
fn tables_of_the_caller_are_filled(rt: HostRuntime) {
    let mut streams = [NO_STREAM; 1];
    let mut entries = [NO_ENTRY; 1];
    let mut fields = [NO_FIELD; 2];
    let mut tables = EntryTables::new(&mut streams, &mut entries, &mut fields);
    assert!(rt; find_streams(Limits::default(), READ, &mut tables) == Ok(Some(READ.len())));
    assert!(rt; find_range(Limits::default(), b"*0\r\n", &mut tables) == Ok(Some(4)));
    let mut one_field = [NO_FIELD; 1];
    let mut tables = EntryTables::new(&mut streams, &mut entries, &mut one_field);
    assert!(rt; find_streams(Limits::default(), READ, &mut tables) == Err(Full));
}

/// Slices of the caller hold entries and deleted ids if there is room for both.
#[test]
fn tables_of_the_caller_hold_ids(rt: HostRuntime) {
    let bytes = b"*3\r\n$3\r\n0-0\r\n*1\r\n$3\r\n1-0\r\n*1\r\n$3\r\n2-0\r\n";
    let mut entries = [NO_ENTRY; 2];
    let mut tables = EntryTables::new(&mut [], &mut entries, &mut []);
    assert!(rt; find_autoclaim(Limits::default(), CLAIM, &mut tables) == Err(Full));
    assert!(rt; find_autoclaim(Limits::default(), bytes, &mut tables) == Ok(None));
    let Ok(Some(place)) = find_justid(Limits::default(), bytes, &mut tables) else {
        panic!(&rt; "not read in place");
    };
    assert!(rt; place.claimed == 1 && place.len == bytes.len());
    assert!(rt; place.next.start == 8 && place.next.len == 3);
    assert!(rt; entries[0].id.start == 21 && entries[1].id.start == 34);
}
