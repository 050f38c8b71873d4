//! The set of known ids, and the ids in a long file. Each expected result was computed by hand. The program
//! `test_cases` has the numbers of ids, and the ids in short files.
use crate::check_same;
use std::alloc::AllocError;
use std::process::Abort;
use worker_journal::known_ids::{FileError, KnownId, KnownIds, numbers_of_file};
use worker_journal::{LogError, MemoryFile};

/// Returns the number of an id: its milliseconds times 2^64, and its sequence number.
fn to_u128(ms: u64, seq: u64) -> u128 {
    ms as u128 * 18_446_744_073_709_551_616 + seq as u128
}

#[test]
fn an_id_keeps_its_number_and_its_place(rt: HostRuntime) {
    for number in [0u128, 7, to_u128(1, 0), to_u128(12, 34), u128::MAX] {
        let id = KnownId::new(number, 340);
        check_same(&rt, id.number(), number);
        check_same(&rt, id.place(), 340);
    }
}

/// Checks that these ids are known, with the offsets of their lines, and that those are not.
fn check_known(
    rt: &(impl AllocGlobal + Abort),
    ids: &KnownIds,
    known: &[(u128, usize)],
    new: &[u128],
) {
    check_same(rt, ids.len(), known.len());
    for (number, place) in known {
        assert!(rt; ids.has(*number), "{number} is not known");
        check_same(rt, ids.place_of(*number), Some(*place));
    }
    for number in new {
        assert!(rt; !ids.has(*number), "{number} is known");
        check_same(rt, ids.place_of(*number), None);
    }
}

/// Checks ids that were known from the start, and ids that were added to them.
fn fill(rt: &(impl AllocGlobal + Abort)) -> Result<(), AllocError> {
    let mut told = Vec::new(rt.alloc());
    for (number, place) in [(9u128, 0usize), (3, 8), (5, 16)] {
        told.push(KnownId::new(number, place))?;
    }
    let mut ids = KnownIds::of(told);
    check_known(
        rt,
        &ids,
        [(3u128, 8usize), (5, 16), (9, 0)].as_slice(),
        [0u128, 4, 8, 10].as_slice(),
    );
    for (number, place) in [(10u128, 24usize), (4, 40), (0, 41), (u128::MAX, 97)] {
        ids.make_room()?;
        match ids.add(number, place) {
            Ok(()) => {}
            Err(_) => panic!(rt; "there was room"),
        }
    }
    let known = [
        (0u128, 41usize),
        (3, 8),
        (4, 40),
        (5, 16),
        (9, 0),
        (10, 24),
        (u128::MAX, 97),
    ]
    .as_slice();
    check_known(rt, &ids, known, [1u128, 2, 6, 8, 11].as_slice());
    Ok(())
}

#[test]
fn what_is_added_is_known(rt: HostRuntime) {
    assert!(rt; fill(&rt).is_ok());
}

#[test]
fn nothing_is_known_at_first(rt: HostRuntime) {
    let ids = KnownIds::of(Vec::new(rt.alloc()));
    check_known(&rt, &ids, [].as_slice(), [0u128, 1, u128::MAX].as_slice());
}

/// Returns the ids of the lines of a file with these bytes.
fn read_ids(rt: &(impl AllocGlobal + Abort), bytes: &[u8]) -> Result<Vec<KnownId>, FileError> {
    let file = MemoryFile::new(rt.alloc(), bytes.to_vec(rt.alloc())?);
    numbers_of_file(rt.alloc(), &file, false)
}

/// Checks that these are the ids, and these the offsets of their lines.
fn check_ids(rt: &impl Abort, told: &[KnownId], ids: &[(u128, usize)]) {
    check_same(rt, told.len(), ids.len());
    for (told, (number, place)) in told.iter().zip(ids) {
        check_same(rt, told.number(), *number);
        check_same(rt, told.place(), *place);
    }
}

/// Returns the bytes of a file that is read in several pieces. Lines cross the ends of pieces.
fn make_long_file(rt: &(impl AllocGlobal + Abort)) -> Result<Vec<u8>, AllocError> {
    let mut bytes = Vec::new(rt.alloc());
    for number in 0..20_000u64 {
        let line = format!(in rt.alloc();
            "{}-{}\tname\ta value of some length: {}\n",
            number,
            number % 7,
            number
        )?;
        bytes.extend_from_slice(line.as_bytes())?;
    }
    Ok(bytes)
}

/// Checks each id of the long file, and the offsets of three lines.
fn check_long(rt: &(impl AllocGlobal + Abort)) -> Result<(), FileError> {
    let bytes = make_long_file(rt)?;
    let told = read_ids(rt, &bytes)?;
    assert_eq!(rt; told.len(), 20_000);
    for number in 0..20_000usize {
        assert_eq!(rt;
            told[number].number(),
            to_u128(number as u64, number as u64 % 7)
        );
    }
    // A line has 33 bytes with its end, and its number twice beside these: ten of one digit, 90 of two, and so on.
    assert_eq!(rt; told[1].place(), 35);
    assert_eq!(rt; told[10].place(), 350);
    assert_eq!(rt; told[19_999].place(), 837_737);
    Ok(())
}

#[test]
fn lines_stand_over_the_ends_of_pieces(rt: HostRuntime) {
    assert!(rt; check_long(&rt).is_ok());
}

#[test]
fn refused_memory_changes_nothing_else(rt: HostRuntime) {
    match fill(&rt) {
        Ok(()) | Err(AllocError) => {}
    }
    match read_ids(&rt, b"1-0\tn\tv\n2-0\n3-0") {
        Ok(told) => check_ids(
            &rt,
            &told,
            [(to_u128(1, 0), 0usize), (to_u128(2, 0), 8)].as_slice(),
        ),
        Err(error) => assert!(rt; matches!(error, FileError::Log(LogError::Memory))),
    }
}
