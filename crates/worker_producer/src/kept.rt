//! Records in memory.
ghost use Rattle.std.specs.Prelude.{◌≡◌, IfOk, Some, drop, map, take};
ghost use Rattle.worker_producer.specs.Records.{field_of, fields_of};

use crate::source::{Field, NotRead, Record, Source};
use std::alloc::{AllocError, Global};

/// Records in memory. A read fails if there is no memory for the copies.
impl Source for Vec<Record> {
    ghost records = { λ kept. Some (map fields_of kept.items) };

    fn read(&mut self, alloc: Global, behind: u64, most: usize) -> Result<Vec<Record>, NotRead> {
        match copy_records(alloc, slice_records(self, behind, most)) {
            Ok(records) => Ok(records),
            Err(_error) => Err(NotRead),
        }
    }

    fn read_ahead(&mut self, _alloc: Global, _behind: u64, _most: usize) {}
}

/// The records after the first `behind` ones, at most `most` of them.
fn slice_records(records: &[Record], behind: u64, most: usize) -> &[Record]
    ensures { result.now ≡ take most (drop behind records.now) }
{
    let rest = if behind < records.len() as u64 {
        &records[behind as usize..]
    } else {
        &[]
    };
    if most < rest.len() {
        &rest[..most]
    } else {
        rest
    }
}

/// Copies records.
fn copy_records(alloc: Global, records: &[Record]) -> Result<Vec<Record>, AllocError>
    ensures { IfOk result (λ copies. map fields_of copies.items ≡ map fields_of records.now) }
{
    let mut copies = Vec::new(alloc);
    for original in records {
        copies.push(copy_record(alloc, original)?)?;
    }
    Ok(copies)
}

/// Copies a record.
fn copy_record(alloc: Global, original: &Record) -> Result<Record, AllocError>
    ensures { IfOk result (λ copy. fields_of copy ≡ fields_of original.now) }
{
    let mut copy = Vec::new(alloc);
    for field in original {
        copy.push(copy_field(field)?)?;
    }
    Ok(copy)
}

/// Copies a field.
fn copy_field(field: &Field) -> Result<Field, AllocError>
    ensures { IfOk result (λ copy. field_of copy ≡ field_of field.now) }
{
    Ok((field.0.clone()?, field.1.clone()?))
}
