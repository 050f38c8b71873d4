//! Copies of entries that were read in place, with their fields in order.
ghost use Rattle.std.specs.Prelude.{◌≡◌, IfOk, option_map};
ghost use Rattle.stream_in_place.specs.SentMeaning.{octet_pairs, sent_of};

use crate::entry::EntryRef;
use crate::fields::FieldsRef;
use crate::sent::{OctetPairs, Octets, SentRow};
use std::alloc::{AllocError, Global};

impl<'a> EntryRef<'a> {
    /// Copies the entry, with its fields in order and with repeated ones.
    pub fn to_row(&self, alloc: Global) -> Result<SentRow, AllocError>
        ensures { IfOk result (λ r. sent_of r ≡ self.now) }
    {
        Ok(SentRow {
            id: String::from_str(alloc, self.id())?,
            fields: self.copy_fields(alloc)?,
            delivery: self.delivery(),
        })
    }

    /// Copies the fields. `None` if the entry was deleted.
    fn copy_fields(&self, alloc: Global) -> Result<Option<OctetPairs>, AllocError>
        ensures { IfOk result (λ f. option_map octet_pairs f ≡ self.now.fields) }
    {
        if self.is_deleted() {
            return Ok(None);
        }
        Ok(Some(self.fields().to_octets(alloc)?))
    }
}

impl<'a> FieldsRef<'a> {
    /// Copies the fields that are left, in order and with repeated ones.
    pub fn to_octets(&self, alloc: Global) -> Result<OctetPairs, AllocError>
        ensures { IfOk result (λ ps. octet_pairs ps ≡ self.now) }
    {
        let mut pairs = Vec::with_capacity(alloc, self.len())?;
        for (name, value) in self.again() {
            pairs.push((
                Octets(Vec::from_slice(alloc, name)?),
                Octets(Vec::from_slice(alloc, value)?),
            ))?;
        }
        Ok(OctetPairs(pairs))
    }
}
