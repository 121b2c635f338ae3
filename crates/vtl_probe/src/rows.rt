// The fields of a case.
use csv::StringRecord;
use std::alloc::{AllocError, Global};

// A case: the fields of a line.
#[derive(Clone, Copy)]
pub(crate) struct Row<'a> {
    pub(crate) fields: &'a StringRecord,
}

impl<'a> Row<'a> {
    // A field that is not there is empty.
    pub(crate) fn field(&self, place: usize) -> &'a str {
        self.fields.get(place).unwrap_or("")
    }

    // The fields from a place on, with commas between them.
    pub(crate) fn from(&self, alloc: Global, place: usize) -> Result<String, AllocError> {
        let mut out = String::from_str(alloc, self.field(place))?;
        for other in place.saturating_add(1)..self.fields.len() {
            out.push_str(",")?;
            out.push_str(self.field(other))?;
        }
        Ok(out)
    }
}
