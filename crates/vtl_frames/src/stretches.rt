// Row numbers in an order, cut where the rows no longer tie.
//
// Row numbers are cut once for both languages: contracts see the list of the stretches, which together are the row
// numbers (`joined`), so a caller goes over them one by one and need not know where they begin.
ghost use Rattle.std.specs.Prelude.{◌≡◌, ◌<◌, [], IfOk, length, slice_index_or};
ghost use Rattle.vtl_frames.specs.Stretches.{start_at, stretches_of};

use std::alloc::{AllocError, Global};
use std::marker::Model;
use vtl_rows::{SortKey, Table};

/// Row numbers in an order, cut into stretches of rows that tie by keys. Where the order is one by these keys first, the
/// stretches are the partitions.
pub struct Stretches<'a> {
    numbers: &'a [usize],
    starts: Vec<usize>,
}

// Written out, so that an owner sees one call.
impl Drop for Stretches<'_> {
    fn drop(self) {
        let Stretches {
            numbers: _,
            starts: _starts,
        } = self;
    }
}

impl<'a> Model for Stretches<'a> {
    ghost use Rattle.std.specs.Prelude.{ℕ, List};
    ghost use Rattle.vtl_frames.specs.Stretches.{AreStarts, cut_at};

    ghost Value = { List (List ℕ) };

    ghost view = { λ s. cut_at s.numbers.now s.starts.items };

    ghost invariant = { λ s. AreStarts s.numbers.now s.starts.items };
}

// Where a stretch begins; past the last one the number of rows.
fn start_at(starts: &[usize], count: usize, i: usize) -> usize
    ensures { result ≡ start_at starts.now count i }
{
    match starts.get(i) {
        Some(start) => *start,
        None => count,
    }
}

impl<'a> Stretches<'a> {
    /// The stretches of these row numbers in which the rows tie by the keys. It fails only if memory runs out.
    pub fn of(
        alloc: Global,
        table: &Table,
        numbers: &'a [usize],
        keys: &[SortKey],
    ) -> Result<Stretches<'a>, AllocError>
        ensures { IfOk result (λ s. s ≡ stretches_of keys.now table.now.rows numbers.now) }
    {
        let starts = table.runs(alloc, numbers, keys)?;
        Ok(Stretches { numbers, starts })
    }

    /// How many there are.
    pub fn len(&self) -> usize
        ensures { result ≡ length self.now }
    {
        self.starts.len()
    }

    /// The row numbers of a stretch, counted from 0.
    pub fn stretch(&self, i: usize) -> &[usize]
        requires { i < length self.now }
        ensures { result.now ≡ slice_index_or self.now i [] }
    {
        let count = self.numbers.len();
        let start = start_at(&self.starts, count, i);
        let end = start_at(&self.starts, count, i + 1);
        &self.numbers[start..end]
    }
}
