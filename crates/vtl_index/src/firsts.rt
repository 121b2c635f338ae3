// The first rows that are found by keys.
ghost use Rattle.std.specs.Prelude.{◌≡◌, ◌≤◌, length, IfOk, OnOk};
ghost use Rattle.vtl_index.specs.Finders.{IsFinder, hashing_of};
ghost use Rattle.vtl_index.specs.GroupedRows.{keys_of, lookup_of};
ghost use Rattle.vtl_index.specs.Matches.{firsts_by};
ghost use Rattle.vtl_index.specs.RowIndex.{first_found, is_sought};
ghost use Rattle.vtl_index.specs.RowKeys.{hash_by, key_of, keys_in};

use crate::finder::{BLOCK, Finder};
use crate::grouped_rows::GroupedRows;
use crate::row_keys::{KeyedRows, NullKeys, RowKey};
use std::alloc::{AllocError, Global};

// Whether a key is looked for at all.
fn is_sought(nulls: NullKeys, key: &RowKey) -> bool
    ensures { result ≡ is_sought nulls (key_of key.now) }
{
    match nulls {
        NullKeys::Found => true,
        NullKeys::NotFound => !key.has_null(),
    }
}

// The number of the first row that has a key, of which this is the hash, or how many rows there are.
pub(crate) fn first_of(rows: &GroupedRows, finder: &Finder, key: &RowKey, hash: u64) -> usize
    requires hash { hash ≡ hash_by (hashing_of finder.now) (key_of key.now) }
    requires finds { IsFinder (keys_of (lookup_of rows.now)) (length rows.now.table.now.rows) finder.now }
    ensures { result ≡ first_found (lookup_of rows.now) (key_of key.now) }
{
    let count = rows.table.len();
    if !is_sought(rows.nulls, key) {
        return count;
    }
    finder.find(&rows.keyed(), key, hash).unwrap_or(count)
}

// The same for the keys of the rows from one up to another, behind what was found by those of the rows before.
fn push_firsts(
    rows: &GroupedRows,
    finder: &Finder,
    asked: &KeyedRows,
    first: usize,
    end: usize,
    hashes: &mut Vec<u64>,
    firsts: &mut Vec<usize>,
) -> Result<(), AllocError>
    requires from { first ≤ end }
    requires finds { IsFinder (keys_of (lookup_of rows.now)) (length rows.now.table.now.rows) finder.now }
    requires before { firsts.old.items ≡ firsts_by (lookup_of rows.now) (keys_in asked.now) first }
    ensures { OnOk result (firsts.new.items ≡ firsts_by (lookup_of rows.now) (keys_in asked.now) end) }
{
    asked.hash_rows(finder.hashing(), first, end, hashes)?;
    // As in `push_leads`; the sum changes nothing but how much room there is.
    if finder.fetched(&rows.keyed(), hashes) == usize::MAX {
        firsts.reserve(1)?;
    }
    for i in first..end {
        firsts.push(first_of(rows, finder, &asked.key(i), hashes[i - first]))?;
    }
    Ok(())
}

// The same for the keys of the first rows of a table, as many as are counted. Past the last row it asks for a row
// without cells.
pub(crate) fn firsts_of(
    alloc: Global,
    rows: &GroupedRows,
    finder: &Finder,
    asked: &KeyedRows,
    count: usize,
) -> Result<Vec<usize>, AllocError>
    requires { IsFinder (keys_of (lookup_of rows.now)) (length rows.now.table.now.rows) finder.now }
    ensures { IfOk result (λ v. v.items ≡ firsts_by (lookup_of rows.now) (keys_in asked.now) count) }
{
    let mut firsts = Vec::with_capacity(alloc, count)?;
    let mut hashes = Vec::with_capacity(alloc, count.min(BLOCK))?;
    let mut first = 0;
    while first < count {
        let end = first.saturating_add(BLOCK).min(count);
        push_firsts(rows, finder, asked, first, end, &mut hashes, &mut firsts)?;
        first = end;
    }
    Ok(firsts)
}
