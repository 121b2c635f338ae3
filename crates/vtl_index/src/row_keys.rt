// Keys of rows: the cells of listed columns, as they count there.
//
// A key's column says whether its integers count as numbers (`KeyForm`), and the look-up what becomes of nulls
// (`NullKeys`): VTL takes cells as they are and null as a value, an engine of SQL joins by value and never on null.
ghost use Rattle.std.specs.Prelude.{◌≡◌, ◌≤◌, length, OnOk};
ghost use Rattle.std.specs.Hash.FoldHasher as folding;
ghost use Rattle.std.specs.List.{list_any};
ghost use Rattle.std.specs.Ordering.{nat_cmp, on, then_cmp};
ghost use Rattle.vtl_cell.specs.Kinds.{is_null};
ghost use Rattle.vtl_cell.specs.Order.{cell_cmp};
ghost use Rattle.vtl_cell.specs.Row.{column_of, row_cmp, same_row};
ghost use Rattle.vtl_rows.specs.Places.{row_at};
ghost use Rattle.vtl_index.specs.Counted.{counted_value};
ghost use Rattle.vtl_index.specs.RowKeys.{begun, count_in, counted, hash_by, hashes_by, key_cell, key_of, keys_in, tag_of, with_cell};

use std::alloc::AllocError;
use std::cmp::Ordering;
use std::hash::{FoldHasher, Hash, Hasher};
use vtl_cell::{Cell, compare};
use vtl_decimal::{Profile, from_whole};
use vtl_rows::Table;

/// How the cells of a column count in a key.
#[derive(Clone, Copy, Debug, PartialEq, Eq)]
pub enum KeyForm {
    /// As they are.
    AsIs,
    /// An integer counts as the number that equals it, and as null where no number does.
    AsNumber,
}

/// A column of a key, and how its cells count there.
#[derive(Clone, Copy, Debug, PartialEq, Eq)]
pub struct KeyColumn {
    /// The place of the column. A row counts as null after its end.
    pub column: usize,
    /// How its cells count.
    pub form: KeyForm,
}

/// What becomes of keys that have a null.
#[derive(Clone, Copy, Debug, PartialEq, Eq)]
pub enum NullKeys {
    /// Null is a value like any other.
    Found,
    /// A key that has a null is not found.
    NotFound,
}

// How keys are hashed: by their cells alone, or with one cell more in front of these. Cells that were chosen to have
// like hashes the one way seldom have them the other way.
#[derive(Clone, Copy)]
pub(crate) enum Hashing {
    Plain,
    Salted,
}

impl Hashing {
    // A hasher that took in what stands in front of a key.
    fn begin(self) -> FoldHasher
        ensures { result ≡ begun self }
    {
        match self {
            Hashing::Plain => FoldHasher::default(),
            Hashing::Salted => {
                let mut state = FoldHasher::default();
                Cell::Bool(true).hash(&mut state);
                state
            }
        }
    }
}

// A cell as it counts in a key: one of the row, or one that was made.
#[derive(Drop)]
enum Counted<'a> {
    Lent(&'a Cell),
    Made(Cell),
}

impl Counted<'_> {
    fn cell(&self) -> &Cell
        ensures { result.now ≡ counted_value self.now }
    {
        match self {
            Counted::Lent(cell) => cell,
            Counted::Made(cell) => cell,
        }
    }
}

// The number that equals an integer, or null where none does.
fn number_or_null(n: i64, p: &Profile) -> Cell
    ensures { result ≡ counted p.now KeyForm.AsNumber (Cell.Int n) }
{
    match from_whole(n, p) {
        Ok(number) => Cell::Num(number),
        Err(_) => Cell::Null,
    }
}

// A cell as it counts in a form.
fn in_form<'a>(cell: &'a Cell, form: KeyForm, p: &Profile) -> Counted<'a>
    ensures { counted_value result ≡ counted p.now form cell.now }
{
    match (form, cell) {
        (KeyForm::AsNumber, Cell::Int(n)) => Counted::Made(number_or_null(*n, p)),
        _ => Counted::Lent(cell),
    }
}

// The key of a row.
#[derive(Clone, Copy)]
pub(crate) struct RowKey<'a> {
    pub(crate) row: &'a [Cell],
    pub(crate) columns: &'a [KeyColumn],
    pub(crate) p: &'a Profile,
}

impl RowKey<'_> {
    // The cell at a column.
    fn cell_at(&self, at: KeyColumn) -> Counted<'_>
        ensures { counted_value result ≡ key_cell self.now.p.now self.now.row.now at }
    {
        match self.row.get(at.column) {
            Some(cell) => in_form(cell, at.form, self.p),
            None => Counted::Made(Cell::Null),
        }
    }

    fn is_null_at(&self, at: KeyColumn) -> bool
        ensures { result ≡ is_null (key_cell self.now.p.now self.now.row.now at) }
    {
        matches!(self.cell_at(at).cell(), Cell::Null)
    }

    pub(crate) fn has_null(&self) -> bool
        ensures { result ≡ list_any (λ at. is_null (key_cell self.now.p.now self.now.row.now at)) self.now.columns.now }
    {
        self.columns.iter().any(|at| self.is_null_at(*at))
    }

    // The order of two keys, cell by cell from the left; a key that ends first is the lesser.
    pub(crate) fn compare(&self, other: &RowKey) -> Ordering
        ensures { result ≡ row_cmp (key_of self.now) (key_of other.now) }
    {
        for i in 0..self.columns.len().min(other.columns.len()) {
            match compare_cells(self, self.columns[i], other, other.columns[i]) {
                Ordering::Equal => {}
                unequal => return unequal,
            }
        }
        self.columns.len().cmp(&other.columns.len())
    }

    // The hash of the key. Its seed is fixed, so nothing but time may depend on it, and not much of that.
    pub(crate) fn hash(&self, hashing: Hashing) -> u64
        ensures { result ≡ hash_by hashing (key_of self.now) }
    {
        let mut state = hashing.begin();
        for at in self.columns {
            hash_cell(self, *at, &mut state);
        }
        state.finish()
    }
}

// The order of a cell of one key and a cell of another.
fn compare_cells(a: &RowKey, at: KeyColumn, b: &RowKey, other_at: KeyColumn) -> Ordering
    ensures { result ≡ cell_cmp (key_cell a.now.p.now a.now.row.now at) (key_cell b.now.p.now b.now.row.now other_at) }
{
    match (at.form, other_at.form) {
        (KeyForm::AsIs, KeyForm::AsIs) => compare_plain(a.row, at.column, b.row, other_at.column),
        _ => compare(a.cell_at(at).cell(), b.cell_at(other_at).cell()),
    }
}

// The same where the cells count as they are.
fn compare_plain(a: &[Cell], column: usize, b: &[Cell], other_column: usize) -> Ordering
    ensures { result ≡ cell_cmp (column_of column a.now) (column_of other_column b.now) }
{
    let null = Cell::Null;
    let x = a.get(column).unwrap_or(&null);
    let y = b.get(other_column).unwrap_or(&null);
    compare(x, y)
}

// Takes in a cell as it counts in a key.
fn hash_cell(key: &RowKey, at: KeyColumn, state: &mut FoldHasher)
    ensures { state.new ≡ with_cell folding.write state.old (key_cell key.now.p.now key.now.row.now at) }
{
    match (at.form, key.row.get(at.column)) {
        (KeyForm::AsIs, Some(cell)) => cell.hash(state),
        _ => key.cell_at(at).cell().hash(state),
    }
}

// The upper half of a hash.
pub(crate) fn tag_of(hash: u64) -> u32
    ensures { result ≡ tag_of hash }
{
    (hash / (1 << 32)) as u32
}

// The rows of a table, each with its key.
#[derive(Clone, Copy)]
pub(crate) struct KeyedRows<'a> {
    pub(crate) table: &'a Table,
    pub(crate) columns: &'a [KeyColumn],
    pub(crate) p: &'a Profile,
}

// The cells of a row, or none past the last row.
fn row_or_none(table: &Table, i: usize) -> &[Cell]
    ensures { result.now ≡ row_at table.now.rows i }
{
    if i < table.len() { table.row(i) } else { &[] }
}

impl KeyedRows<'_> {
    pub(crate) fn len(&self) -> usize
        ensures { result ≡ count_in self.now }
    {
        self.table.len()
    }

    // The key of the row at a place.
    pub(crate) fn key(&self, i: usize) -> RowKey<'_>
        ensures { key_of result ≡ keys_in self.now i }
    {
        RowKey {
            row: row_or_none(self.table, i),
            columns: self.columns,
            p: self.p,
        }
    }

    // The hashes of the keys of the rows from one up to another, in place of what the list held.
    pub(crate) fn hash_rows(
        &self,
        hashing: Hashing,
        first: usize,
        end: usize,
        hashes: &mut Vec<u64>,
    ) -> Result<(), AllocError>
        requires { first ≤ end }
        ensures { OnOk result (hashes.new.items ≡ hashes_by hashing (keys_in self.now) first end) }
    {
        hashes.clear();
        for i in first..end {
            hashes.push(self.key(i).hash(hashing))?;
        }
        Ok(())
    }

    // Something of the first cell of a row's key: the first byte of a text, whose bytes lie elsewhere again; another
    // cell counts as one.
    pub(crate) fn sample(&self, i: usize) -> usize {
        if let Some(at) = self.columns.first() {
            if let Some(Cell::Text(text)) = row_or_none(self.table, i).get(at.column) {
                return text
                    .as_str()
                    .as_bytes()
                    .first()
                    .copied()
                    .map_or(0, usize::from);
            }
        }
        1
    }

    // The order of the key of the row at a place and another key.
    pub(crate) fn compare(&self, i: usize, key: &RowKey) -> Ordering
        ensures { result ≡ row_cmp (keys_in self.now i) (key_of key.now) }
    {
        self.key(i).compare(key)
    }

    // Whether the row at a place has a key.
    #[tactic(auto, using(crate::proofs::KeyOrder::ties_same))]
    pub(crate) fn has(&self, i: usize, key: &RowKey) -> bool
        ensures { result ≡ same_row (keys_in self.now i) (key_of key.now) }
    {
        self.compare(i, key).is_eq()
    }

    // The order of the rows at two places by their keys, and by the places where these are the same.
    pub(crate) fn compare_places(&self, i: usize, j: usize) -> Ordering
        ensures { result ≡ then_cmp (on (keys_in self.now) row_cmp) nat_cmp i j }
    {
        self.compare(i, &self.key(j)).then(i.cmp(&j))
    }
}
