// The place of a row in a window.
ghost use Rattle.std.specs.Prelude.{◌≡◌, ◌<◌, ℕ, List, [], length, slice_index_or, take};
ghost use Rattle.vtl_cell.specs.Row.{Row};
ghost use Rattle.vtl_cell.specs.Sorted.{Key, in_order};
ghost use Rattle.sql_meaning.specs.Windows.{place_within};
ghost use Rattle.sql_meaning_laws.specs.Places.{partition_at, row_at, rows_before, told_at};

/// A row stands in a window at the place that is given by how many rows of its partition stand before it: those that are
/// below it in the order, and of those that are alike the ones that are earlier in the list of the select's rows.
///
/// - `row`: what windows see of a row, which counts those that are alike behind it, is the row.
/// - `place`: its place is the number of rows before it.
/// - `there`: this is less than the number of rows of the partition, which in order has the row at this place.
pub fn rows_stand_behind_those_before_them()
    ensures row { (rows : List Row) (i : ℕ) → (told_at rows i).0 ≡ row_at rows i }
    ensures place { (keys : List Key) (places : List ℕ) (rows : List Row) (i : ℕ) → i < length rows → place_within keys (partition_at places rows i) (told_at rows i) ≡ rows_before keys (partition_at places rows i) (take i rows) (row_at rows i) }
    ensures within { (keys : List Key) (places : List ℕ) (rows : List Row) (i : ℕ) → i < length rows → rows_before keys (partition_at places rows i) (take i rows) (row_at rows i) < length (partition_at places rows i) }
    ensures there { (keys : List Key) (places : List ℕ) (rows : List Row) (i : ℕ) → i < length rows → slice_index_or (in_order keys [] (partition_at places rows i)) (rows_before keys (partition_at places rows i) (take i rows) (row_at rows i)) [] ≡ row_at rows i }
{}
