// Laws of the order of rows.
ghost use Rattle.std.specs.Prelude.{◌≡◌, ℕ, List, ◌++◌, length, map, All};
ghost use Rattle.std.specs.List.{range_with_len};
ghost use Rattle.vtl_cell.specs.Row.{Row, row_cmp};
ghost use Rattle.vtl_cell.specs.Sorted.{Key, by_keys, in_order, rising};
ghost use Rattle.vtl_rows.specs.declared.column.SortKey.{SortKey};
ghost use Rattle.vtl_rows.specs.Keys.{key_of, ordered};

/// The order by all columns, from the left, is the order of rows, where each row has a cell for each column.
pub fn all_columns_order_rows()
    ensures { (n : ℕ) (r s : Row) → length r ≡ n → length s ≡ n → by_keys (map rising (range_with_len 0 n)) r s ≡ row_cmp r s }
{}

/// Rows in the order of keys, of further columns that rise, and last of all columns, stand in the order in which rows
/// tie only where they are equal.
pub fn all_columns_end_ties()
    ensures { (keys : List SortKey) (first : List Key) (places : List ℕ) (n : ℕ) (rows : List Row) → map key_of keys ≡ first ++ map rising places ++ map rising (range_with_len 0 n) → All (λ r. length r ≡ n) rows → ordered keys rows ≡ in_order first places rows }
{}
