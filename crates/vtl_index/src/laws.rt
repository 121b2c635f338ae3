// Laws of groups by keys.
ghost use Rattle.std.specs.Prelude.{◌≡◌, ℕ, ◌<◌, true, List, length, map, slice_index};
ghost use Rattle.std.specs.List.{list_any};
ghost use Rattle.vtl_lists.specs.Apart.{all_apart};
ghost use Rattle.vtl_cell.specs.Row.{Row, same_row};
ghost use Rattle.vtl_index.specs.Groups.{AreLeads, each_once, firsts, rows_led};
ghost use Rattle.vtl_index.specs.Leads.{leads_of, rows_with};
ghost use Rattle.vtl_rows.specs.Places.{row_at};

/// For rows that are grouped by a key, the keys of the groups are the keys of all rows, each once, in the order in
/// which they first come, and the rows of a row's group are those that have its key.
pub fn groups_are_keys()
    ensures leads { (key : Row → Row) (rows : List Row) → AreLeads (leads_of key rows) }
    ensures keys { (key : Row → Row) (rows : List Row) → map (λ first. key (row_at rows first)) (firsts (leads_of key rows)) ≡ each_once same_row (map key rows) }
    ensures rows { (key : Row → Row) (rows : List Row) (i : ℕ) → i < length rows → rows_led (leads_of key rows) (slice_index (leads_of key rows) i) ≡ rows_with key rows (key (row_at rows i)) }
{}

/// Each row once: no two are the same, and a row is among them where it is among all.
pub fn each_once_is_a_set()
    ensures apart { (rows : List Row) → all_apart same_row (each_once same_row rows) ≡ true }
    ensures all { (rows : List Row) (r : Row) → list_any (same_row r) (each_once same_row rows) ≡ list_any (same_row r) rows }
{}
