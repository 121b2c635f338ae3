// Laws of the definitions on lists of values.
//
// The law that hashes tell cells apart is on the writes that a hash makes, not on a hasher's result, which may
// collide.
ghost use Rattle.std.specs.Prelude.{◌≡◌, ◌<◌, ℕ, List, length, true, Contains};
ghost use Rattle.std.specs.List.{AllByRecursion};
ghost use Rattle.std.specs.Ordering.{is_le, is_ge};
ghost use Rattle.vtl_decimal.specs.Settings.{Settings};
ghost use Rattle.vtl_lists.specs.Perm.{Perm};
ghost use Rattle.vtl_cell.specs.declared.cell.Cell.{Cell};
ghost use Rattle.vtl_cell.specs.declared.operator.AggKind.{AggKind};
ghost use Rattle.vtl_cell.specs.Frames.{Bound, frame_of, is_between, rows_at};
ghost use Rattle.vtl_cell.specs.Groups.{count_of_points, group_value, greatest, least, ratio_of};
ghost use Rattle.vtl_cell.specs.Order.{cell_cmp};
ghost use Rattle.vtl_cell.specs.Row.{Row};

/// The value of a group does not depend on the order of its list: neither that of an aggregate, nor the count of its
/// points, nor the ratio of a value to its total.
pub fn groups_have_no_order()
    ensures values { (p : Settings) (kind : AggKind) (xs ys : List Cell) → Perm xs ys → group_value p kind xs ≡ group_value p kind ys }
    ensures points { (p : Settings) (xs ys : List Row) → Perm xs ys → count_of_points p xs ≡ count_of_points p ys }
    ensures ratios { (p : Settings) (x : Cell) (xs ys : List Cell) → Perm xs ys → ratio_of p x xs ≡ ratio_of p x ys }
{}

/// The least and the greatest of some cells are among them, and no cell is less than the least or greater than the
/// greatest.
pub fn least_and_greatest_are_bounds()
    ensures least_is_one { (xs : List Cell) → 0 < length xs → Contains xs (least xs) }
    ensures none_is_less { (xs : List Cell) → AllByRecursion (λ x. is_le (cell_cmp (least xs) x) ≡ true) xs }
    ensures greatest_is_one { (xs : List Cell) → 0 < length xs → Contains xs (greatest xs) }
    ensures none_is_greater { (xs : List Cell) → AllByRecursion (λ x. is_ge (cell_cmp (greatest xs) x) ≡ true) xs }
{}

/// A frame has exactly the rows of the partition, in their order, whose places lie between its bounds.
pub fn frames_lie_between_their_bounds<T>()
    ensures { (start end : Bound) (i : ℕ) (rows : List T) (d : T) → frame_of start end i rows ≡ rows_at (is_between start end (length rows) i) rows d }
{}
