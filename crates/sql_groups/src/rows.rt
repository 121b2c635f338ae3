// The rows of all groups.
//
// A row is made, nulls in place of values that have a fault, whether or not a fault was seen before: so what is
// pushed is a map over the groups, and each row fits its columns by typing alone.
ghost use Rattle.std.specs.List.{AllByRecursion};
ghost use Rattle.std.specs.Prelude.{◌≡◌, ◌<◌, true, ◌++◌, None, Ok};
ghost use Rattle.vtl_cell.specs.Outcome.{after};
ghost use Rattle.vtl_scalar.specs.Answers.{AnswersBy};
ghost use Rattle.vtl_rows.specs.Tables.{fits};
ghost use Rattle.sql_check_parts.specs.Scopes.{row_of};
ghost use Rattle.sql_check_laws.specs.Fits.{IsSeen};
ghost use Rattle.sql_from.specs.Held.{base_held};
ghost use Rattle.sql_meaning.specs.Profiles.{AreOfProfile, IsLawful};
ghost use Rattle.sql_meaning.specs.Tables.{RowsFit};
ghost use Rattle.sql_groups.specs.Items.{around, groups_made, keys_in, row_of_key};
ghost use Rattle.sql_groups.specs.Kept.{rows_of, scope_of};

use crate::group_partners::GroupPartners;
use crate::group_row::GroupRow;
use crate::grouping::Grouping;
use crate::items::{GroupSelect, push_group};
use sql_from::TupleRows;
use sql_tree::Column;
use std::alloc::Global;
use std::sync::ledger::Ledger;
use vtl_cell::Cell;
use vtl_decimal::Profile;
use vtl_index::Steps;
use vtl_rows::Table;
use vtl_scalar::{ScalarErr, Seen};

/// Puts a row of the items behind others for each group that HAVING keeps, in the order of the groups' first rows; or
/// the worst of the faults of HAVING at all groups and of the items at those that it keeps.
pub(crate) fn push_groups<'r, L: Ledger>(
    alloc: Global,
    table: &mut Table,
    select: &GroupSelect,
    rows: &TupleRows<'r>,
    group: &[Column],
    p: &Profile,
    steps: &mut Steps<L>,
) -> Result<(), ScalarErr>
    requires seen { AllByRecursion (IsSeen (scope_of rows.now) None) group.now }
    requires fit { RowsFit (row_of (scope_of rows.now)) (rows_of rows.now) }
    requires lawful { IsLawful (base_held p.now rows.now.sources.held) }
    requires ranged { AreOfProfile p.now (rows_of rows.now) }
    requires made { AllByRecursion (λ key. fits table.old.columns (row_of_key (around p.now rows.now group.now) select.now key) ≡ true) (keys_in rows.now group.now) }
    ensures columns { table.new.columns ≡ table.old.columns }
    ensures rows { AnswersBy (λ u. table.new.rows) result (after (groups_made (around p.now rows.now group.now) select.now (keys_in rows.now group.now)) (λ made. Ok (table.old.rows ++ made))) }
{
    let groups = Grouping::of(alloc, &*rows, group)?;
    let partners = GroupPartners::of(alloc, select, &*rows, p, steps)?;
    let mut key = Vec::with_capacity(alloc, group.len())?;
    let mut cells = Vec::with_capacity(alloc, select.items.len())?;
    let mut seen = Seen::Nothing;
    for number in 0..groups.len() {
        groups.put_key(number, &mut key)?;
        let null = Cell::Null;
        let at = GroupRow::of(&*rows, &partners, &key, groups.rows(number), &null);
        seen = push_group(alloc, table, &mut cells, seen, select, &at, p)?;
    }
    seen.unless(())
}
