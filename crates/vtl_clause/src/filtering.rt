// `filter`
ghost use Rattle.std.specs.Prelude.{◌≡◌, true, ◌++◌, ◌∷◌, [], Ok, IfOk, IfErr, if◌then◌else◌};
ghost use Rattle.vtl_cell.specs.Outcome.{fault_in, join};
ghost use Rattle.vtl_cell.specs.Outcomes.{is_true};
ghost use Rattle.vtl_rows.specs.Tables.{fits, listed};
ghost use Rattle.vtl_scalar.specs.Answers.{Answers, AnswersBy};
ghost use Rattle.vtl_tree.specs.Clauses.{filter_of, kept as kept_of};
ghost use Rattle.vtl_tree.specs.Value.{value};
ghost use Rattle.vtl_tree.specs.View.{comp_exp_of};
ghost use Rattle.vtl_sets.specs.DataSets.{with_structure};
ghost use Rattle.vtl_meaning.specs.Made.{IsFiltered};
ghost use Rattle.vtl_sets.specs.TableOf.{IsTableOf};
ghost use Rattle.vtl_expr.specs.Prepared.{prepared_exp};
ghost use Rattle.vtl_scalar.specs.Seen.{seen_of};
ghost use Rattle.vtl_clause.specs.Walks.{fault_over};

use std::alloc::Global;
use vtl_cell::Cell;
use vtl_decimal::Profile;
use vtl_expr::{Point, Prepared, prepare};
use vtl_rows::Table;
use vtl_scalar::{ScalarErr, Seen};
use vtl_sets::{DataSet, new_table};
use vtl_tree::{CompExpr, Structure};

// Whether a cell is true.
fn is_true(cell: &Cell) -> bool
    ensures { result ≡ is_true (Ok cell.now) }
{
    matches!(cell, Cell::Bool(true))
}

// Puts a copy of a row after those that are kept, by way of `room`, where the condition is true, and records the
// condition's fault.
fn keep(
    alloc: Global,
    kept: &mut Table,
    room: &mut Vec<Cell>,
    seen: Seen,
    condition: &Prepared,
    row: &[Cell],
    p: &Profile,
) -> Result<Seen, ScalarErr>
    requires fits { fits kept.old.columns row.now ≡ true }
    requires empty { room.old.items ≡ [] }
    ensures columns { kept.new.columns ≡ kept.old.columns }
    ensures rows { IfOk result (λ _. kept.new.rows ≡ kept.old.rows ++ (if is_true (value p.now (prepared_exp condition.now) row.now) then row.now ∷ [] else [])) }
    ensures empty { IfOk result (λ _. room.new.items ≡ []) }
    ensures seen { IfOk result (λ s. seen_of s ≡ join (seen_of seen) (fault_in (value p.now (prepared_exp condition.now) row.now))) }
    ensures err { IfErr result (λ e. e ≡ ScalarErr.OutOfMemory) }
{
    match Point::of(row).value(alloc, condition, p) {
        Ok(value) => {
            if is_true(value.cell()) {
                kept.push_copy(row, room)?;
            }
            Ok(seen)
        }
        Err(error) => seen.and(error),
    }
}

/// Puts copies of the rows of a table at which a condition is true behind those that are kept, in their order, below the
/// same columns. It gives the fault seen so far with that of the condition at each row, kept or not; it fails only if
/// memory runs out.
pub fn keep_rows(
    alloc: Global,
    kept: &mut Table,
    before: Seen,
    condition: &Prepared,
    rows: &Table,
    p: &Profile,
) -> Result<Seen, ScalarErr>
    requires { rows.now.columns ≡ kept.old.columns }
    ensures columns { kept.new.columns ≡ kept.old.columns }
    ensures rows { IfOk result (λ _. kept.new.rows ≡ kept.old.rows ++ kept_of p.now (prepared_exp condition.now) rows.now.rows) }
    ensures seen { IfOk result (λ s. seen_of s ≡ join (seen_of before) (fault_over p.now (prepared_exp condition.now) rows.now.rows)) }
    ensures err { IfErr result (λ e. e ≡ ScalarErr.OutOfMemory) }
{
    let mut room = Vec::with_capacity(alloc, rows.columns().len())?;
    let mut seen = before;
    for i in 0..rows.len() {
        seen = keep(alloc, kept, &mut room, seen, condition, rows.row(i), p)?;
    }
    Ok(seen)
}

fn kept_table(
    alloc: Global,
    a: &DataSet,
    condition: &CompExpr,
    made: &Structure,
    p: &Profile,
) -> Result<Table, ScalarErr>
    requires { IsFiltered p.now (comp_exp_of condition.now) a.now.structure made.now }
    ensures table { IfOk result (λ t. IsTableOf made.now (listed t)) }
    ensures rows { AnswersBy (λ t. t.rows) result (filter_of p.now (comp_exp_of condition.now) a.now.points) }
{
    let prepared = prepare(alloc, condition)?;
    let table = a.table();
    let mut kept = new_table(alloc, made)?;
    let seen = keep_rows(alloc, &mut kept, Seen::Nothing, &prepared, table, p)?;
    seen.unless(kept)
}

/// The points at which the condition is true, as a data set of the same structure. The answer is DivZero where the
/// condition divides by zero at any point, otherwise Range where it is out of range at any; otherwise it fails only if
/// memory runs out.
pub fn filter(
    alloc: Global,
    a: &DataSet,
    condition: &CompExpr,
    made: &Structure,
    p: &Profile,
) -> Result<DataSet, ScalarErr>
    requires { IsFiltered p.now (comp_exp_of condition.now) a.now.structure made.now }
    ensures { Answers result (with_structure made.now (filter_of p.now (comp_exp_of condition.now) a.now.points)) }
{
    let table = kept_table(alloc, a, condition, made, p);
    DataSet::answered(alloc, made, table)
}
