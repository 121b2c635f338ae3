// The queries of the forms of two and of three operands.
//
// Of a pair the operand with all identifiers is the first source, and the ON is equalities of all the other one's
// identifiers: so a row meets one row at most, found by its key. Without identifiers the ON is TRUE.
//
// `if` on data sets is a UNION ALL of two selects, and the second asks for `CASE WHEN x THEN FALSE ELSE TRUE END`: a
// null condition chooses the second operand, and NOT of null is null.
ghost use Rattle.std.specs.Prelude.{◌≡◌, ◌∷◌, [], map, IfOk};
ghost use Rattle.std.specs.Option.{option_map};
ghost use Rattle.vtl_tree.specs.Shown.{shown};
ghost use Rattle.vtl_tree.specs.Columns.{identifiers_of};
ghost use Rattle.sql_tree.specs.View.{expr_tree, item_tree, join_tree, query_tree, select_tree};
ghost use Rattle.sql_tree.specs.Trees.{on};
ghost use Rattle.sql_tree.specs.declared.word_groups.JoinKind.TheVariants as joining;
ghost use Rattle.selects_to_sql.specs.Items.{all_of};
ghost use Rattle.selects_to_sql.specs.PairItems.{agreement_on, chosen_from, from_two, paired_from, paired_of};
ghost use Rattle.selects_to_sql.specs.Queries.{choose_query, pair_query, second_alias, source_as};

use crate::conditions::{agreement, chosen, not_chosen};
use crate::pair_items::{Namesakes, chosen_items, paired_items};
use crate::queries::{one_select, two_selects};
use crate::writer::Writer;
use sql_tree::{Item, Join, JoinKind, Query, Select, SqlExpr};
use std::alloc::{AllocError, Global};
use vtl_cell::ScalarOp;
use vtl_text::{List, Txt};
use vtl_tree::{Component, Structure, contains};

/// An operand: its structure, and the table that stands for it.
#[derive(Drop)]
pub struct Operand<'a> {
    /// Its structure.
    pub structure: &'a Structure,
    /// The table that stands for it.
    pub table: &'a Txt,
}

// A further source, whose identifiers agree with their namesakes in the first, which has these columns.
fn joined(
    alloc: Global,
    writer: &Writer,
    columns: &[&Component],
    other: &Operand<'_>,
) -> Result<Join, AllocError>
    ensures { IfOk result (λ j. join_tree j ≡ on joining.Inner (source_as second_alias other.now.table.now) (all_of (map (agreement_on (shown columns.now)) (identifiers_of other.now.structure.now)))) }
{
    let identifiers = other.structure.identifiers(alloc)?;
    let source = writer.other_source(other.table)?;
    Ok(Join::On {
        kind: JoinKind::Inner,
        source,
        condition: agreement(alloc, writer, columns, &identifiers)?,
    })
}

/// A select from a table and a further source. It fails only if memory runs out.
pub fn from_two(
    alloc: Global,
    writer: &Writer,
    items: Vec<Item>,
    table: &Txt,
    join: Join,
    condition: Option<SqlExpr>,
) -> Result<Select, AllocError>
    ensures { IfOk result (λ x. select_tree x ≡ from_two (map item_tree items.items) table.now (join_tree join) (option_map expr_tree condition)) }
{
    let from = writer.source(table)?;
    let mut joins = Vec::with_capacity(alloc, 1)?;
    joins.push(join)?;
    Ok(Select {
        items: List::of(items),
        from,
        joins: List::of(joins),
        condition,
        group: List::of(Vec::new(alloc)),
        having: None,
    })
}

// The pairs of rows of the operand that leads and of the other one, with an operator at the measures of the left one.
fn paired(
    alloc: Global,
    writer: &Writer,
    operator: Namesakes,
    left: &Structure,
    lead: &Operand<'_>,
    other: &Operand<'_>,
    s: &Structure,
) -> Result<Select, AllocError>
    ensures { IfOk result (λ x. select_tree x ≡ paired_from writer.now operator.op operator.left_leads left.now lead.now.structure.now other.now.structure.now s.now lead.now.table.now other.now.table.now) }
{
    let columns = lead.structure.columns(alloc)?;
    let items = paired_items(alloc, writer, operator, &columns, left, s)?;
    let join = joined(alloc, writer, &columns, other)?;
    from_two(alloc, writer, items, lead.table, join, None)
}

// The pairs of rows of two operands. The operand with all identifiers leads.
fn pairs_select(
    alloc: Global,
    writer: &Writer,
    op: ScalarOp,
    a: &Operand<'_>,
    b: &Operand<'_>,
    s: &Structure,
) -> Result<Select, AllocError>
    ensures { IfOk result (λ x. select_tree x ≡ paired_of writer.now op a.now.structure.now b.now.structure.now s.now a.now.table.now b.now.table.now) }
{
    let left = a.structure;
    let left_leads = contains(left, b.structure);
    let operator = Namesakes { op, left_leads };
    if left_leads {
        paired(alloc, writer, operator, left, a, b, s)
    } else {
        paired(alloc, writer, operator, left, b, a, s)
    }
}

/// An operator on the measures of two operands. The operand with all identifiers stands first.
pub fn pair_query(
    alloc: Global,
    writer: &Writer,
    op: ScalarOp,
    a: &Operand<'_>,
    b: &Operand<'_>,
    s: &Structure,
) -> Result<Query, AllocError>
    ensures { IfOk result (λ q. query_tree q ≡ pair_query writer.now op a.now.structure.now b.now.structure.now s.now a.now.table.now b.now.table.now) }
{
    let select = pairs_select(alloc, writer, op, a, b, s)?;
    one_select(alloc, select)
}

// The rows of a condition's operand for which a branch is chosen, with the measures of the branch.
fn branch(
    alloc: Global,
    writer: &Writer,
    condition: SqlExpr,
    tested: &Operand<'_>,
    branch: &Operand<'_>,
    s: &Structure,
) -> Result<Select, AllocError>
    ensures { IfOk result (λ x. select_tree x ≡ chosen_from (expr_tree condition) tested.now.structure.now branch.now.structure.now s.now tested.now.table.now branch.now.table.now) }
{
    let columns = tested.structure.columns(alloc)?;
    let items = chosen_items(alloc, writer, &columns, s)?;
    let join = joined(alloc, writer, &columns, branch)?;
    from_two(alloc, writer, items, tested.table, join, Some(condition))
}

/// `if` on data sets: the rows of the condition at which it is true with the first branch, and all others with the second.
pub fn choose_query(
    alloc: Global,
    writer: &Writer,
    tested: &Operand<'_>,
    a: &Operand<'_>,
    b: &Operand<'_>,
    s: &Structure,
) -> Result<Query, AllocError>
    ensures { IfOk result (λ q. query_tree q ≡ choose_query writer.now tested.now.structure.now a.now.structure.now b.now.structure.now s.now tested.now.table.now a.now.table.now b.now.table.now) }
{
    let is_chosen = chosen(alloc, writer, tested.structure)?;
    let first = branch(alloc, writer, is_chosen, tested, a, s)?;
    let is_not_chosen = not_chosen(alloc, chosen(alloc, writer, tested.structure)?)?;
    let second = branch(alloc, writer, is_not_chosen, tested, b, s)?;
    two_selects(alloc, first, second)
}
