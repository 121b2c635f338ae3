// The queries of joins, over the tables of the operands. Those of a full join are in full_joins.rt.
//
// A join is one select, with the reference as first source and one JOIN for each other operand, whose ON is
// equalities with columns of the reference; a cross join has no ON. Aliases are numbered, since there may be many.
// The filter of a join is the WHERE of that select, in which each component is the column that the select shows for it.
//
// Rows behind a left join are no points, since identifiers are null in them; proofs take their columns as measures
// (Loose.antt of `selects_to_sql`), and one proof of a chain of joins serves inner, left and full (proofs/Chains.antt).
ghost use Rattle.std.specs.Prelude.{◌≡◌, ◌<◌, ◌++◌, ◌∷◌, [], length, map, option_map, slice_get, IfOk, OnOk};
ghost use Rattle.vtl_tree.specs.Shown.{shown};
ghost use Rattle.vtl_tree.specs.Structure.{columns_of};
ghost use Rattle.sql_tree.specs.View.{expr_tree, join_tree, query_tree};
ghost use Rattle.joins_to_sql.specs.JoinItems.{aliased_of, crossed_query, crossed_with, joined_on, joined_values, joined_with, picked_column, referred_query};
ghost use Rattle.joins_to_sql.specs.FilteredJoins.{condition_of, filtered_by};
ghost use Rattle.joins_to_sql.specs.Joins.{cross_query, reference_query, without};
ghost use Rattle.selects_to_sql.specs.Queries.{items_as, select_as, source_as};

use crate::join_items::{Picked, all_tied, condition_over, named_items, push_columns, push_roles};
use crate::join_operands::{Aliased, with_aliases};
use selects_to_sql::{Writer, no_query};
use sql_tree::{Join, JoinKind, Query, Select, Source, SqlExpr};
use std::alloc::{AllocError, Global};
use vtl_text::{List, Txt};
use vtl_tree::{CompExpr, Component, Role, Structure, common_identifiers};

fn source(operand: &Aliased<'_>) -> Result<Source, AllocError>
    ensures { IfOk result (λ x. x ≡ source_as (aliased_of operand.now).alias (aliased_of operand.now).table) }
{
    Ok(Source {
        table: operand.table.share()?,
        series: None,
        alias: operand.alias.share()?,
    })
}

/// A query of one select from operands that are joined with the first, of these columns under the names of those of the
/// result, at the rows at which a condition is true, where there is one. It fails only if memory runs out.
pub(crate) fn joined_query(
    alloc: Global,
    picked: &[Picked<'_, '_>],
    s: &Structure,
    first: &Aliased<'_>,
    joins: Vec<Join>,
    condition: Option<SqlExpr>,
) -> Result<Query, AllocError>
    ensures { IfOk result (λ q. query_tree q ≡ select_as (items_as (map picked_column picked.now) (columns_of s.now)) (source_as (aliased_of first.now).alias (aliased_of first.now).table) (map join_tree joins.items) (option_map expr_tree condition) ∷ []) }
{
    let mut selects = Vec::with_capacity(alloc, 1)?;
    selects.push(Select {
        items: List::of(named_items(alloc, picked, s)?),
        from: source(first)?,
        joins: List::of(joins),
        condition,
        group: List::of(Vec::new(alloc)),
        having: None,
    })?;
    Ok(Query {
        selects: List::of(selects),
    })
}

/// Adds the measures of all operands, and then the attributes. It fails only if memory runs out.
pub(crate) fn push_others<'a, 'b>(
    alloc: Global,
    picked: &mut Vec<Picked<'a, 'b>>,
    operands: &'a [Aliased<'b>],
) -> Result<(), AllocError>
    ensures { OnOk result (map picked_column picked.new.items ≡ joined_values (map picked_column picked.old.items) (map aliased_of operands.now)) }
{
    push_roles(alloc, picked, operands, Role::Measure)?;
    push_roles(alloc, picked, operands, Role::Attribute)
}

/// An operand where these columns have the values that they have in the first source. It fails only if memory runs out.
pub(crate) fn joined_on(
    alloc: Global,
    kind: JoinKind,
    first: &Txt,
    columns: &[&Component],
    operand: &Aliased<'_>,
) -> Result<Join, AllocError>
    ensures { IfOk result (λ j. join_tree j ≡ joined_on kind first.now (shown columns.now) (aliased_of operand.now)) }
{
    Ok(Join::On {
        kind,
        source: source(operand)?,
        condition: all_tied(alloc, first, &operand.alias, columns)?,
    })
}

// An operand where its identifiers have the values that they have in the reference.
fn joined_with(
    alloc: Global,
    kind: JoinKind,
    reference: &Aliased<'_>,
    operand: &Aliased<'_>,
) -> Result<Join, AllocError>
    ensures { IfOk result (λ j. join_tree j ≡ joined_with kind (aliased_of reference.now) (aliased_of operand.now)) }
{
    let common = common_identifiers(alloc, reference.structure, operand.structure)?;
    joined_on(alloc, kind, &reference.alias, &common, operand)
}

// Adds operands that are joined with the reference.
fn push_joined(
    alloc: Global,
    joins: &mut Vec<Join>,
    kind: JoinKind,
    reference: &Aliased<'_>,
    operands: &[Aliased<'_>],
) -> Result<(), AllocError>
    ensures { OnOk result (map join_tree joins.new.items ≡ map join_tree joins.old.items ++ map (joined_with kind (aliased_of reference.now)) (map aliased_of operands.now)) }
{
    for operand in operands {
        joins.push(joined_with(alloc, kind, reference, operand)?)?;
    }
    Ok(())
}

// All operands but the reference, joined with it.
fn others_joined(
    alloc: Global,
    kind: JoinKind,
    place: usize,
    reference: &Aliased<'_>,
    operands: &[Aliased<'_>],
) -> Result<Vec<Join>, AllocError>
    requires { place < length operands.now }
    ensures { IfOk result (λ v. map join_tree v.items ≡ map (joined_with kind (aliased_of reference.now)) (without place (map aliased_of operands.now))) }
{
    let mut joins = Vec::with_capacity(alloc, operands.len() - 1)?;
    push_joined(alloc, &mut joins, kind, reference, &operands[..place])?;
    push_joined(alloc, &mut joins, kind, reference, &operands[place + 1..])?;
    Ok(joins)
}

// The operands joined with the one at a place.
fn referred_query(
    alloc: Global,
    writer: &Writer,
    kind: JoinKind,
    place: usize,
    operands: &[Aliased<'_>],
    s: &Structure,
    condition: Option<&CompExpr>,
) -> Result<Query, AllocError>
    ensures { IfOk result (λ q. query_tree q ≡ filtered_by writer.now (condition_of condition.entry) (referred_query kind place (map aliased_of operands.now) s.now (slice_get (map aliased_of operands.now) place))) }
{
    let Some(reference) = operands.get(place) else {
        return Ok(no_query(alloc));
    };
    let mut picked = Vec::new(alloc);
    let identifiers = reference.structure.identifiers(alloc)?;
    push_columns(&mut picked, &reference.alias, &identifiers)?;
    push_others(alloc, &mut picked, operands)?;
    let joins = others_joined(alloc, kind, place, reference, operands)?;
    let condition = condition_over(alloc, writer, &picked, s, condition)?;
    joined_query(alloc, &picked, s, reference, joins, condition)
}

/// `inner_join` and `left_join`: each other operand joined with the one at a place, and of this the points at which a
/// condition is true, where there is one. It fails only if memory runs out.
pub(crate) fn reference_query(
    alloc: Global,
    writer: &Writer,
    kind: JoinKind,
    place: usize,
    structures: &[&Structure],
    tables: &[Txt],
    s: &Structure,
    condition: Option<&CompExpr>,
) -> Result<Query, AllocError>
    requires { length tables.now ≡ length structures.now }
    ensures { IfOk result (λ q. query_tree q ≡ filtered_by writer.now (condition_of condition.entry) (reference_query writer.now kind place (shown structures.now) s.now tables.now)) }
{
    let operands = with_aliases(alloc, writer, place, structures, tables)?;
    referred_query(alloc, writer, kind, place, &operands, s, condition)
}

// The operands behind the first, each point with each.
fn crosses(alloc: Global, operands: &[Aliased<'_>]) -> Result<Vec<Join>, AllocError>
    ensures { IfOk result (λ v. map join_tree v.items ≡ map crossed_with (map aliased_of operands.now)) }
{
    let mut joins = Vec::with_capacity(alloc, operands.len())?;
    for operand in operands {
        joins.push(Join::Cross(source(operand)?))?;
    }
    Ok(joins)
}

// Each point of each operand with each of the others.
fn crossed_query(
    alloc: Global,
    writer: &Writer,
    operands: &[Aliased<'_>],
    s: &Structure,
    condition: Option<&CompExpr>,
) -> Result<Query, AllocError>
    ensures { IfOk result (λ q. query_tree q ≡ filtered_by writer.now (condition_of condition.entry) (crossed_query (map aliased_of operands.now) s.now)) }
{
    let [first, others @ ..] = operands else {
        return Ok(no_query(alloc));
    };
    let mut picked = Vec::new(alloc);
    push_roles(alloc, &mut picked, operands, Role::Identifier)?;
    push_others(alloc, &mut picked, operands)?;
    let joins = crosses(alloc, others)?;
    let condition = condition_over(alloc, writer, &picked, s, condition)?;
    joined_query(alloc, &picked, s, first, joins, condition)
}

/// `cross_join`: each point with each, and of these the ones at which a condition is true, where there is one. It fails
/// only if memory runs out.
pub(crate) fn cross_query(
    alloc: Global,
    writer: &Writer,
    structures: &[&Structure],
    tables: &[Txt],
    s: &Structure,
    condition: Option<&CompExpr>,
) -> Result<Query, AllocError>
    requires { length tables.now ≡ length structures.now }
    ensures { IfOk result (λ q. query_tree q ≡ filtered_by writer.now (condition_of condition.entry) (cross_query writer.now (shown structures.now) s.now tables.now)) }
{
    let operands = with_aliases(alloc, writer, 0, structures, tables)?;
    crossed_query(alloc, writer, &operands, s, condition)
}
