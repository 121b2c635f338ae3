// EXISTS.
ghost use Rattle.std.specs.List.{flat_map};
ghost use Rattle.std.specs.Prelude.{◌≡◌, ◌&&◌, not, option_and_then, IfOk};
ghost use Rattle.sql_check_parts.specs.Exists.{equality_breaks, exists_breaks, inner_of, is_inner, is_tie, kind_inside, kinds_tie, same_side, side_breaks};
ghost use Rattle.sql_check_parts.specs.Rules.{least};
ghost use Rattle.sql_check_parts.specs.Scopes.{value_among};
ghost use Rattle.sql_check_parts.specs.Windows.{is_ungrouped};

use crate::scope::is_ungrouped;
use crate::{
    GivenColumns, Grouping, Scope, SqlRule, Tables, Test, columns_from, least_broken, lesser,
    misnames_series, or_null,
};
use sql_tree::{Column, Equality, Source};
use std::alloc::{AllocError, Global};
use std::marker::Model;
use vtl_cell::{Kind, is_null_kind, is_same_kind};
use vtl_text::Txt;

// The source of EXISTS: its alias, and its columns, if its table is there.
#[derive(Drop)]
struct InnerSource<'a> {
    alias: &'a Txt,
    columns: Option<GivenColumns<'a>>,
}

impl<'a> Model for InnerSource<'a> {
    ghost use Rattle.std.specs.Prelude.{option_map};
    ghost use Rattle.sql_check_parts.specs.Given.{columns_given};
    ghost use Rattle.sql_check_parts.specs.Exists as exists;

    ghost Value = { exists.Inner };

    ghost view = { λ i. record { alias = i.alias.now; columns = option_map columns_given i.columns } };
}

fn inner_of<'a>(
    alloc: Global,
    tables: &'a Tables,
    source: &'a Source,
) -> Result<InnerSource<'a>, AllocError>
    ensures { IfOk result (λ inner. inner ≡ inner_of tables.now source.now) }
{
    Ok(InnerSource {
        alias: &source.alias,
        columns: columns_from(alloc, tables, source)?,
    })
}

fn is_inner(inner: &InnerSource, column: &Column) -> bool
    ensures { result ≡ is_inner inner.now column.now }
{
    &column.source == inner.alias
}

fn inner_kind(inner: &InnerSource, column: &Column) -> Option<Kind>
    ensures { result ≡ option_and_then (λ columns. value_among columns column.now.name) inner.now.columns }
{
    match &inner.columns {
        Some(columns) => columns.kind(&column.name),
        None => None,
    }
}

fn kind_inside(scope: &Scope, inner: &InnerSource, column: &Column) -> Option<Kind>
    ensures { result ≡ kind_inside scope.now inner.now column.now }
{
    if is_inner(inner, column) {
        inner_kind(inner, column)
    } else {
        scope.kind(column)
    }
}

// Whether a column of an outer source stands in a group, but is not one of GROUP BY.
fn is_outer_ungrouped(
    group: &Option<Grouping>,
    inner: &InnerSource,
    column: &Column,
) -> Result<bool, AllocError>
    ensures { IfOk result (λ b. b ≡ (not (is_inner inner.now column.now) && is_ungrouped group.now column.now)) }
{
    if is_inner(inner, column) {
        Ok(false)
    } else {
        is_ungrouped(group, column)
    }
}

fn side_fault(
    scope: &Scope,
    group: &Option<Grouping>,
    inner: &InnerSource,
    column: &Column,
) -> Result<Option<SqlRule>, AllocError>
    ensures { IfOk result (λ fault. fault ≡ least (side_breaks scope.now group.now inner.now column.now)) }
{
    let is_unknown = kind_inside(scope, inner, column).is_none();
    let ungrouped = is_outer_ungrouped(group, inner, column)?;
    Ok(least_broken(&[
        Test {
            rule: SqlRule::UnknownColumn,
            is_broken: is_unknown,
        },
        Test {
            rule: SqlRule::OutsideGroup,
            is_broken: ungrouped,
        },
    ]))
}

// Whether kinds are the same. A column that has none is told by another rule, and goes with any.
fn kinds_tie(a: Kind, b: Kind) -> bool
    ensures { result ≡ kinds_tie a b }
{
    is_same_kind(a, b) || is_null_kind(a) || is_null_kind(b)
}

// Whether an equality is between a column of the inner source and one of an outer source, of the same kind.
fn is_tie(scope: &Scope, inner: &InnerSource, equality: &Equality) -> bool
    ensures { result ≡ is_tie scope.now inner.now equality.now }
{
    let left = or_null(kind_inside(scope, inner, &equality.left));
    let right = or_null(kind_inside(scope, inner, &equality.right));
    let apart = is_inner(inner, &equality.left) != is_inner(inner, &equality.right);
    apart && kinds_tie(left, right)
}

#[tactic(auto, using(crate::proofs::Least::least_append))]
fn equality_fault(
    scope: &Scope,
    group: &Option<Grouping>,
    inner: &InnerSource,
    equality: &Equality,
) -> Result<Option<SqlRule>, AllocError>
    ensures { IfOk result (λ fault. fault ≡ least (equality_breaks scope.now group.now inner.now equality.now)) }
{
    let left = side_fault(scope, group, inner, &equality.left)?;
    let right = side_fault(scope, group, inner, &equality.right)?;
    let tie = least_broken(&[Test {
        rule: SqlRule::UntiedEquality,
        is_broken: !is_tie(scope, inner, equality),
    }]);
    Ok(lesser(lesser(left, right), tie))
}

#[tactic(auto, using(crate::proofs::Least::part_taken))]
fn equalities_fault(
    scope: &Scope,
    group: &Option<Grouping>,
    inner: &InnerSource,
    equalities: &[Equality],
) -> Result<Option<SqlRule>, AllocError>
    ensures { IfOk result (λ fault. fault ≡ least (flat_map (equality_breaks scope.now group.now inner.now) equalities.now)) }
{
    let mut least = None;
    for equality in equalities {
        least = lesser(least, equality_fault(scope, group, inner, equality)?);
    }
    Ok(least)
}

/// EXISTS: the least of the rules that it breaks. It fails only if memory runs out.
#[tactic(auto, using(crate::proofs::Least::least_append))]
pub fn exists(
    alloc: Global,
    tables: &Tables,
    scope: &Scope,
    group: &Option<Grouping>,
    source: &Source,
    equalities: &[Equality],
) -> Result<Option<SqlRule>, AllocError>
    ensures { IfOk result (λ fault. fault ≡ least (exists_breaks tables.now scope.now group.now source.now equalities.now)) }
{
    let inner = inner_of(alloc, tables, source)?;
    let misnamed = misnames_series(alloc, tables, source)?;
    let own = least_broken(&[
        Test {
            rule: SqlRule::UnknownTable,
            is_broken: tables.columns(&source.table).is_none(),
        },
        Test {
            rule: SqlRule::MisnamedSeries,
            is_broken: misnamed,
        },
    ]);
    let rest = equalities_fault(scope, group, &inner, equalities)?;
    Ok(lesser(own, rest))
}
