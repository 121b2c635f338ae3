// The sources of a select, and the conditions of its joins.
ghost use Rattle.std.specs.List.{list_any};
ghost use Rattle.std.specs.Prelude.{◌≡◌, map, IfOk, OnOk};
ghost use Rattle.sql_tree.specs.View.{join_tree, select_tree};
ghost use Rattle.sql_check_parts.specs.Expressions.{site};
ghost use Rattle.sql_check_parts.specs.Queries.{has_unnamed, join_breaks, join_condition, join_source, joined_scope, joins_break, source_breaks};
ghost use Rattle.sql_check_parts.specs.Rules.{least};
ghost use Rattle.sql_check_parts.specs.Scopes.{lacks_names, with_source};
ghost use Rattle.sql_check_queries.specs.Told.{HasSources};

use sql_check_expressions::{Site, condition};
use sql_check_parts::{
    Scope, SqlRule, Tables, Test, columns_from, lacks_names, least_broken, lesser, misnames_series,
};
use sql_tree::{Join, Select, Source};
use std::alloc::{AllocError, Global};
use vtl_decimal::Profile;

/// The sources of a select, and the least of the rules that they break.
#[derive(Drop)]
pub(crate) struct SourcesTold<'a> {
    pub(crate) scope: Scope<'a>,
    pub(crate) fault: Option<SqlRule>,
}

// The rules of a source after others.
fn source_fault(
    alloc: Global,
    tables: &Tables,
    before: &Scope,
    source: &Source,
) -> Result<Option<SqlRule>, AllocError>
    ensures { IfOk result (λ fault. fault ≡ least (source_breaks tables.now before.now source.now)) }
{
    let misnamed = misnames_series(alloc, tables, source)?;
    Ok(least_broken(&[
        Test {
            rule: SqlRule::UnknownTable,
            is_broken: tables.columns(&source.table).is_none(),
        },
        Test {
            rule: SqlRule::MisnamedTable,
            is_broken: before.has(&source.alias),
        },
        Test {
            rule: SqlRule::MisnamedSeries,
            is_broken: misnamed,
        },
    ]))
}

fn add_source<'a>(
    alloc: Global,
    tables: &'a Tables,
    scope: &mut Scope<'a>,
    source: &Source,
) -> Result<(), AllocError>
    ensures { OnOk result (scope.new ≡ with_source tables.now scope.old source.now) }
{
    scope.add(&source.alias, columns_from(alloc, tables, source)?)
}

/// The source of a join.
pub fn join_source(join: &Join) -> &Source
    ensures { result.now ≡ join_source (join_tree join.now) }
{
    match join {
        Join::On { source, .. } | Join::Cross(source) => source,
    }
}

// Whether a SERIES among the sources of joins names what its table does not have.
fn any_unnamed(tables: &Tables, joins: &[Join]) -> bool
    ensures { result ≡ list_any (lacks_names tables.now) (map join_source (map join_tree joins.now)) }
{
    for join in joins {
        if lacks_names(tables, join_source(join)) {
            return true;
        }
    }
    false
}

/// Whether a SERIES of a select names what its table does not have.
pub(crate) fn has_unnamed(tables: &Tables, select: &Select) -> bool
    ensures { result ≡ has_unnamed tables.now (select_tree select.now) }
{
    lacks_names(tables, &select.from) || any_unnamed(tables, select.joins.as_slice())
}

// The condition of a join among the sources up to its own.
#[tactic(auto, unfolding(sql_check_parts::specs::Rules::least))]
fn join_condition(
    alloc: Global,
    profile: &Profile,
    tables: &Tables,
    scope: &Scope,
    join: &Join,
) -> Result<Option<SqlRule>, AllocError>
    ensures { IfOk result (λ fault. fault ≡ least (join_condition (site profile.now tables.now scope.now) (join_tree join.now))) }
{
    match join {
        Join::On { condition: e, .. } => {
            condition(alloc, &Site::new(profile, tables, scope), &None, e)
        }
        Join::Cross(_) => Ok(None),
    }
}

// One more source, and its condition.
#[tactic(auto, using(sql_check_parts::proofs::Least::least_append))]
fn add_join<'a>(
    alloc: Global,
    profile: &Profile,
    tables: &'a Tables,
    scope: &mut Scope<'a>,
    join: &Join,
) -> Result<Option<SqlRule>, AllocError>
    ensures grown { OnOk result (scope.new ≡ with_source tables.now scope.old (join_source (join_tree join.now))) }
    ensures fault { IfOk result (λ fault. fault ≡ least (join_breaks profile.now tables.now scope.old (join_tree join.now))) }
{
    let source = join_source(join);
    let own = source_fault(alloc, tables, scope, source)?;
    add_source(alloc, tables, scope, source)?;
    let condition = join_condition(alloc, profile, tables, scope, join)?;
    Ok(lesser(own, condition))
}

// The joins, after the sources before them.
fn add_joins<'a>(
    alloc: Global,
    profile: &Profile,
    tables: &'a Tables,
    scope: &mut Scope<'a>,
    joins: &[Join],
) -> Result<Option<SqlRule>, AllocError>
    ensures grown { OnOk result (scope.new ≡ joined_scope tables.now scope.old (map join_tree joins.now)) }
    ensures fault { IfOk result (λ fault. fault ≡ least (joins_break profile.now tables.now scope.old (map join_tree joins.now))) }
{
    let mut fault = None;
    for join in joins {
        fault = lesser(fault, add_join(alloc, profile, tables, scope, join)?);
    }
    Ok(fault)
}

/// The sources of a select. It fails only if memory runs out.
#[tactic(auto, using(sql_check_parts::proofs::Least::least_append))]
pub(crate) fn sources<'a>(
    alloc: Global,
    profile: &Profile,
    tables: &'a Tables,
    select: &Select,
) -> Result<SourcesTold<'a>, AllocError>
    ensures { IfOk result (HasSources profile.now tables.now (select_tree select.now)) }
{
    let mut scope = Scope::new(alloc);
    let first = source_fault(alloc, tables, &scope, &select.from)?;
    add_source(alloc, tables, &mut scope, &select.from)?;
    let joins = add_joins(alloc, profile, tables, &mut scope, select.joins.as_slice())?;
    Ok(SourcesTold {
        scope,
        fault: lesser(first, joins),
    })
}
