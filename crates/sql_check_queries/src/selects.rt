// Selects.
ghost use Rattle.std.specs.List.{flat_map};
ghost use Rattle.std.specs.Prelude.{◌≡◌, ◌++◌, None, option_map, IfOk};
ghost use Rattle.sql_tree.specs.View.{expr_tree, select_tree};
ghost use Rattle.sql_check_parts.specs.Expressions.{site};
ghost use Rattle.sql_check_parts.specs.Queries.{maybe_condition};
ghost use Rattle.sql_check_parts.specs.Rules.{least};
ghost use Rattle.sql_check_parts.specs.Windows.{column_breaks};
ghost use Rattle.sql_check_queries.specs.Told.{HasParts, IsSelectTold};

use crate::groups::groups_of;
use crate::items::{items, names};
use crate::sources::{SourcesTold, sources};
use sql_check_expressions::{Site, condition};
use sql_check_parts::{
    Grouping, Scope, SqlRule, Tables, Test, columns_fault, least_broken, lesser, repeats,
};
use sql_tree::{Select, SqlExpr};
use std::alloc::{AllocError, Global};
use vtl_cell::Kind;
use vtl_decimal::Profile;
use vtl_text::{List, Txt};

/// The columns that a select gives, and the least of the rules that it breaks.
#[derive(Drop)]
pub(crate) struct SelectTold {
    pub(crate) names: List<Txt>,
    pub(crate) kinds: List<Kind>,
    pub(crate) fault: Option<SqlRule>,
}

#[tactic(auto, unfolding(sql_check_parts::specs::Rules::least))]
fn maybe_condition(
    alloc: Global,
    at: &Site,
    group: &Option<Grouping>,
    e: &Option<SqlExpr>,
) -> Result<Option<SqlRule>, AllocError>
    ensures { IfOk result (λ fault. fault ≡ least (maybe_condition at.now group.now (option_map expr_tree e.now))) }
{
    match e {
        Some(e) => condition(alloc, at, group, e),
        None => Ok(None),
    }
}

// WHERE and the columns of GROUP BY, which see the rows.
#[tactic(auto, using(sql_check_parts::proofs::Least::least_append))]
fn rows_fault(alloc: Global, at: &Site, select: &Select) -> Result<Option<SqlRule>, AllocError>
    ensures { let s = select_tree select.now in IfOk result (λ fault. fault ≡ least (maybe_condition at.now None s.condition ++ flat_map (column_breaks at.now.scope None) s.group)) }
{
    let condition = maybe_condition(alloc, at, &None, &select.condition)?;
    let columns = columns_fault(at.scope(), &None, select.group.as_slice())?;
    Ok(lesser(condition, columns))
}

// The parts that see all sources.
#[tactic(auto, using(sql_check_parts::proofs::Least::least_append))]
fn parts(
    alloc: Global,
    profile: &Profile,
    tables: &Tables,
    scope: &Scope,
    select: &Select,
) -> Result<SelectTold, AllocError>
    ensures { IfOk result (HasParts (site profile.now tables.now scope.now) (select_tree select.now)) }
{
    let at = Site::new(profile, tables, scope);
    let rows = rows_fault(alloc, &at, select)?;
    let group = groups_of(alloc, select)?;
    let having = maybe_condition(alloc, &at, &group, &select.having)?;
    let typed = items(alloc, &at, &group, select.items.as_slice())?;
    let names = names(alloc, select.items.as_slice())?;
    let twice = least_broken(&[Test {
        rule: SqlRule::MisnamedColumn,
        is_broken: repeats(alloc, names.as_slice())?,
    }]);
    let before = lesser(lesser(rows, having), typed.fault);
    Ok(SelectTold {
        names,
        kinds: typed.kinds,
        fault: lesser(before, twice),
    })
}

/// A select. It fails only if memory runs out.
#[tactic(auto, using(sql_check_parts::proofs::Least::least_append))]
pub(crate) fn select(
    alloc: Global,
    profile: &Profile,
    tables: &Tables,
    select: &Select,
) -> Result<SelectTold, AllocError>
    ensures { IfOk result (IsSelectTold profile.now tables.now (select_tree select.now)) }
{
    let SourcesTold { scope, fault } = sources(alloc, profile, tables, select)?;
    let typed = parts(alloc, profile, tables, &scope, select)?;
    Ok(SelectTold {
        fault: lesser(fault, typed.fault),
        ..typed
    })
}
