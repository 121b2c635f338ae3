// Queries.
ghost use Rattle.std.specs.List.{list_any};
ghost use Rattle.std.specs.Prelude.{◌≡◌, [], None, map, IfOk, OnOk};
ghost use Rattle.sql_tree.specs.View.{query_tree, select_tree};
ghost use Rattle.sql_check_parts.specs.Queries.{has_unnamed};
ghost use Rattle.sql_check_queries.specs.Told.{Grows, IsQueryTold, IsUnion};

use crate::selects::select;
use crate::sources::has_unnamed;
use crate::unions::Union;
use sql_check_parts::{SqlRule, Tables};
use sql_tree::{Query, Select};
use std::alloc::{AllocError, Global};
use vtl_cell::Kind;
use vtl_decimal::Profile;
use vtl_text::{List, Txt};

/// The columns that a query gives, and the least of the rules that it breaks.
#[derive(Drop)]
pub struct QueryTold {
    /// The names of the columns.
    pub names: List<Txt>,
    /// Their kinds; that of null where there is none, since a rule is broken then.
    pub kinds: List<Kind>,
    /// The least of the rules that are broken, if any is.
    pub fault: Option<SqlRule>,
}

// More selects, after those already typed.
fn add_selects(
    alloc: Global,
    profile: &Profile,
    tables: &Tables,
    union: &mut Union,
    selects: &[Select],
) -> Result<(), AllocError>
    ensures { OnOk result (Grows profile.now tables.now (map select_tree selects.now) union.old union.new) }
{
    for other in selects {
        union.add(&select(alloc, profile, tables, other)?);
    }
    Ok(())
}

fn union(
    alloc: Global,
    profile: &Profile,
    tables: &Tables,
    first: &Select,
    rest: &[Select],
) -> Result<Union, AllocError>
    ensures { IfOk result (IsUnion profile.now tables.now (select_tree first.now) (map select_tree rest.now)) }
{
    let mut union = Union::of(alloc, select(alloc, profile, tables, first)?)?;
    add_selects(alloc, profile, tables, &mut union, rest)?;
    Ok(union)
}

// Whether a SERIES of a select names what its table does not have.
fn any_unnamed(tables: &Tables, selects: &[Select]) -> bool
    ensures { result ≡ list_any (has_unnamed tables.now) (map select_tree selects.now) }
{
    for select in selects {
        if has_unnamed(tables, select) {
            return true;
        }
    }
    false
}

fn no_columns(alloc: Global) -> QueryTold
    ensures names { result.names ≡ [] }
    ensures kinds { result.kinds ≡ [] }
    ensures fault { result.fault ≡ None }
{
    QueryTold {
        names: List::of(Vec::new(alloc)),
        kinds: List::of(Vec::new(alloc)),
        fault: None,
    }
}

/// A query: its columns, and the least of the rules that it breaks. It fails only if memory runs out.
pub fn query(
    alloc: Global,
    profile: &Profile,
    tables: &Tables,
    query: &Query,
) -> Result<QueryTold, AllocError>
    ensures { IfOk result (IsQueryTold profile.now tables.now (query_tree query.now)) }
{
    let selects = query.selects.as_slice();
    let Some((first, rest)) = selects.split_first() else {
        return Ok(no_columns(alloc));
    };
    let union = union(alloc, profile, tables, first, rest)?;
    let unnamed = any_unnamed(tables, selects);
    Ok(QueryTold {
        kinds: union.kinds(alloc)?,
        fault: union.least_fault(unnamed),
        names: union.names,
    })
}
