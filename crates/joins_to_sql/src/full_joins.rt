// The queries of a full join: the identifiers of all operands, each tuple of them once, and the operands beside these.
//
// A full join is left joins with a table of identifiers: those of all operands, each tuple once, in two tables of
// their own. FULL JOINs one after the other would need an ON with a COALESCE over all operands before, which is no
// equality of columns and grows. Where there are no identifiers the table has one column that is TRUE.
//
// It ties the identifiers that an operand has too (`common_identifiers`), which typing makes all of them: so the
// definition goes by names, as the text does, and not by places, which a structure without an identifier would not
// have.
ghost use Rattle.std.specs.Prelude.{◌≡◌, [], List as ListOf, length, map, IfOk};
ghost use Rattle.vtl_tree.specs.Shown.{shown};
ghost use Rattle.vtl_tree.specs.declared.structure.Structure.{Structure as StructureOf};
ghost use Rattle.sql_tree.specs.View.{item_tree, join_tree, query_tree, select_tree};
ghost use Rattle.joins_to_sql.specs.FilteredJoins.{condition_of, filtered_by};
ghost use Rattle.joins_to_sql.specs.FullJoins.{full_query, key_structure, keys_query, once_query, or_spare, spare};
ghost use Rattle.joins_to_sql.specs.JoinItems.{aliased_of, keyed_query, keyed_with};
ghost use Rattle.joins_to_sql.specs.KeyItems.{identifiers_select, key_items};

use crate::join_items::{condition_over, push_columns};
use crate::join_operands::{Aliased, with_aliases};
use crate::join_queries::{joined_on, joined_query, push_others};
use selects_to_sql::{Writer, from_one, group_of, grouped, one_select, own_items, push_item};
use sql_tree::{Constant, Item, Join, JoinKind, Query, Select, SqlExpr};
use std::alloc::{AllocError, Global};
use vtl_cell::Kind;
use vtl_text::{List, Txt};
use vtl_tree::{CompExpr, Component, Role, Structure, common_identifiers, share_component};

// The name of the column of a table of identifiers where there are none.
fn spare_name(alloc: Global) -> Result<Txt, AllocError>
    ensures { IfOk result (λ t. t ≡ spare.name) }
{
    Txt::new(alloc, "there")
}

// The column of a table of identifiers where there are none.
fn spare(alloc: Global) -> Result<Component, AllocError>
    ensures { IfOk result (λ c. c ≡ spare) }
{
    Ok(Component {
        name: spare_name(alloc)?,
        role: Role::Measure,
        kind: Kind::Bool,
        codes: None,
    })
}

fn only_spare(alloc: Global) -> Result<Vec<Component>, AllocError>
    ensures { IfOk result (λ v. v.items ≡ or_spare []) }
{
    let mut components = Vec::with_capacity(alloc, 1)?;
    components.push(spare(alloc)?)?;
    Ok(components)
}

// The same components once more.
fn same_components(alloc: Global, components: &[&Component]) -> Result<Vec<Component>, AllocError>
    ensures { IfOk result (λ v. v.items ≡ shown components.now) }
{
    let mut same = Vec::with_capacity(alloc, components.len())?;
    for component in components {
        same.push(share_component(component)?)?;
    }
    Ok(same)
}

// The columns of a table of identifiers.
fn key_components(alloc: Global, identifiers: &[&Component]) -> Result<Vec<Component>, AllocError>
    ensures { IfOk result (λ v. v.items ≡ or_spare (shown identifiers.now)) }
{
    match identifiers {
        [] => only_spare(alloc),
        [_, ..] => same_components(alloc, identifiers),
    }
}

/// The structure of a table of the identifiers of a structure: where it has none, a column that is always true. It fails
/// only if memory runs out.
pub fn key_structure(alloc: Global, reference: &Structure) -> Result<Structure, AllocError>
    ensures { IfOk result (λ t. t ≡ key_structure reference.now) }
{
    let identifiers = reference.identifiers(alloc)?;
    Ok(Structure {
        components: List::of(key_components(alloc, &identifiers)?),
    })
}

// A column that is always true.
fn spare_items(alloc: Global) -> Result<Vec<Item>, AllocError>
    ensures { IfOk result (λ v. map item_tree v.items ≡ key_items []) }
{
    let mut items = Vec::with_capacity(alloc, 1)?;
    push_item(
        &mut items,
        SqlExpr::Constant(Constant::True),
        &spare_name(alloc)?,
    )?;
    Ok(items)
}

// The columns of a table of identifiers, from a table that has these.
fn key_items(
    alloc: Global,
    writer: &Writer,
    identifiers: &[&Component],
) -> Result<Vec<Item>, AllocError>
    ensures { IfOk result (λ v. map item_tree v.items ≡ key_items (shown identifiers.now)) }
{
    match identifiers {
        [] => spare_items(alloc),
        [_, ..] => own_items(alloc, writer, identifiers),
    }
}

// The identifiers of the points of an operand.
fn identifiers_select(
    alloc: Global,
    writer: &Writer,
    identifiers: &[&Component],
    table: &Txt,
) -> Result<Select, AllocError>
    ensures { IfOk result (λ x. select_tree x ≡ identifiers_select (shown identifiers.now) table.now) }
{
    let items = key_items(alloc, writer, identifiers)?;
    from_one(alloc, writer, items, None, table)
}

// The identifiers of the points of all operands.
fn identifiers_selects(
    alloc: Global,
    writer: &Writer,
    identifiers: &[&Component],
    tables: &[Txt],
) -> Result<Query, AllocError>
    ensures { IfOk result (λ q. query_tree q ≡ map (identifiers_select (shown identifiers.now)) tables.now) }
{
    let mut selects = Vec::with_capacity(alloc, tables.len())?;
    for table in tables {
        selects.push(identifiers_select(alloc, writer, identifiers, table)?)?;
    }
    Ok(Query {
        selects: List::of(selects),
    })
}

/// The identifiers of a structure at the points of all operands, each of which has them. It fails only if memory runs
/// out.
pub fn keys_query(
    alloc: Global,
    writer: &Writer,
    reference: &Structure,
    tables: &[Txt],
) -> Result<Query, AllocError>
    ensures { IfOk result (λ q. (ss : ListOf StructureOf) → length tables.now ≡ length ss → query_tree q ≡ keys_query writer.now reference.now ss tables.now) }
{
    let identifiers = reference.identifiers(alloc)?;
    identifiers_selects(alloc, writer, &identifiers, tables)
}

/// Each row of a table of identifiers once. It fails only if memory runs out.
pub fn once_query(
    alloc: Global,
    writer: &Writer,
    keys: &Structure,
    table: &Txt,
) -> Result<Query, AllocError>
    ensures { IfOk result (λ q. query_tree q ≡ once_query writer.now keys.now table.now) }
{
    let columns = keys.columns(alloc)?;
    let items = own_items(alloc, writer, &columns)?;
    let group = group_of(alloc, writer, &columns)?;
    one_select(alloc, grouped(alloc, writer, items, table, group, None)?)
}

// An operand where the identifiers of a table have the values that they have there.
fn keyed_with(alloc: Global, keys: &Aliased<'_>, operand: &Aliased<'_>) -> Result<Join, AllocError>
    ensures { IfOk result (λ j. join_tree j ≡ keyed_with (aliased_of keys.now) (aliased_of operand.now)) }
{
    let common = common_identifiers(alloc, operand.structure, keys.structure)?;
    joined_on(alloc, JoinKind::Left, &keys.alias, &common, operand)
}

// All operands, joined with a table of identifiers.
fn all_keyed(
    alloc: Global,
    keys: &Aliased<'_>,
    operands: &[Aliased<'_>],
) -> Result<Vec<Join>, AllocError>
    ensures { IfOk result (λ v. map join_tree v.items ≡ map (keyed_with (aliased_of keys.now)) (map aliased_of operands.now)) }
{
    let mut joins = Vec::with_capacity(alloc, operands.len())?;
    for operand in operands {
        joins.push(keyed_with(alloc, keys, operand)?)?;
    }
    Ok(joins)
}

// The operands beside a table of identifiers.
fn keyed_query(
    alloc: Global,
    writer: &Writer,
    keys: &Aliased<'_>,
    operands: &[Aliased<'_>],
    s: &Structure,
    condition: Option<&CompExpr>,
) -> Result<Query, AllocError>
    ensures { IfOk result (λ q. query_tree q ≡ filtered_by writer.now (condition_of condition.entry) (keyed_query (aliased_of keys.now) (map aliased_of operands.now) s.now)) }
{
    let mut picked = Vec::new(alloc);
    let identifiers = keys.structure.identifiers(alloc)?;
    push_columns(&mut picked, &keys.alias, &identifiers)?;
    push_others(alloc, &mut picked, operands)?;
    let joins = all_keyed(alloc, keys, operands)?;
    let condition = condition_over(alloc, writer, &picked, s, condition)?;
    joined_query(alloc, &picked, s, keys, joins, condition)
}

/// `full_join`: the operands beside a table of each tuple of their identifiers, and of this the points at which a condition
/// is true, where there is one. It fails only if memory runs out.
pub fn full_query(
    alloc: Global,
    writer: &Writer,
    keys: &Structure,
    structures: &[&Structure],
    tables: &[Txt],
    s: &Structure,
    table: &Txt,
    condition: Option<&CompExpr>,
) -> Result<Query, AllocError>
    requires { length tables.now ≡ length structures.now }
    ensures { IfOk result (λ q. (r : StructureOf) → keys.now ≡ key_structure r → query_tree q ≡ filtered_by writer.now (condition_of condition.entry) (full_query writer.now r (shown structures.now) s.now tables.now table.now)) }
{
    let operands = with_aliases(alloc, writer, structures.len(), structures, tables)?;
    let first = Aliased {
        alias: writer.alias(alloc, 0)?,
        table: table.share()?,
        structure: keys,
    };
    keyed_query(alloc, writer, &first, &operands, s, condition)
}
