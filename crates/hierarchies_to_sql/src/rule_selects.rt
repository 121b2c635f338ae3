// The selects of hierarchical rules: the combinations, each with what there is of the items of a rule.
//
// A rule stands over the table of combinations and a left join of the table of each of its items, whose ON is equalities of the
// other identifiers: so each look-up is indexed, and finds one row at most.
ghost use Rattle.std.specs.Prelude.{◌≡◌, ◌++◌, ◌∷◌, [], length, map, unwrap_or, IfOk, OnOk};
ghost use Rattle.std.specs.Option.{option_map};
ghost use Rattle.vtl_tree.specs.RuleItems.{items_of, left_item, right_items};
ghost use Rattle.vtl_tree.specs.Names.{name_of};
ghost use Rattle.vtl_tree.specs.Shown.{shown};
ghost use Rattle.vtl_tree.specs.Checks.{rule_id};
ghost use Rattle.sql_tree.specs.View.{expr_tree, item_tree, join_tree, select_tree};
ghost use Rattle.joins_to_sql.specs.JoinItems.{column_from};
ghost use Rattle.selects_to_sql.specs.NamedItems.{AreNext};
ghost use Rattle.selects_to_sql.specs.Queries.{items_as, select_as, source_as};
ghost use Rattle.hierarchies_to_sql.specs.RuleItems.{aliases_from, join_as, joins_as, key_as, keys_as, tables_in, true_as};

use crate::sides::{Measured, column};
use joins_to_sql::all_tied;
use rules_to_sql::text_as;
use selects_to_sql::{Writer, push_next};
use sql_tree::{Constant, Item, Join, JoinKind, Select, Source, SqlExpr};
use std::alloc::{AllocError, Global};
use vtl_syntax::{Comp, HierRule};
use vtl_text::{ByName, List, Txt};
use vtl_tree::Component;

/// What the items of an operand stand in: the table of the combinations, and the tables of the items by name.
#[derive(Drop)]
pub(crate) struct Tabled<'a> {
    pub(crate) measured: Measured<'a>,
    pub(crate) others: Vec<&'a Component>,
    pub(crate) keys: Txt,
    pub(crate) tables: ByName<Txt>,
}

// ---- the items of a rule

fn name(component: &Comp) -> &Txt
    ensures { result.now ≡ name_of component.now }
{
    match component {
        Comp::Name(name) => name,
        Comp::Quoted(name) => name,
    }
}

/// The item that a rule is about.
pub(crate) fn left_item(rule: &HierRule) -> &Txt
    ensures { result.now ≡ left_item rule.now }
{
    name(&rule.item)
}

/// Adds the items on the right. It fails only if memory runs out.
pub(crate) fn push_right_items(items: &mut Vec<Txt>, rule: &HierRule) -> Result<(), AllocError>
    ensures { OnOk result (items.new.items ≡ items.old.items ++ right_items rule.now) }
{
    items.push(name(&rule.first).share()?)?;
    let others = rule.others.as_slice();
    for other in others {
        items.push(name(&other.item).share()?)?;
    }
    Ok(())
}

/// The items on the right. It fails only if memory runs out.
pub(crate) fn right_items(alloc: Global, rule: &HierRule) -> Result<Vec<Txt>, AllocError>
    ensures { IfOk result (λ v. v.items ≡ right_items rule.now) }
{
    let mut items = Vec::new(alloc);
    push_right_items(&mut items, rule)?;
    Ok(items)
}

/// Adds all items of a rule, the one on the left first. It fails only if memory runs out.
#[tactic(auto, using(std::proofs::Common::append_assoc))]
pub(crate) fn push_items(items: &mut Vec<Txt>, rule: &HierRule) -> Result<(), AllocError>
    ensures { OnOk result (items.new.items ≡ items.old.items ++ items_of rule.now) }
{
    items.push(left_item(rule).share()?)?;
    push_right_items(items, rule)?;
    Ok(())
}

/// All items of a rule, the one on the left first. It fails only if memory runs out.
pub(crate) fn items(alloc: Global, rule: &HierRule) -> Result<Vec<Txt>, AllocError>
    ensures { IfOk result (λ v. v.items ≡ items_of rule.now) }
{
    let mut items = Vec::new(alloc);
    push_items(&mut items, rule)?;
    Ok(items)
}

/// The name of a rule, or its number where it has none. It fails only if memory runs out.
pub(crate) fn rule_id(alloc: Global, rule: &HierRule, number: u64) -> Result<Txt, AllocError>
    ensures { IfOk result (λ t. t ≡ rule_id number rule.now.name) }
{
    match &rule.name {
        Some(name) => name.share(),
        None => {
            let text = format!(in alloc; "{}", number)?;
            Txt::new(alloc, &text)
        }
    }
}

// ---- sources

/// The tables of some items. It fails only if memory runs out.
pub(crate) fn tables_of(
    alloc: Global,
    tables: &ByName<Txt>,
    items: &[Txt],
) -> Result<Vec<Txt>, AllocError>
    ensures { IfOk result (λ v. v.items ≡ map (tables_in tables.now) items.now) }
{
    let mut found = Vec::with_capacity(alloc, items.len())?;
    for item in items {
        found.push(table_of(alloc, tables, item)?)?;
    }
    Ok(found)
}

/// The table of an item. It fails only if memory runs out.
pub(crate) fn table_of(alloc: Global, tables: &ByName<Txt>, item: &Txt) -> Result<Txt, AllocError>
    ensures { IfOk result (λ t. t ≡ tables_in tables.now item.now) }
{
    match tables.get(item) {
        Some(table) => table.share(),
        None => Txt::new(alloc, ""),
    }
}

/// The aliases of the tables of some items behind the combinations. It fails only if memory runs out.
pub(crate) fn aliases(alloc: Global, writer: &Writer, items: &[Txt]) -> Result<Vec<Txt>, AllocError>
    ensures { IfOk result (λ v. v.items ≡ aliases_from 1 (length items.now)) }
{
    let mut aliases = Vec::with_capacity(alloc, items.len())?;
    for i in 0..items.len() {
        aliases.push(writer.alias(alloc, i + 1)?)?;
    }
    Ok(aliases)
}

fn source(alias: &Txt, table: &Txt) -> Result<Source, AllocError>
    ensures { IfOk result (λ x. x ≡ source_as alias.now table.now) }
{
    Ok(Source {
        table: table.share()?,
        series: None,
        alias: alias.share()?,
    })
}

// A table where these columns have the values of the first source.
fn join(
    alloc: Global,
    first: &Txt,
    columns: &[&Component],
    alias: &Txt,
    table: &Txt,
) -> Result<Join, AllocError>
    ensures { IfOk result (λ j. join_tree j ≡ join_as first.now (shown columns.now) alias.now table.now) }
{
    Ok(Join::On {
        kind: JoinKind::Left,
        source: source(alias, table)?,
        condition: all_tied(alloc, first, alias, columns)?,
    })
}

#[tactic(auto, using(crate::proofs::Beside::joins_all))]
fn joins(
    alloc: Global,
    first: &Txt,
    columns: &[&Component],
    aliases: &[Txt],
    tables: &[Txt],
) -> Result<Vec<Join>, AllocError>
    ensures { IfOk result (λ v. map join_tree v.items ≡ joins_as first.now (shown columns.now) aliases.now tables.now) }
{
    let mut joins = Vec::with_capacity(alloc, tables.len())?;
    for i in 0..aliases.len().min(tables.len()) {
        joins.push(join(alloc, first, columns, &aliases[i], &tables[i])?)?;
    }
    Ok(joins)
}

/// A select of the combinations beside some tables, under these aliases. It fails only if memory runs out.
pub(crate) fn beside(
    alloc: Global,
    first: &Txt,
    others: &[&Component],
    keys: &Txt,
    aliases: &[Txt],
    tables: &[Txt],
    items: Vec<Item>,
    condition: Option<SqlExpr>,
) -> Result<Select, AllocError>
    ensures { IfOk result (λ x. select_tree x ≡ select_as (map item_tree items.items) (source_as first.now keys.now) (joins_as first.now (shown others.now) aliases.now tables.now) (option_map expr_tree condition)) }
{
    Ok(Select {
        items: List::of(items),
        from: source(first, keys)?,
        joins: List::of(joins(alloc, first, others, aliases, tables)?),
        condition,
        group: List::of(Vec::new(alloc)),
        having: None,
    })
}

// ---- items of selects

/// What stands in a column that is always true.
pub(crate) fn always() -> SqlExpr
    ensures { expr_tree result ≡ true_as }
{
    SqlExpr::Constant(Constant::True)
}

// An identifier of the point of an item: the item, or what a source has of another identifier.
fn key(id: &Txt, alias: &Txt, item: &Txt, identifier: &Component) -> Result<SqlExpr, AllocError>
    ensures { IfOk result (λ e. expr_tree e ≡ key_as id.now alias.now item.now identifier.now) }
{
    if identifier.name == *id {
        return text_as(item);
    }
    column(alias, &identifier.name)
}

/// Adds the identifiers of the point of an item as the next columns of a result. It fails only if memory runs out.
pub(crate) fn push_keys(
    items: &mut Vec<Item>,
    id: &Txt,
    alias: &Txt,
    item: &Txt,
    identifiers: &[&Component],
    columns: &[&Component],
) -> Result<(), AllocError>
    ensures { OnOk result (AreNext items.old.items items.new.items (keys_as id.now alias.now item.now (shown identifiers.now)) (shown columns.now)) }
{
    for identifier in identifiers {
        push_next(items, key(id, alias, item, identifier)?, columns)?;
    }
    Ok(())
}

/// Adds columns of a source as the next columns of a result. It fails only if memory runs out.
pub(crate) fn push_from(
    items: &mut Vec<Item>,
    alias: &Txt,
    components: &[&Component],
    columns: &[&Component],
) -> Result<(), AllocError>
    ensures { OnOk result (AreNext items.old.items items.new.items (map (column_from alias.now) (shown components.now)) (shown columns.now)) }
{
    for component in components {
        push_next(items, column(alias, &component.name)?, columns)?;
    }
    Ok(())
}
