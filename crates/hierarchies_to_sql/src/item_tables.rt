// The tables below those of hierarchical rules: the combinations of the other identifiers, and a table for each item.
//
// One scan of the operand for each item is the price of look-ups by equality alone: a constant in ON would not be indexed.
ghost use Rattle.std.specs.Prelude.{◌≡◌, ◌+◌, ◌++◌, ◌∷◌, [], ℕ, List as ListOf, length, map, IfOk, OnOk};
ghost use Rattle.vtl_tree.specs.Shown.{shown};
ghost use Rattle.std.specs.Map.{lookup};
ghost use Rattle.vtl_text.specs.Texts.{same_text};
ghost use Rattle.vtl_tree.specs.Structure.{columns_of, same_name};
ghost use Rattle.vtl_tuples.specs.Keys.{each_once};
ghost use Rattle.vtl_meaning.specs.Turned.{other_identifiers};
ghost use Rattle.sql_tree.specs.View.{item_tree, query_tree, statement_tree};
ghost use Rattle.selects_to_sql.specs.NamedItems.{own_columns};
ghost use Rattle.selects_to_sql.specs.Items.{first_column};
ghost use Rattle.selects_to_sql.specs.Queries.{items_as};
ghost use Rattle.selects_to_sql.specs.Tables.{create_for, numbered};
ghost use Rattle.vtl_tree.specs.declared.structure.Structure.{Structure as StructureOf};
ghost use Rattle.hierarchies_to_sql.specs.ItemTables.{combinations_of, item_structure, item_tables, tables_by};
ghost use Rattle.hierarchies_to_sql.specs.RuleItems.{found_by, found_else, item_as, numbered_from, ruled_of, tables_in, true_as};
ghost use Rattle.vtl_rulings.specs.HierarchyChecks.{Ruled};

use crate::rule_selects::always;
use crate::sides::Measured;
use joins_to_sql::{key_structure, keys_query, once_query};
use rules_to_sql::text_as;
use selects_to_sql::{Draft, Writer, between, from_table, push_next, push_own};
use sql_tree::{Item, Query};
use std::alloc::{AllocError, Global};
use std::slice;
use vtl_cell::{Kind, ScalarOp};
use vtl_text::{ByName, List, Txt};
use vtl_tree::{Choice, Component, Role, Structure, is_chosen, share_component};

/// The identifiers but one. It fails only if memory runs out.
pub(crate) fn other_identifiers<'a>(
    alloc: Global,
    structure: &'a Structure,
    id: &Txt,
) -> Result<Vec<&'a Component>, AllocError>
    ensures { IfOk result (λ v. shown v.items ≡ other_identifiers id.now structure.now) }
{
    let mut others = Vec::new(alloc);
    for component in structure.components.as_slice() {
        if is_chosen(Choice::Except, slice::from_ref(id), component) {
            others.push(component)?;
        }
    }
    Ok(others)
}

fn shared(alloc: Global, components: &[&Component]) -> Result<Vec<Component>, AllocError>
    ensures { IfOk result (λ v. v.items ≡ shown components.now) }
{
    let mut same = Vec::with_capacity(alloc, components.len())?;
    for component in components {
        same.push(share_component(component)?)?;
    }
    Ok(same)
}

// The structure of these components.
fn structure_of(alloc: Global, components: &[&Component]) -> Result<Structure, AllocError>
    ensures { IfOk result (λ t. t.components ≡ shown components.now) }
{
    Ok(Structure {
        components: List::of(shared(alloc, components)?),
    })
}

// ---- combinations

/// The tables of the combinations of these identifiers, and the name of the one that has each once. It fails only if memory
/// runs out.
pub(crate) fn combinations(
    alloc: Global,
    writer: &Writer,
    others: &[&Component],
    table: &Txt,
    target: &Txt,
    draft: &mut Draft,
) -> Result<Txt, AllocError>
    ensures name { IfOk result (λ t. t ≡ numbered target.now (draft.old.next + 1)) }
    ensures tables { OnOk result ((h : Ruled) (a : StructureOf) → shown others.now ≡ other_identifiers h.id a → map statement_tree draft.new.statements.items ≡ map statement_tree draft.old.statements.items ++ map create_for (combinations_of writer.now target.now h a (table.now ∷ []) draft.old.next).tables) }
    ensures next { OnOk result (draft.new.next ≡ draft.old.next + 2) }
{
    let reference = structure_of(alloc, others)?;
    let keys = key_structure(alloc, &reference)?;
    let given = keys_query(alloc, writer, &reference, slice::from_ref(table))?;
    let all = draft.store(alloc, target, given)?;
    let once = once_query(alloc, writer, &keys, &all)?;
    draft.store(alloc, target, once)
}

// ---- items

/// The structure of the table of an item. It fails only if memory runs out.
pub(crate) fn item_structure(
    alloc: Global,
    measured: &Measured<'_>,
    others: &[&Component],
) -> Result<Structure, AllocError>
    ensures { IfOk result (λ t. (a : StructureOf) → shown others.now ≡ other_identifiers (ruled_of measured.now).id a → t ≡ item_structure (ruled_of measured.now) a) }
{
    let mut components = shared(alloc, others)?;
    components.push(Component {
        name: measured.measure.share()?,
        role: Role::Measure,
        kind: measured.kind,
        codes: None,
    })?;
    components.push(Component {
        name: measured.id.share()?,
        role: Role::Measure,
        kind: Kind::Bool,
        codes: None,
    })?;
    Ok(Structure {
        components: List::of(components),
    })
}

// The value of an item, as the columns of its table.
fn item_items(
    alloc: Global,
    writer: &Writer,
    measured: &Measured<'_>,
    others: &[&Component],
    columns: &[&Component],
) -> Result<Vec<Item>, AllocError>
    ensures { IfOk result (λ v. map item_tree v.items ≡ items_as (own_columns (shown others.now) ++ (first_column measured.now.measure.now ∷ true_as ∷ [])) (shown columns.now)) }
{
    let mut items = Vec::with_capacity(alloc, columns.len())?;
    push_own(writer, &mut items, others, columns)?;
    push_next(&mut items, writer.column(measured.measure)?, columns)?;
    push_next(&mut items, always(), columns)?;
    Ok(items)
}

// The value of an item at each combination where it is there, from the table of the operand.
fn item_query(
    alloc: Global,
    writer: &Writer,
    measured: &Measured<'_>,
    others: &[&Component],
    columns: &[&Component],
    item: &Txt,
    table: &Txt,
) -> Result<Query, AllocError>
    ensures { IfOk result (λ q. query_tree q ≡ item_as (ruled_of measured.now) (shown others.now) (shown columns.now) item.now table.now ∷ []) }
{
    let items = item_items(alloc, writer, measured, others, columns)?;
    let id = writer.column(measured.id)?;
    let condition = between(alloc, id, ScalarOp::Equal, text_as(item)?)?;
    from_table(alloc, writer, items, Some(condition), table)
}

/// Each item once, in the order in which they first come. It takes the logarithm of their number for each, and fails only if
/// memory runs out.
#[tactic(auto, using(crate::proofs::ItemsOnce::once_new, crate::proofs::ItemsOnce::once_old, std::proofs::lemmas::Grind::common_steps))]
pub(crate) fn each_once(alloc: Global, items: &[Txt]) -> Result<Vec<Txt>, AllocError>
    ensures { IfOk result (λ v. v.items ≡ each_once same_name items.now) }
{
    let mut seen = ByName::new(alloc);
    let mut once = Vec::new(alloc);
    for item in items {
        if !seen.has(item) {
            seen.put(item.share()?, ())?;
            once.push(item.share()?)?;
        }
    }
    Ok(once)
}

/// Names a table by an item, unless one has its name. It fails only if memory runs out.
pub(crate) fn put_first(tables: &mut ByName<Txt>, item: &Txt, table: Txt) -> Result<(), AllocError>
    ensures { OnOk result ((q : ListOf ℕ) → lookup (same_text q) tables.new ≡ found_else (lookup (same_text q) tables.old) item.now table q) }
{
    if tables.has(item) {
        return Ok(());
    }
    tables.put(item.share()?, table)?;
    Ok(())
}

// A table of these columns for each item, by names.
fn named_tables(
    alloc: Global,
    writer: &Writer,
    measured: &Measured<'_>,
    others: &[&Component],
    columns: &[&Component],
    items: &[Txt],
    table: &Txt,
    target: &Txt,
    draft: &mut Draft,
) -> Result<ByName<Txt>, AllocError>
    ensures names { IfOk result (λ named. (q : ListOf ℕ) → lookup (same_text q) named ≡ found_by items.now (numbered_from target.now draft.old.next items.now) q) }
    ensures tables { OnOk result ((a : StructureOf) → shown others.now ≡ other_identifiers (ruled_of measured.now).id a → shown columns.now ≡ columns_of (item_structure (ruled_of measured.now) a) → map statement_tree draft.new.statements.items ≡ map statement_tree draft.old.statements.items ++ map create_for (item_tables writer.now target.now (ruled_of measured.now) a (table.now ∷ []) items.now draft.old.next).tables) }
    ensures next { OnOk result (draft.new.next ≡ draft.old.next + length items.now) }
{
    let mut tables = ByName::new(alloc);
    for item in items {
        let query = item_query(alloc, writer, measured, others, columns, item, table)?;
        let name = draft.store(alloc, target, query)?;
        put_first(&mut tables, item, name)?;
    }
    Ok(tables)
}

/// A table for each item, by names: where an item is given again, its first one. It fails only if memory runs out.
pub(crate) fn item_tables(
    alloc: Global,
    writer: &Writer,
    measured: &Measured<'_>,
    others: &[&Component],
    items: &[Txt],
    table: &Txt,
    target: &Txt,
    draft: &mut Draft,
) -> Result<ByName<Txt>, AllocError>
    ensures names { IfOk result (λ named. (a : StructureOf) (item : ListOf ℕ) → tables_in named item ≡ tables_by items.now (item_tables writer.now target.now (ruled_of measured.now) a (table.now ∷ []) items.now draft.old.next).names item) }
    ensures tables { OnOk result ((a : StructureOf) → shown others.now ≡ other_identifiers (ruled_of measured.now).id a → map statement_tree draft.new.statements.items ≡ map statement_tree draft.old.statements.items ++ map create_for (item_tables writer.now target.now (ruled_of measured.now) a (table.now ∷ []) items.now draft.old.next).tables) }
    ensures next { OnOk result (draft.new.next ≡ draft.old.next + length items.now) }
{
    let structure = item_structure(alloc, measured, others)?;
    let columns = structure.columns(alloc)?;
    named_tables(
        alloc, writer, measured, others, &columns, items, table, target, draft,
    )
}
