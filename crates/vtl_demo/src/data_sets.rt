// The tables of the two data sets.
//
// A row is moved into its table from a list that is used again, and the texts of the groups are shared, so that a row
// takes no block of memory.
ghost use Rattle.std.specs.List.{range_with_len};
ghost use Rattle.std.specs.Prelude.{◌≡◌, ◌≤◌, ◌<◌, ◌+◌, ◌*◌, [], map, IfOk, OnOk};
ghost use Rattle.vtl_rows.specs.Tables.{listed};
ghost use Rattle.vtl_sets.specs.TableOf.{table_columns};
ghost use Rattle.vtl_demo.specs.DataSets as sets;
ghost use Rattle.vtl_demo.specs.Draws.{state};

use crate::draws::Draws;
use crate::structures::{LEFT_NAME, RIGHT_NAME, left_structure, right_structure, word};
use std::alloc::{AllocError, Global};
use vtl_cell::Cell;
use vtl_rows::{Inputs, Table, Tables};
use vtl_sets::new_table;
use vtl_text::Txt;

const GROUPS: u64 = 10;

const FACTORS: u64 = 1_000;

fn group_name(alloc: Global, digit: u64) -> Result<Txt, AllocError>
    requires { digit < 10 }
    ensures { IfOk result (λ t. t ≡ sets.group_name digit) }
{
    let name = format!(in alloc; "G{digit}")?;
    word(alloc, &name)
}

// The names of all groups.
fn group_names(alloc: Global) -> Result<Vec<Txt>, AllocError>
    ensures { IfOk result (λ v. v.items ≡ map sets.group_name (range_with_len 0 10)) }
{
    let mut names = Vec::new(alloc);
    for digit in 0..GROUPS {
        names.push(group_name(alloc, digit)?)?;
    }
    Ok(names)
}

// Puts the point of the first data set that comes behind so many others into an empty row.
fn fill_left(
    row: &mut Vec<Cell>,
    groups: &[Txt],
    draws: &mut Draws,
    before: u64,
) -> Result<(), AllocError>
    requires empty { row.old.items ≡ [] }
    requires names { groups.now ≡ map sets.group_name (range_with_len 0 10) }
    requires state { draws.old.state ≡ state (3 * before) }
    requires few { before < sets.most_points }
    ensures point { OnOk result (row.new.items ≡ sets.left_point (before + 1)) }
    ensures state { draws.new.state ≡ state (3 * before + 2) }
{
    let group = draws.draw() % GROUPS;
    let factor = draws.draw() % FACTORS;
    row.push(Cell::Int((before + 1) as i64))?;
    row.push(Cell::Text(groups[group as usize].share()?))?;
    row.push(Cell::Int(factor as i64))?;
    Ok(())
}

// The same of the second data set, by the draw behind those two.
fn fill_right(row: &mut Vec<Cell>, draws: &mut Draws, before: u64) -> Result<(), AllocError>
    requires empty { row.old.items ≡ [] }
    requires state { draws.old.state ≡ state (3 * before + 2) }
    requires few { before < sets.most_points }
    ensures point { OnOk result (row.new.items ≡ sets.right_point (before + 1)) }
    ensures state { draws.new.state ≡ state (3 * (before + 1)) }
{
    let factor = draws.draw() % FACTORS;
    row.push(Cell::Int((before + 1) as i64))?;
    row.push(Cell::Int(factor as i64))?;
    Ok(())
}

// Fills two tables that have room for so many points.
fn fill(
    alloc: Global,
    left: &mut Table,
    right: &mut Table,
    groups: &[Txt],
    points: u64,
) -> Result<(), AllocError>
    requires names { groups.now ≡ map sets.group_name (range_with_len 0 10) }
    requires few { points ≤ sets.most_points }
    requires left_empty { left.old.rows ≡ [] }
    requires right_empty { right.old.rows ≡ [] }
    requires left_columns { left.old.columns ≡ table_columns sets.left_structure }
    requires right_columns { right.old.columns ≡ table_columns sets.right_structure }
    requires left_room { points ≤ left.old.spare }
    requires right_room { points ≤ right.old.spare }
    ensures left { OnOk result (left.new.rows ≡ sets.left_points points) }
    ensures right { OnOk result (right.new.rows ≡ sets.right_points points) }
    ensures left_columns { left.new.columns ≡ left.old.columns }
    ensures right_columns { right.new.columns ≡ right.old.columns }
{
    let mut draws = Draws::new();
    let mut row = Vec::new(alloc);
    for before in 0..points {
        fill_left(&mut row, groups, &mut draws, before)?;
        left.push_cells(&mut row);
        fill_right(&mut row, &mut draws, before)?;
        right.push_cells(&mut row);
    }
    Ok(())
}

// Two tables by the names of the data sets.
fn named(alloc: Global, left: Table, right: Table) -> Result<Inputs, AllocError>
    ensures { IfOk result (λ t. t ≡ sets.named_tables (listed left) (listed right)) }
{
    let mut tables = Tables::new(alloc);
    tables.put(alloc, word(alloc, LEFT_NAME)?, left)?;
    tables.put(alloc, word(alloc, RIGHT_NAME)?, right)?;
    Ok(tables)
}

/// The tables of both data sets, with so many points each. It fails only if memory runs out.
pub(crate) fn inputs(alloc: Global, points: u64) -> Result<Inputs, AllocError>
    requires { points ≤ sets.most_points }
    ensures { IfOk result (λ t. t ≡ sets.tables points) }
{
    let mut left = new_table(alloc, &left_structure(alloc)?)?;
    let mut right = new_table(alloc, &right_structure(alloc)?)?;
    left.reserve_rows(points as usize)?;
    right.reserve_rows(points as usize)?;
    let groups = group_names(alloc)?;
    fill(alloc, &mut left, &mut right, &groups, points)?;
    named(alloc, left, right)
}
