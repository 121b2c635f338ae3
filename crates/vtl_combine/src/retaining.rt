// The points of an operand whose identifiers another operand has, or lacks.
ghost use Rattle.std.specs.Prelude.{◌≡◌, ◌<◌, length, map, All, IfOk};
ghost use Rattle.vtl_index.specs.Seekers.{is_any_meant};
ghost use Rattle.vtl_meaning.specs.Sets.{is_retained};
ghost use Rattle.vtl_combine.specs.Operands.{retained, retained_by};

use crate::rows::key_places;
use std::alloc::{AllocError, Global};
use std::marker::Brand;
use std::sync::ledger::{Blank, Ledger};
use vtl_index::{Seeker, Steps};
use vtl_rows::Table;
use vtl_sets::DataSet;
use vtl_syntax::Retain;
use vtl_tree::Structure;

// Whether what has this answer is retained.
pub(crate) fn is_retained(retain: Retain, answer: bool) -> bool
    ensures { result ≡ is_retained retain answer }
{
    match retain {
        Retain::All => true,
        Retain::True => answer,
        Retain::False => !answer,
    }
}

// For each row of a table whether there is a row that it asks for.
pub(crate) fn answers<L: Ledger>(
    alloc: Global,
    seeker: &Seeker<'_>,
    asking: &Table,
    steps: &mut Steps<L>,
) -> Result<Vec<bool>, AllocError>
    ensures { IfOk result (λ v. v.items ≡ map (is_any_meant seeker.now) asking.now.rows) }
{
    let firsts = seeker.firsts(alloc, asking, steps)?;
    let mut answers = Vec::with_capacity(alloc, firsts.len())?;
    for first in &firsts {
        answers.push(*first < seeker.len())?;
    }
    Ok(answers)
}

// The numbers of rows, among these, that are retained by whether there is a row that they ask for. All rows of the table
// ask at once.
fn retained_of_many<L: Ledger>(
    alloc: Global,
    retain: Retain,
    table: &Table,
    rows: &[usize],
    seeker: &Seeker<'_>,
    steps: &mut Steps<L>,
) -> Result<Vec<usize>, AllocError>
    requires { All (λ i. i < length table.now.rows) rows.now }
    ensures { IfOk result (λ v. v.items ≡ retained_by retain seeker.now table.now.rows rows.now) }
{
    let answers = answers(alloc, seeker, table, steps)?;
    let mut kept = Vec::new(alloc);
    for row in rows {
        if is_retained(retain, answers[*row]) {
            kept.push(*row)?;
        }
    }
    Ok(kept)
}

// The same, where each of these rows asks by itself.
fn retained_of_few<L: Ledger>(
    alloc: Global,
    retain: Retain,
    table: &Table,
    rows: &[usize],
    seeker: &Seeker<'_>,
    steps: &mut Steps<L>,
) -> Result<Vec<usize>, AllocError>
    requires { All (λ i. i < length table.now.rows) rows.now }
    ensures { IfOk result (λ v. v.items ≡ retained_by retain seeker.now table.now.rows rows.now) }
{
    let mut kept = Vec::new(alloc);
    for row in rows {
        if is_retained(retain, seeker.has(table.row(*row), steps)) {
            kept.push(*row)?;
        }
    }
    Ok(kept)
}

// The same. A question that all rows of the table ask at once costs less than one that a single row asks, so all ask
// unless these rows are at most half of them.
fn retained_by<L: Ledger>(
    alloc: Global,
    retain: Retain,
    table: &Table,
    rows: &[usize],
    seeker: &Seeker<'_>,
    steps: &mut Steps<L>,
) -> Result<Vec<usize>, AllocError>
    requires { All (λ i. i < length table.now.rows) rows.now }
    ensures { IfOk result (λ v. v.items ≡ retained_by retain seeker.now table.now.rows rows.now) }
{
    if rows.len() <= table.len() / 2 {
        retained_of_few(alloc, retain, table, rows, seeker, steps)
    } else {
        retained_of_many(alloc, retain, table, rows, seeker, steps)
    }
}

fn retained_in<L: Ledger>(
    alloc: Global,
    retain: Retain,
    operand: &DataSet,
    rows: &[usize],
    other: &DataSet,
    made: &Structure,
    blank: Blank,
) -> Result<Vec<usize>, AllocError>
    requires name { blank.name ≡ L.name }
    requires parts { blank.parts ≡ L.parts }
    requires some { 0 < L.parts }
    requires within { All (λ i. i < length operand.now.points) rows.now }
    ensures { IfOk result (λ v. v.items ≡ retained retain operand.now other.now made.now rows.now) }
{
    let mut steps: Steps<L> = Steps::new(blank);
    let own = key_places(alloc, other, made)?;
    let asked = key_places(alloc, operand, made)?;
    let seeker = Seeker::of(alloc, other.table(), &own, &asked, &mut steps)?;
    retained_by(alloc, retain, operand.table(), rows, &seeker, &mut steps)
}

// Of these row numbers of an operand, those that are retained by whether another operand has a point with the same
// identifiers. It takes time that is linear in the numbers and the other operand's points.
pub(crate) fn retained(
    alloc: Global,
    retain: Retain,
    operand: &DataSet,
    rows: &[usize],
    other: &DataSet,
    made: &Structure,
) -> Result<Vec<usize>, AllocError>
    requires { All (λ i. i < length operand.now.points) rows.now }
    ensures { IfOk result (λ v. v.items ≡ retained retain operand.now other.now made.now rows.now) }
{
    retained_in::<Brand>(alloc, retain, operand, rows, other, made, Blank::new(1))
}
