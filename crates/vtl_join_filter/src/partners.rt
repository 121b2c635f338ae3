// The rows of an operand that may go with rows in front of them.
//
// Where a condition has no fault at any point, and equates cells of an operand with cells of one in front of it, only
// rows with these cells need be asked: a look-up by all of them is made once, and tells their numbers, which rise.
ghost use Rattle.std.specs.Prelude.{◌≡◌, ◌<◌, length, map, slice_index, IfOk, IfSome};
ghost use Rattle.std.specs.List.{AllByRecursion};
ghost use Rattle.vtl_rows.specs.Places.{row_at};
ghost use Rattle.vtl_tree.specs.View.{comp_exp_of};
ghost use Rattle.vtl_expr.specs.Prepared.{SameValue, prepared_exp};
ghost use Rattle.vtl_join_filter.specs.Partners.{AreEnough, HasNoFault, IsPair, IsPairBetween, IsPartner, asked_column, found_behind, numbers_of, own_column};
ghost use Rattle.vtl_join_filter.specs.declared.sieve.Asked.{Asked};

use crate::keys::{KeyPair, key_pairs};
use crate::safety::is_safe;
use crate::sieve::Asked;
use std::alloc::{AllocError, Global};
use std::marker::Brand;
use std::sync::ledger::{Blank, Ledger};
use vtl_cell::Cell;
use vtl_decimal::Profile;
use vtl_index::{KeyColumn, NullKeys, RowIndex, Steps};
use vtl_rows::Table;
use vtl_tree::CompExpr;

// How rows of an operand are found by a row of one in front of it: those whose key has the cells that stand at listed
// columns there.
pub(crate) struct Partner<'a> {
    part: usize,
    index: RowIndex<'a>,
    front: usize,
    asking: &'a Table,
    at: Vec<KeyColumn>,
}

// Written out, so that a proof sees one call and not the drop of each part.
impl Drop for Partner<'_> {
    fn drop(self) {
        let Partner {
            part: _,
            index: _index,
            front: _,
            asking: _,
            at: _at,
        } = self;
    }
}

// Numbers of rows, which rise: all below one, or those that are found.
#[derive(Clone, Copy)]
pub(crate) enum Numbers<'a> {
    Below(usize),
    Found(&'a [usize]),
}

impl Numbers<'_> {
    // How many there are.
    pub(crate) fn len(self) -> usize
        ensures { result ≡ length (numbers_of self.entry) }
    {
        match self {
            Numbers::Below(count) => count,
            Numbers::Found(rows) => rows.len(),
        }
    }

    // The one at a place.
    pub(crate) fn at(self, i: usize) -> usize
        requires { i < length (numbers_of self) }
        ensures { result ≡ slice_index (numbers_of self.entry) i }
    {
        match self {
            Numbers::Below(_) => i,
            Numbers::Found(rows) => rows[i],
        }
    }
}

// The row at a place, or no cells past the last.
fn row_or_none(table: &Table, i: usize) -> &[Cell]
    ensures { result.now ≡ row_at table.now.rows i }
{
    if i < table.len() { table.row(i) } else { &[] }
}

// The number at a place, or 0 past the last.
fn number_at(numbers: &[usize], i: usize) -> usize
    ensures { result ≡ slice_index numbers.now i }
{
    if i < numbers.len() { numbers[i] } else { 0 }
}

// The rows that are found behind the numbers in front.
fn found_behind<'p>(partner: &'p Partner<'_>, front: &[usize]) -> &'p [usize]
    ensures { result.now ≡ found_behind partner.now front.now }
{
    found_in_steps::<Brand>(partner, front, Blank::new(1))
}

// The same, whose steps are counted.
fn found_in_steps<'p, L: Ledger>(
    partner: &'p Partner<'_>,
    front: &[usize],
    blank: Blank,
) -> &'p [usize]
    requires name { blank.name ≡ L.name }
    requires parts { blank.parts ≡ L.parts }
    requires some { 0 < L.parts }
    ensures { result.now ≡ found_behind partner.now front.now }
{
    let mut steps: Steps<L> = Steps::new(blank);
    let row = row_or_none(partner.asking, number_at(front, partner.front));
    partner.index.probe(row, &partner.at, &mut steps)
}

// The numbers below a count that may stand behind those in front.
pub(crate) fn numbers_behind<'p>(
    partners: &'p [Partner<'_>],
    front: &[usize],
    count: usize,
) -> Numbers<'p>
    ensures { (a : Asked) → AllByRecursion (IsPartner a) partners.now → AreEnough a front.now count (numbers_of result) }
{
    for partner in partners {
        if partner.part == front.len() && partner.index.table().len() == count {
            return Numbers::Found(found_behind(partner, front));
        }
    }
    Numbers::Below(count)
}

// Whether rows of an operand are found.
fn is_found(partners: &[Partner<'_>], part: usize) -> bool {
    for partner in partners {
        if partner.part == part {
            return true;
        }
    }
    false
}

// The pairs of cells of two operands.
fn pairs_between(
    alloc: Global,
    pairs: &[KeyPair],
    front: usize,
    last: usize,
) -> Result<Vec<KeyPair>, AllocError>
    ensures { IfOk result (λ v. (a : Asked) → AllByRecursion (IsPair a) pairs.now → AllByRecursion (IsPairBetween a front last) v.items) }
{
    let mut between = Vec::new(alloc);
    for pair in pairs {
        if pair.asked.part == front && pair.own.part == last {
            between.push(*pair)?;
        }
    }
    Ok(between)
}

// The columns of the key.
fn own_columns(alloc: Global, pairs: &[KeyPair]) -> Result<Vec<KeyColumn>, AllocError>
    ensures { IfOk result (λ v. v.items ≡ map own_column pairs.now) }
{
    let mut columns = Vec::with_capacity(alloc, pairs.len())?;
    for pair in pairs {
        columns.push(KeyColumn {
            column: pair.own.column,
            form: pair.form,
        })?;
    }
    Ok(columns)
}

// The columns of the same cells in rows that ask.
fn asked_columns(alloc: Global, pairs: &[KeyPair]) -> Result<Vec<KeyColumn>, AllocError>
    ensures { IfOk result (λ v. v.items ≡ map asked_column pairs.now) }
{
    let mut columns = Vec::with_capacity(alloc, pairs.len())?;
    for pair in pairs {
        columns.push(KeyColumn {
            column: pair.asked.column,
            form: pair.form,
        })?;
    }
    Ok(columns)
}

// A look-up of a table by such pairs, whose steps are counted.
fn index_by<'a, L: Ledger>(
    alloc: Global,
    table: &'a Table,
    pairs: &[KeyPair],
    p: &Profile,
    blank: Blank,
) -> Result<RowIndex<'a>, AllocError>
    requires name { blank.name ≡ L.name }
    requires parts { blank.parts ≡ L.parts }
    requires some { 0 < L.parts }
    ensures { IfOk result (λ x. x ≡ record { rows = table.now.rows; key = map own_column pairs.now; nulls = NullKeys.NotFound; p = p.now }) }
{
    let mut steps: Steps<L> = Steps::new(blank);
    let key = own_columns(alloc, pairs)?;
    RowIndex::of(alloc, table, key, NullKeys::NotFound, p, &mut steps)
}

// How rows of the later operand of a pair are found, by all pairs of the same two operands.
fn partner_of<'a>(
    alloc: Global,
    asked: &Asked<'a>,
    pairs: &[KeyPair],
    pair: KeyPair,
) -> Result<Option<Partner<'a>>, AllocError>
    ensures { IfOk result (λ o. IfSome o (λ x. HasNoFault asked.now → AllByRecursion (IsPair asked.now) pairs.now → IsPartner asked.now x)) }
{
    let Some(asking) = asked.gathering.part(pair.asked.part) else {
        return Ok(None);
    };
    let Some(table) = asked.gathering.part(pair.own.part) else {
        return Ok(None);
    };
    let between = pairs_between(alloc, pairs, pair.asked.part, pair.own.part)?;
    Ok(Some(Partner {
        part: pair.own.part,
        index: index_by::<Brand>(alloc, table, &between, asked.profile, Blank::new(1))?,
        front: pair.asked.part,
        asking,
        at: asked_columns(alloc, &between)?,
    }))
}

// How rows of operands are found; none where the condition may have a fault. Where an operand has pairs with several
// others, those with the one of its first pair count.
pub(crate) fn partners<'a>(
    alloc: Global,
    asked: &Asked<'a>,
    condition: &CompExpr,
) -> Result<Vec<Partner<'a>>, AllocError>
    requires { SameValue (prepared_exp asked.now.condition) (comp_exp_of condition.now) }
    ensures { IfOk result (λ v. AllByRecursion (IsPartner asked.now) v.items) }
{
    let mut partners = Vec::new(alloc);
    if !is_safe(condition) {
        return Ok(partners);
    }
    let pairs = key_pairs(alloc, asked, condition)?;
    for pair in &pairs {
        if !is_found(&partners, pair.own.part) {
            if let Some(partner) = partner_of(alloc, asked, &pairs, *pair)? {
                partners.push(partner)?;
            }
        }
    }
    Ok(partners)
}
