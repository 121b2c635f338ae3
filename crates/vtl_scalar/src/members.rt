// Sets that many values are looked up in.
//
// A set is looked up by halves (`Members`): integers and the other members stand in two sorted runs, so that their
// order depends on no profile; a run of several kinds is walked.
ghost use Rattle.std.specs.Prelude.{◌≡◌, ◌<◌, ◌∷◌, IfOk, length, true};
ghost use Rattle.std.specs.List.{list_all};
ghost use Rattle.vtl_lists.specs.Perm.{Perm};
ghost use Rattle.vtl_cell.specs.ScalarComparison.{member_of, membership_of};
ghost use Rattle.vtl_scalar.specs.Members.{AreInOrder, are_of_one_kind, is_of_one_kind};

use crate::comparison::{member, order};
use std::alloc::{AllocError, Global};
use std::cmp::Ordering;
use std::marker::Model;
use vtl_cell::{Cell, clone_cell};
use vtl_decimal::Profile;

// Whether two cells are of one kind; an integer and a number are of two.
fn is_of_one_kind(a: &Cell, b: &Cell) -> bool
    ensures { result ≡ is_of_one_kind a.now b.now }
{
    match (a, b) {
        (Cell::Null, Cell::Null) => true,
        (Cell::Bool(_), Cell::Bool(_)) => true,
        (Cell::Int(_), Cell::Int(_)) => true,
        (Cell::Num(_), Cell::Num(_)) => true,
        (Cell::Text(_), Cell::Text(_)) => true,
        (Cell::Day(_), Cell::Day(_)) => true,
        (Cell::Period(_), Cell::Period(_)) => true,
        _ => false,
    }
}

// Whether all cells are of the kind of another.
fn are_of_kind_of(one: &Cell, cells: &[Cell]) -> bool
    ensures { result ≡ list_all (is_of_one_kind one.now) cells.now }
{
    cells.iter().all(|cell| is_of_one_kind(one, cell))
}

fn are_of_one_kind(cells: &[Cell]) -> bool
    ensures { result ≡ are_of_one_kind cells.now }
{
    match cells {
        [] => true,
        [first, ..] => are_of_kind_of(first, cells),
    }
}

// The same cells in order.
fn sorted(cells: Vec<Cell>) -> Result<Vec<Cell>, AllocError>
    requires { are_of_one_kind cells.items ≡ true }
    ensures order { IfOk result (λ v. AreInOrder v.items) }
    ensures cells { IfOk result (λ v. Perm v.items cells.items) }
{
    let mut sorted = cells;
    sorted.sort()?;
    Ok(sorted)
}

// Whether a value is one of members in order, by halves; None where it has no order with the members.
fn is_among(members: &[Cell], a: &Cell, p: &Profile) -> Option<bool>
    requires { AreInOrder members.now }
    ensures { result ≡ member_of p.now a.now members.now }
{
    let mut low = 0;
    let mut high = members.len();
    while low < high {
        let middle = low + (high - low) / 2;
        match order(a, &members[middle], p)? {
            Ordering::Less => high = middle,
            Ordering::Equal => return Some(true),
            Ordering::Greater => low = middle + 1,
        }
    }
    Some(false)
}

// Members that are looked up by halves where they are of one kind, and one by one where they are not. A contract sees
// their list.
struct Run {
    members: Vec<Cell>,
    is_in_order: bool,
}

// Written out, so that a proof above sees one call and not the drop of each part.
impl Drop for Run {
    fn drop(self) {
        let Run {
            members: _members,
            is_in_order: _,
        } = self;
    }
}

impl Model for Run {
    ghost use Rattle.std.specs.Prelude.{List, IsTrue};
    ghost use Rattle.vtl_cell.specs.declared.cell.Cell.{Cell};
    ghost use Rattle.vtl_scalar.specs.Members.{AreInOrder};

    ghost Value = { List Cell };

    ghost view = { λ r. r.members.items };

    ghost invariant = { λ r. IsTrue r.is_in_order → AreInOrder r.members.items };
}

impl Run {
    fn of(members: Vec<Cell>) -> Result<Run, AllocError>
        ensures { IfOk result (λ r. Perm r members.items) }
    {
        if are_of_one_kind(&members) {
            return Ok(Run {
                members: sorted(members)?,
                is_in_order: true,
            });
        }
        Ok(Run {
            members,
            is_in_order: false,
        })
    }

    fn has(&self, a: &Cell, p: &Profile) -> Option<bool>
        ensures { result ≡ member_of p.now a.now self.now }
    {
        if self.is_in_order {
            is_among(&self.members, a, p)
        } else {
            member(a, &self.members, p)
        }
    }
}

/// The members of a set, one at least, in an order in which looking one up takes the logarithm of their number, where
/// those that are no integers are of one kind. A contract sees them as a list whose order means nothing.
pub struct Members {
    integers: Run,
    others: Run,
}

// Written out, so that a proof above sees one call and not the drop of each part.
impl Drop for Members {
    fn drop(self) {
        let Members {
            integers: _integers,
            others: _others,
        } = self;
    }
}

impl Model for Members {
    ghost use Rattle.std.specs.Prelude.{◌<◌, ◌++◌, List, length};
    ghost use Rattle.vtl_cell.specs.declared.cell.Cell.{Cell};

    ghost Value = { List Cell };

    ghost view = { λ m. m.integers ++ m.others };

    ghost invariant = { λ m. 0 < length (m.integers ++ m.others) };
}

impl Members {
    /// The members that are listed. It fails only if memory runs out.
    pub fn of(alloc: Global, listed: &[Cell]) -> Result<Members, AllocError>
        requires { 0 < length listed.now }
        ensures { IfOk result (λ m. Perm m listed.now) }
    {
        let mut integers = Vec::new(alloc);
        let mut others = Vec::new(alloc);
        for cell in listed {
            let copy = clone_cell(cell)?;
            match cell {
                Cell::Int(_) => integers.push(copy)?,
                _ => others.push(copy)?,
            }
        }
        Ok(Members {
            integers: Run::of(integers)?,
            others: Run::of(others)?,
        })
    }

    /// Whether a value is one of the members, as `in` has it: an integer and a number are compared by value. None where
    /// the value has no order with one of the members, as null has none.
    pub fn has(&self, a: &Cell, p: &Profile) -> Option<bool>
        ensures { result ≡ membership_of p.now (a.now ∷ self.now) }
    {
        let is_integer = self.integers.has(a, p)?;
        let is_other = self.others.has(a, p)?;
        Some(is_integer || is_other)
    }
}
