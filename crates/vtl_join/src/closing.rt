// The joined set.
ghost use Rattle.std.specs.Prelude.{◌≡◌, ◌+◌, ◌<◌, ◌∷◌, [], cond, length, map, slice_get, Some, IfOk};
ghost use Rattle.std.specs.List.{AllByRecursion};
ghost use Rattle.std.specs.Option.{IfSome};
ghost use Rattle.vtl_rows.specs.Tables.{listed};
ghost use Rattle.vtl_sets.specs.DataSets.{data_set};
ghost use Rattle.vtl_sets.specs.TableOf.{table_columns};
ghost use Rattle.vtl_tree.specs.DataSet.{IsDataSet};
ghost use Rattle.vtl_tree.specs.Structure.{columns_of};
ghost use Rattle.vtl_tree.specs.declared.structure.Role.TheVariants as role;
ghost use Rattle.vtl_tree.specs.Columns.{identifiers_of};
ghost use Rattle.vtl_meaning.specs.Joined.{cross_tuples, full_tuples, inner_tuples, join_of, left_tuples, structures_of, tuple_point};
ghost use Rattle.vtl_meaning.specs.Made.{AreAmong, HasIdentifiers, IsJoined};
ghost use Rattle.vtl_meaning.specs.Shapes.{IsJoinedFrom};
ghost use Rattle.vtl_join.specs.Crossing.{row_counts, tuples_behind};
ghost use Rattle.vtl_join.specs.Finding.{wants_all};
ghost use Rattle.vtl_join.specs.Gatherings.{gathers, point_of, points_of, width_of};
ghost use Rattle.vtl_join.specs.Joining.{IsBeside, sets_of, typed_operands};
ghost use Rattle.vtl_join.specs.Picks.{picks_at, picks_from};

use crate::columns::places_of;
use crate::crossing::combinations;
use crate::gathering::{Gathering, gathered, operands_are_sets, push_picks, push_role};
use crate::joined::{Joined, Operand};
use crate::keys::lead_of_keys;
use crate::reference::reference_place;
use crate::sources::{sources_around, sources_at};
use crate::tuples::{all_tuples, up_to};
use std::alloc::{AllocError, Global};
use std::marker::Brand;
use std::sync::ledger::{Blank, Ledger};
use vtl_index::Steps;
use vtl_rows::{Pick, Table};
use vtl_sets::DataSet;
use vtl_syntax::JoinKind;
use vtl_tree::{Role, Structure};

// The cells at places of the lead.
fn lead_picks(alloc: Global, places: &[usize]) -> Result<Vec<Pick>, AllocError>
    ensures { IfOk result (λ v. v.items ≡ picks_at 0 places.now) }
{
    let mut picks = Vec::with_capacity(alloc, places.len())?;
    push_picks(&mut picks, 0, places)?;
    Ok(picks)
}

// Whether a part of each operand is wanted.
fn wants_all(kind: JoinKind) -> bool
    ensures { result ≡ wants_all kind }
{
    matches!(kind, JoinKind::Inner)
}

/// What the points of an inner or a left join are gathered from, and its tuples, one after the other.
pub struct BesideParts<'a> {
    /// The tables and the cells.
    pub gathering: Gathering<'a>,
    /// The tuples.
    pub tuples: Vec<usize>,
}

// Written out, so that a proof sees one call and not the drop of each part.
impl Drop for BesideParts<'_> {
    fn drop(self) {
        let BesideParts {
            gathering: _gathering,
            tuples: _tuples,
        } = self;
    }
}

impl<'a> BesideParts<'a> {
    /// The tables and the cells, and the tuples.
    pub fn into_parts(self) -> (Gathering<'a>, Vec<usize>)
        ensures gathering { result.0 ≡ self.entry.gathering }
        ensures tuples { result.1 ≡ self.entry.tuples }
    {
        let BesideParts { gathering, tuples } = self;
        (gathering, tuples)
    }
}

// Those of an inner or a left join. The reference leads, which stands at this place.
fn beside_lead<'a, L: Ledger>(
    alloc: Global,
    kind: JoinKind,
    operands: &'a [Operand],
    place: usize,
    lead: &'a DataSet,
    made: &'a Structure,
    blank: Blank,
) -> Result<BesideParts<'a>, AllocError>
    requires name { blank.name ≡ L.name }
    requires parts { blank.parts ≡ L.parts }
    requires some { 0 < L.parts }
    requires lead { slice_get (sets_of operands.now) place ≡ Some lead.now }
    requires made { IsJoined kind (structures_of (sets_of operands.now)) made.now }
    requires identifiers { HasIdentifiers made.now (identifiers_of lead.now.structure) }
    ensures columns { IfOk result (λ b. b.gathering.columns ≡ table_columns made.now) }
    ensures width { IfOk result (λ b. width_of b.gathering ≡ length operands.now + 1) }
    ensures points { IfOk result (λ b. points_of b.gathering b.tuples.items ≡ map tuple_point (cond (wants_all kind) (inner_tuples lead.now (sets_of operands.now)) (left_tuples lead.now (sets_of operands.now)))) }
{
    let mut steps: Steps<L> = Steps::new(blank);
    operands_are_sets(operands);
    let sources = sources_around(alloc, lead.structure(), operands, place, &mut steps)?;
    let tuples = all_tuples(alloc, wants_all(kind), &sources, lead.table(), &mut steps)?;
    let places = places_of(alloc, lead.structure(), Role::Identifier)?;
    let identifiers = lead_picks(alloc, &places)?;
    let gathering = Gathering::of(alloc, lead.table(), operands, identifiers, made)?;
    Ok(BesideParts { gathering, tuples })
}

// Those of an inner or a left join of operands.
fn beside_of<'a>(
    alloc: Global,
    kind: JoinKind,
    operands: &'a [Operand],
    made: &'a Structure,
) -> Result<BesideParts<'a>, AllocError>
    requires beside { IsBeside kind }
    requires made { IsJoined kind (structures_of (sets_of operands.now)) made.now }
    ensures columns { IfOk result (λ b. b.gathering.columns ≡ table_columns made.now) }
    ensures width { IfOk result (λ b. width_of b.gathering ≡ length operands.now + 1) }
    ensures points { IfOk result (λ b. points_of b.gathering b.tuples.items ≡ join_of kind (sets_of operands.now)) }
{
    operands_are_sets(operands);
    let place = reference_place(kind, operands);
    let lead = &operands[place].set;
    beside_lead::<Brand>(alloc, kind, operands, place, lead, made, Blank::new(1))
}

/// What the points of an inner or a left join are gathered from, with its tuples. The structure is that which typing gives.
/// It fails only if memory runs out.
pub fn parts_beside<'a>(
    alloc: Global,
    kind: JoinKind,
    j: &'a Joined,
    made: &'a Structure,
) -> Result<BesideParts<'a>, AllocError>
    requires beside { IsBeside kind }
    requires made { IsJoined kind (structures_of (sets_of j.now.operands)) made.now }
    ensures columns { IfOk result (λ b. b.gathering.columns ≡ table_columns made.now) }
    ensures width { IfOk result (λ b. width_of b.gathering ≡ length j.now.operands + 1) }
    ensures points { IfOk result (λ b. points_of b.gathering b.tuples.items ≡ join_of kind (sets_of j.now.operands)) }
    ensures set { IsDataSet made.now (join_of kind (sets_of j.now.operands)) }
{
    let operands = j.operands.as_slice();
    operands_are_sets(operands);
    beside_of(alloc, kind, operands, made)
}

// The table of an inner or a left join.
fn beside_table(
    alloc: Global,
    kind: JoinKind,
    operands: &[Operand],
    made: &Structure,
) -> Result<Table, AllocError>
    requires beside { IsBeside kind }
    requires made { IsJoined kind (structures_of (sets_of operands.now)) made.now }
    ensures columns { IfOk result (λ t. t.columns ≡ table_columns made.now) }
    ensures rows { IfOk result (λ t. t.rows ≡ join_of kind (sets_of operands.now)) }
{
    let parts = beside_of(alloc, kind, operands, made)?;
    parts.gathering.points(alloc, &parts.tuples)
}

// The table of a full join, whose identifiers are those of a reference. The tuples of identifiers of all operands lead.
fn full_table<L: Ledger>(
    alloc: Global,
    operands: &[Operand],
    reference: &DataSet,
    made: &Structure,
    blank: Blank,
) -> Result<Table, AllocError>
    requires name { blank.name ≡ L.name }
    requires parts { blank.parts ≡ L.parts }
    requires some { 0 < L.parts }
    requires made { IsJoined JoinKind.Full (structures_of (sets_of operands.now)) made.now }
    requires identifiers { HasIdentifiers made.now (identifiers_of reference.now.structure) }
    requires all { AllByRecursion (λ d. AreAmong (identifiers_of reference.now.structure) (columns_of d.structure)) (sets_of operands.now) }
    ensures columns { IfOk result (λ t. t.columns ≡ table_columns made.now) }
    ensures rows { IfOk result (λ t. t.rows ≡ map tuple_point (full_tuples reference.now (sets_of operands.now))) }
{
    let mut steps: Steps<L> = Steps::new(blank);
    let identifiers = reference.structure().identifiers(alloc)?;
    let lead = lead_of_keys(alloc, &identifiers, operands)?;
    let sources = sources_at(alloc, &identifiers, operands, &mut steps)?;
    let tuples = all_tuples(alloc, false, &sources, &lead, &mut steps)?;
    let picks = lead_picks(alloc, &up_to(alloc, identifiers.len())?)?;
    gathered(alloc, &lead, operands, picks, &tuples, made)
}

// What the points of a cross join are gathered from. A table leads of which nothing is asked.
fn cross_gathering<'a>(
    alloc: Global,
    operands: &'a [Operand],
    lead: &'a Table,
    made: &'a Structure,
) -> Result<Gathering<'a>, AllocError>
    requires made { IsJoined JoinKind.Cross (structures_of (sets_of operands.now)) made.now }
    ensures { IfOk result (λ g. g ≡ gathers (listed lead.now) (sets_of operands.now) (picks_from role.Identifier 1 (structures_of (sets_of operands.now))) made.now) }
{
    operands_are_sets(operands);
    let mut identifiers = Vec::new(alloc);
    push_role(alloc, &mut identifiers, Role::Identifier, operands)?;
    Gathering::of(alloc, lead, operands, identifiers, made)
}

// The table of a cross join.
fn cross_table(
    alloc: Global,
    operands: &[Operand],
    lead: &Table,
    made: &Structure,
) -> Result<Table, AllocError>
    requires made { IsJoined JoinKind.Cross (structures_of (sets_of operands.now)) made.now }
    ensures columns { IfOk result (λ t. t.columns ≡ table_columns made.now) }
    ensures rows { IfOk result (λ t. t.rows ≡ map tuple_point (cross_tuples (sets_of operands.now))) }
{
    operands_are_sets(operands);
    let gathering = cross_gathering(alloc, operands, lead, made)?;
    gathering.points(alloc, &combinations(alloc, operands)?)
}

/// What the points of a cross join are gathered from: its tuples are 0 and a row number of each operand. The structure is
/// that which typing gives. It fails only if memory runs out.
pub fn product<'a>(
    alloc: Global,
    j: &'a Joined,
    made: &'a Structure,
) -> Result<Gathering<'a>, AllocError>
    requires made { IsJoined JoinKind.Cross (structures_of (sets_of j.now.operands)) made.now }
    ensures columns { IfOk result (λ g. g.columns ≡ table_columns made.now) }
    ensures width { IfOk result (λ g. width_of g ≡ length j.now.operands + 1) }
    ensures points { IfOk result (λ g. map (point_of g) (tuples_behind (0 ∷ []) (row_counts (sets_of j.now.operands))) ≡ join_of JoinKind.Cross (sets_of j.now.operands)) }
    ensures set { IsDataSet made.now (join_of JoinKind.Cross (sets_of j.now.operands)) }
{
    let operands = j.operands.as_slice();
    operands_are_sets(operands);
    cross_gathering(alloc, operands, operands[0].set.table(), made)
}

// The table of the joined set.
fn joined_table(
    alloc: Global,
    kind: JoinKind,
    operands: &[Operand],
    made: &Structure,
) -> Result<Table, AllocError>
    requires { IsJoined kind (structures_of (sets_of operands.now)) made.now }
    ensures columns { IfOk result (λ t. t.columns ≡ table_columns made.now) }
    ensures rows { IfOk result (λ t. t.rows ≡ join_of kind (sets_of operands.now)) }
{
    operands_are_sets(operands);
    let place = reference_place(kind, operands);
    let reference = &operands[place].set;
    match kind {
        JoinKind::Inner | JoinKind::Left => beside_table(alloc, kind, operands, made),
        JoinKind::Full => full_table::<Brand>(alloc, operands, reference, made, Blank::new(1)),
        JoinKind::Cross => cross_table(alloc, operands, reference.table(), made),
    }
}

/// The joined set, as a data set of the structure that typing gives: its components are the identifiers and the other
/// components of the operands, each named and with its codes as typing says. The kind is that of the steps; a join of one
/// operand has none. It fails only if memory runs out.
pub fn close(
    alloc: Global,
    kind: JoinKind,
    j: Joined,
    made: &Structure,
) -> Result<DataSet, AllocError>
    requires kind { IfSome j.kind (λ before. before ≡ kind) }
    requires made { IsJoined kind (structures_of (sets_of j.operands)) made.now }
    requires named { IsJoinedFrom kind (typed_operands j.operands) made.now }
    ensures { IfOk result (λ d. d ≡ data_set made.now (join_of kind (sets_of j.operands))) }
{
    operands_are_sets(&j.operands);
    let table = joined_table(alloc, kind, &j.operands, made)?;
    DataSet::of(alloc, made, table)
}
