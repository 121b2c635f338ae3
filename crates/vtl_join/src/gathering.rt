// The table of a joined set, gathered from a lead and the tables of the operands.
ghost use Rattle.std.specs.Prelude.{◌≡◌, ◌+◌, ◌<◌, ◌++◌, ◌∷◌, length, map, slice_get, All, IfOk, IfSome, OnOk};
ghost use Rattle.std.specs.List.{AllByRecursion};
ghost use Rattle.vtl_rows.specs.Gathered.{part_at, picked_kind};
ghost use Rattle.vtl_rows.specs.Tables.{listed};
ghost use Rattle.vtl_sets.specs.TableOf.{table_columns};
ghost use Rattle.vtl_tree.specs.DataSet.{IsDataSet};
ghost use Rattle.vtl_tree.specs.Structure.{IsStructure};
ghost use Rattle.vtl_tree.specs.Columns.{identifiers_of, measures_of};
ghost use Rattle.vtl_meaning.specs.Joined.{structures_of};
ghost use Rattle.vtl_meaning.specs.Made.{attributes_of, component_kinds, kinds_of_all};
ghost use Rattle.vtl_join.specs.Gatherings.{gathers, point_of, points_of, width_of};
ghost use Rattle.vtl_join.specs.Joining.{sets_of};
ghost use Rattle.vtl_join.specs.Picks.{joined_rows, picks_at, picks_behind, picks_from, table_of};

use crate::columns::places_of;
use crate::joined::Operand;
use std::alloc::{AllocError, Global};
use std::marker::Model;
use vtl_rows::{Pick, Table, gather_beside};
use vtl_sets::table_columns;
use vtl_tree::{Role, Structure};

// The operands are data sets, as each tells of itself.
pub(crate) fn operands_are_sets(operands: &[Operand])
    ensures { AllByRecursion (λ d. IsDataSet d.structure d.points) (sets_of operands.now) }
{
    for operand in operands {
        operand.set.structure();
    }
}

// The tables of the operands behind one that leads.
fn parts_behind<'a>(
    alloc: Global,
    lead: &'a Table,
    operands: &'a [Operand],
) -> Result<Vec<&'a Table>, AllocError>
    ensures { IfOk result (λ v. map (λ t. listed t.now) v.items ≡ listed lead.now ∷ map table_of (sets_of operands.now)) }
{
    let mut parts = Vec::new(alloc);
    parts.push(lead)?;
    for operand in operands {
        parts.push(operand.set.table())?;
    }
    Ok(parts)
}

// Adds the cells at places of a part.
pub(crate) fn push_picks(
    picks: &mut Vec<Pick>,
    part: usize,
    places: &[usize],
) -> Result<(), AllocError>
    ensures { OnOk result (picks.new.items ≡ picks.old.items ++ picks_at part places.now) }
{
    for place in places {
        picks.push(Pick {
            part,
            column: *place,
        })?;
    }
    Ok(())
}

// Adds the cells of a role, operand by operand; their tables stand behind the lead.
pub(crate) fn push_role(
    alloc: Global,
    picks: &mut Vec<Pick>,
    role: Role,
    operands: &[Operand],
) -> Result<(), AllocError>
    ensures { OnOk result (picks.new.items ≡ picks.old.items ++ picks_from role 1 (structures_of (sets_of operands.now))) }
{
    for i in 0..operands.len() {
        let places = places_of(alloc, operands[i].set.structure(), role)?;
        push_picks(picks, i + 1, &places)?;
    }
    Ok(())
}

// The identifiers, and then the measures and the attributes of the operands.
fn picks_behind(
    alloc: Global,
    identifiers: Vec<Pick>,
    operands: &[Operand],
) -> Result<Vec<Pick>, AllocError>
    ensures { IfOk result (λ v. v.items ≡ picks_behind identifiers.items (structures_of (sets_of operands.now))) }
{
    let mut picks = identifiers;
    push_role(alloc, &mut picks, Role::Measure, operands)?;
    push_role(alloc, &mut picks, Role::Attribute, operands)?;
    Ok(picks)
}

/// What the points of a join are gathered from: a table that leads and those of the operands, and the cells that make a
/// point. A tuple has a row number for each of these tables, one after the other. A contract sees the tables, the cells
/// and the columns of the points.
pub struct Gathering<'a> {
    parts: Vec<&'a Table>,
    picks: Vec<Pick>,
    made: &'a Structure,
}

// Written out, so that a proof sees one call and not the drop of each part.
impl Drop for Gathering<'_> {
    fn drop(self) {
        let Gathering {
            parts: _parts,
            picks: _picks,
            made: _,
        } = self;
    }
}

impl<'a> Model for Gathering<'a> {
    ghost use Rattle.vtl_join.specs.Gatherings.{Gathers, IsGathering, gathers_of};

    ghost Value = { Gathers };

    ghost view = { λ g. gathers_of g.parts.items g.picks.items g.made.now };

    ghost invariant = { λ g. IsGathering (gathers_of g.parts.items g.picks.items g.made.now) };
}

impl<'a> Gathering<'a> {
    // That of a lead and of operands: the cells of identifiers, and then those of the measures and the attributes of
    // the operands.
    pub(crate) fn of(
        alloc: Global,
        lead: &'a Table,
        operands: &'a [Operand],
        identifiers: Vec<Pick>,
        made: &'a Structure,
    ) -> Result<Gathering<'a>, AllocError>
        requires within { All (λ p. p.part < length operands.now + 1) identifiers.items }
        requires identifiers { map (picked_kind (listed lead.now ∷ map table_of (sets_of operands.now))) identifiers.items ≡ component_kinds (identifiers_of made.now) }
        requires well_formed { IsStructure made.now }
        requires measures { component_kinds (measures_of made.now) ≡ kinds_of_all measures_of (structures_of (sets_of operands.now)) }
        requires attributes { component_kinds (attributes_of made.now) ≡ kinds_of_all attributes_of (structures_of (sets_of operands.now)) }
        ensures { IfOk result (λ g. g ≡ gathers (listed lead.now) (sets_of operands.now) identifiers.items made.now) }
    {
        operands_are_sets(operands);
        let parts = parts_behind(alloc, lead, operands)?;
        let picks = picks_behind(alloc, identifiers, operands)?;
        Ok(Gathering { parts, picks, made })
    }

    /// How many numbers a tuple has.
    pub fn width(&self) -> usize
        ensures { result ≡ width_of self.now }
    {
        self.parts.len()
    }

    /// The place of a tuple's row number and the column from which the cells at a place of the points come, if the points
    /// have cells there.
    pub fn pick(&self, place: usize) -> Option<Pick>
        ensures { result ≡ slice_get self.now.picks place }
    {
        self.picks.get(place).copied()
    }

    /// The table of the row number at a place of a tuple, if a tuple has one there.
    pub fn part(&self, place: usize) -> Option<&'a Table>
        ensures { IfSome result (λ t. listed t.now ≡ part_at self.now.parts place) }
    {
        if place < self.parts.len() {
            Some(self.parts[place])
        } else {
            None
        }
    }

    /// The points of tuples that stand one after the other, in their order. It fails only if memory runs out.
    pub fn points(&self, alloc: Global, tuples: &[usize]) -> Result<Table, AllocError>
        ensures columns { IfOk result (λ t. t.columns ≡ self.now.columns) }
        ensures rows { IfOk result (λ t. t.rows ≡ points_of self.now tuples.now) }
    {
        let columns = table_columns(alloc, self.made)?;
        gather_beside(alloc, &self.parts, tuples, &self.picks, columns)
    }
}

// The table of the joined set: for each tuple of row numbers, that of the lead and those of the operands, the cells of
// its identifiers, and then those of the measures and the attributes of the operands.
pub(crate) fn gathered(
    alloc: Global,
    lead: &Table,
    operands: &[Operand],
    identifiers: Vec<Pick>,
    tuples: &[usize],
    made: &Structure,
) -> Result<Table, AllocError>
    requires within { All (λ p. p.part < length operands.now + 1) identifiers.items }
    requires identifiers { map (picked_kind (listed lead.now ∷ map table_of (sets_of operands.now))) identifiers.items ≡ component_kinds (identifiers_of made.now) }
    requires well_formed { IsStructure made.now }
    requires measures { component_kinds (measures_of made.now) ≡ kinds_of_all measures_of (structures_of (sets_of operands.now)) }
    requires attributes { component_kinds (attributes_of made.now) ≡ kinds_of_all attributes_of (structures_of (sets_of operands.now)) }
    ensures columns { IfOk result (λ t. t.columns ≡ table_columns made.now) }
    ensures rows { IfOk result (λ t. t.rows ≡ joined_rows (listed lead.now) (sets_of operands.now) identifiers.items tuples.now) }
{
    let gathering = Gathering::of(alloc, lead, operands, identifiers, made)?;
    gathering.points(alloc, tuples)
}
