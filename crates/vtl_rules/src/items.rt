// The items of an operand at the combinations of its other identifiers.
//
// One look-up over the points by the other identifiers and the item serves all rules and combinations: each asks once
// for each of its items.
ghost use Rattle.std.specs.List.{range_with_len};
ghost use Rattle.std.specs.Option.{option_copied, option_map_or};
ghost use Rattle.std.specs.Prelude.{◌≡◌, ◌<◌, ◌++◌, ◌∷◌, [], None, Some, cond, length, map, slice_index_or, IfOk, OnOk};
ghost use Rattle.vtl_cell.specs.Kinds.{is_null};
ghost use Rattle.vtl_index.specs.Groups.{AreLeads, firsts};
ghost use Rattle.vtl_rows.specs.Places.{row_at};
ghost use Rattle.vtl_rows.specs.Tables.{cells_at};
ghost use Rattle.vtl_tree.specs.Columns.{places_in};
ghost use Rattle.vtl_tree.specs.RuleItems.{right_items};
ghost use Rattle.vtl_tree.specs.Shown.{shown};
ghost use Rattle.vtl_meaning.specs.Turned.{other_identifiers};
ghost use Rattle.vtl_rules.specs.Itemized.{combination_at, given_at, item_key, itemized_by, source_of, taken_at};

use crate::sides::item_name;
use std::alloc::{AllocError, Global};
use std::marker::Model;
use std::slice;
use std::sync::ledger::Ledger;
use vtl_cell::{Cell, clone_cell};
use vtl_expr::{Points, cell_at, places_in, push_cells};
use vtl_index::{Groups, Seeker, Steps};
use vtl_rows::Table;
use vtl_sets::DataSet;
use vtl_syntax::{HierInput, HierRule};
use vtl_text::{ByName, List, Txt};
use vtl_tree::{Choice, Component, Structure, is_chosen, place_of};

// What is asked at a combination: its number, its values with the item behind them, what was found of items, and how
// many steps that took. The lists are used for one combination after the other.
pub(crate) struct Asking<L: Ledger> {
    pub(crate) number: usize,
    pub(crate) key: Vec<Cell>,
    pub(crate) found: Vec<Option<Cell>>,
    pub(crate) steps: Steps<L>,
}

// Written out, so that an owner sees one call.
impl<L: Ledger> Drop for Asking<L> {
    fn drop(self) {
        let Asking {
            number: _,
            key: _key,
            found: _found,
            steps: _steps,
        } = self;
    }
}

impl<L: Ledger> Asking<L> {
    // Nothing yet.
    pub(crate) fn new(alloc: Global, steps: Steps<L>) -> Asking<L> {
        Asking {
            number: 0,
            key: Vec::new(alloc),
            found: Vec::new(alloc),
            steps,
        }
    }
}

// Where a rule takes an item from: the operand's points, or what was computed, a value at each combination, where there
// is one.
pub(crate) struct Source<'a> {
    item: &'a Txt,
    input: HierInput,
    column: Option<&'a List<Option<Cell>>>,
}

// Written out, so that an owner sees one call.
impl<'a> Drop for Source<'a> {
    fn drop(self) {
        let Source {
            item: _,
            input: _,
            column: _,
        } = self;
    }
}

impl<'a> Model for Source<'a> {
    ghost use Rattle.std.specs.Option.{option_copied};
    ghost use Rattle.vtl_rules.specs.Itemized.{Sourced};

    ghost Value = { Sourced };

    ghost view = { λ s. record { item = s.item.now; input = s.input; column = option_copied s.column } };
}

impl<'a> Source<'a> {
    // That of an item.
    pub(crate) fn of(
        item: &'a Txt,
        input: HierInput,
        made: &'a ByName<List<Option<Cell>>>,
    ) -> Source<'a>
        ensures { result ≡ source_of input made.now item.now }
    {
        Source {
            item,
            input,
            column: made.get(item),
        }
    }
}

// Those of the items on the right of a rule.
pub(crate) fn right_sources<'a>(
    alloc: Global,
    rule: &'a HierRule,
    input: HierInput,
    made: &'a ByName<List<Option<Cell>>>,
) -> Result<Vec<Source<'a>>, AllocError>
    ensures { IfOk result (λ v. v.items ≡ map (source_of input made.now) (right_items rule.now)) }
{
    let mut sources = Vec::new(alloc);
    sources.push(Source::of(item_name(&rule.first), input, made))?;
    for other in rule.others.as_slice() {
        sources.push(Source::of(item_name(&other.item), input, made))?;
    }
    Ok(sources)
}

// The value that was computed at the combination of a number, where there is one.
pub(crate) fn made_at(column: &List<Option<Cell>>, number: usize) -> Option<&Cell>
    ensures { option_copied result ≡ slice_index_or column.now number None }
{
    match column.as_slice().get(number) {
        Some(Some(cell)) => Some(cell),
        _ => None,
    }
}

// A copy of a value, where there is one.
fn copied(value: Option<&Cell>) -> Result<Option<Cell>, AllocError>
    ensures { IfOk result (λ copy. copy ≡ option_copied value.entry) }
{
    match value {
        Some(cell) => Ok(Some(clone_cell(cell)?)),
        None => Ok(None),
    }
}

// The points of an operand by combinations and items: the look-up, the places of the other identifiers and of the
// measure in a point, those of its identifiers in a key, and the first row of each combination.
pub(crate) struct ItemPoints<'a> {
    table: &'a Table,
    seeker: Seeker<'a>,
    others: Vec<usize>,
    measure: usize,
    places: Vec<usize>,
    leading: Vec<usize>,
}

// Written out, so that an owner sees one call.
impl<'a> Drop for ItemPoints<'a> {
    fn drop(self) {
        let ItemPoints {
            table: _table,
            seeker: _seeker,
            others: _others,
            measure: _,
            places: _places,
            leading: _leading,
        } = self;
    }
}

impl<'a> Model for ItemPoints<'a> {
    ghost use Rattle.std.specs.Prelude.{◌≡◌};
    ghost use Rattle.vtl_rules.specs.Itemized.{Itemized};

    ghost Value = { Itemized };

    ghost view = { λ x. record { sought = x.seeker; others = x.others.items; measure = x.measure; places = x.places.items; leading = x.leading.items } };

    ghost invariant = { λ x. x.table.now.rows ≡ x.seeker.rows };
}

// The identifiers but one.
fn other_identifiers<'a>(
    alloc: Global,
    structure: &'a Structure,
    id: &Txt,
) -> Result<Vec<&'a Component>, AllocError>
    ensures { IfOk result (λ v. shown v.items ≡ other_identifiers id.now structure.now) }
{
    let mut others = Vec::new(alloc);
    for component in structure.components.as_slice() {
        if is_chosen(Choice::Except, slice::from_ref(id), component) {
            others.push(component)?;
        }
    }
    Ok(others)
}

// The numbers below a bound, rising.
pub(crate) fn numbers(alloc: Global, count: usize) -> Result<Vec<usize>, AllocError>
    ensures { IfOk result (λ v. v.items ≡ range_with_len 0 count) }
{
    let mut numbers = Vec::with_capacity(alloc, count)?;
    for i in 0..count {
        numbers.push(i)?;
    }
    Ok(numbers)
}

// The number of the first row of each group.
pub(crate) fn first_rows(alloc: Global, groups: &Groups) -> Result<Vec<usize>, AllocError>
    requires { AreLeads groups.now }
    ensures { IfOk result (λ v. v.items ≡ firsts groups.now) }
{
    let mut first_rows = Vec::with_capacity(alloc, groups.len())?;
    for group in 0..groups.len() {
        first_rows.push(groups.rows(group)[0])?;
    }
    Ok(first_rows)
}

// Places, and one more behind them.
fn with_last(alloc: Global, places: &[usize], last: usize) -> Result<Vec<usize>, AllocError>
    ensures { IfOk result (λ v. v.items ≡ places.now ++ last ∷ []) }
{
    let mut all = Vec::from_slice(alloc, places)?;
    all.push(last)?;
    Ok(all)
}

// The places of columns, by their names, among others.
fn places_among(
    alloc: Global,
    columns: &[&Component],
    wanted: &[&Component],
) -> Result<Vec<usize>, AllocError>
    ensures { IfOk result (λ v. v.items ≡ places_in (shown columns.now) (shown wanted.now)) }
{
    let mut places = Vec::with_capacity(alloc, wanted.len())?;
    for column in wanted {
        places.push(place_of(columns, &column.name))?;
    }
    Ok(places)
}

// The row of a number, or no cells past the last one.
fn row_or_none(table: &Table, row: usize) -> &[Cell]
    ensures { result.now ≡ row_at table.now.rows row }
{
    if row < table.len() {
        table.row(row)
    } else {
        &[]
    }
}

impl<'a> ItemPoints<'a> {
    // Those of an operand, whose items are the values of an identifier.
    pub(crate) fn of<L: Ledger>(
        alloc: Global,
        a: &'a DataSet,
        id: &Txt,
        steps: &mut Steps<L>,
    ) -> Result<ItemPoints<'a>, AllocError>
        ensures { IfOk result (λ x. x ≡ itemized_by id.now a.now) }
    {
        let structure = a.structure();
        let table = a.table();
        let other = other_identifiers(alloc, structure, id)?;
        let others = places_in(alloc, structure, &other)?;
        let own = with_last(alloc, &others, place_of(&structure.columns(alloc)?, id))?;
        let asked = numbers(alloc, own.len())?;
        let leading = first_rows(alloc, &Groups::by(alloc, table, &others)?)?;
        Ok(ItemPoints {
            table,
            seeker: Seeker::of(alloc, table, &own, &asked, steps)?,
            others,
            measure: structure.key_width(),
            places: places_among(alloc, &other, &structure.identifiers(alloc)?)?,
            leading,
        })
    }

    // How many combinations there are.
    pub(crate) fn len(&self) -> usize
        ensures { result ≡ length self.now.leading }
    {
        self.leading.len()
    }

    // Goes to the combination of a number.
    pub(crate) fn begin<L: Ledger>(
        &self,
        at: &mut Asking<L>,
        number: usize,
    ) -> Result<(), AllocError>
        requires { number < length self.now.leading }
        ensures number { at.new.number ≡ number }
        ensures key { OnOk result (at.new.key.items ≡ combination_at self.now number) }
    {
        at.number = number;
        at.key.clear();
        push_cells(
            &mut at.key,
            row_or_none(self.table, self.leading[number]),
            &self.others,
        )
    }

    // What the operand has of an item.
    fn given<L: Ledger>(&self, at: &mut Asking<L>, item: &Txt) -> Result<Option<Cell>, AllocError>
        ensures value { IfOk result (λ v. v ≡ given_at self.now at.old.key.items item.now) }
        ensures key { OnOk result (at.new.key.items ≡ at.old.key.items) }
        ensures number { at.new.number ≡ at.old.number }
        ensures found { at.new.found.items ≡ at.old.found.items }
    {
        let width = at.key.len();
        at.key.push(Cell::Text(item.share()?))?;
        let row = self.seeker.first(&at.key, &mut at.steps);
        at.key.truncate(width);
        if row >= self.table.len() {
            return Ok(None);
        }
        Ok(Some(cell_at(self.table.row(row), self.measure).into_cell()?))
    }

    // The computed value, where there is one that is not null, and otherwise what the operand has of an item.
    fn made_or_given<L: Ledger>(
        &self,
        at: &mut Asking<L>,
        item: &Txt,
        made: Option<&Cell>,
    ) -> Result<Option<Cell>, AllocError>
        ensures value { IfOk result (λ v. v ≡ option_map_or (λ u. cond (is_null u) (given_at self.now at.old.key.items item.now) (Some u)) (option_copied made.entry) (given_at self.now at.old.key.items item.now)) }
        ensures key { OnOk result (at.new.key.items ≡ at.old.key.items) }
        ensures number { at.new.number ≡ at.old.number }
        ensures found { at.new.found.items ≡ at.old.found.items }
    {
        match made {
            Some(Cell::Null) | None => self.given(at, item),
            Some(cell) => Ok(Some(clone_cell(cell)?)),
        }
    }

    // What a rule takes from a source.
    pub(crate) fn taken<L: Ledger>(
        &self,
        at: &mut Asking<L>,
        source: &Source<'_>,
    ) -> Result<Option<Cell>, AllocError>
        ensures value { IfOk result (λ v. v ≡ taken_at self.now at.old.number at.old.key.items source.now) }
        ensures key { OnOk result (at.new.key.items ≡ at.old.key.items) }
        ensures number { at.new.number ≡ at.old.number }
        ensures found { at.new.found.items ≡ at.old.found.items }
    {
        let Some(column) = source.column else {
            return self.given(at, source.item);
        };
        match source.input {
            HierInput::Dataset => self.given(at, source.item),
            HierInput::Rule => copied(made_at(column, at.number)),
            HierInput::RulePriority => {
                self.made_or_given(at, source.item, made_at(column, at.number))
            }
        }
    }

    // Finds what a rule takes from sources.
    pub(crate) fn find<L: Ledger>(
        &self,
        at: &mut Asking<L>,
        sources: &[Source<'_>],
    ) -> Result<(), AllocError>
        ensures found { OnOk result (at.new.found.items ≡ map (taken_at self.now at.old.number at.old.key.items) sources.now) }
        ensures key { OnOk result (at.new.key.items ≡ at.old.key.items) }
        ensures number { OnOk result (at.new.number ≡ at.old.number) }
    {
        at.found.clear();
        for source in sources {
            let value = self.taken(at, source)?;
            at.found.push(value)?;
        }
        Ok(())
    }

    // Begins the point of an item, with its identifiers.
    pub(crate) fn begin_point<L: Ledger>(
        &self,
        points: &mut Points,
        at: &mut Asking<L>,
        item: &Txt,
    ) -> Result<(), AllocError>
        ensures cells { OnOk result (points.new.cells.items ≡ cells_at self.now.places (item_key at.old.key.items item.now)) }
        ensures table { points.new.table ≡ points.old.table }
        ensures seen { points.new.seen ≡ points.old.seen }
        ensures number { at.new.number ≡ at.old.number }
    {
        at.key.push(Cell::Text(item.share()?))?;
        points.begin(&at.key, &self.places)
    }
}
