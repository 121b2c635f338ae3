// The cells of a table, which may have other owners.
//
// All cells of a table stand in pages, and a row is a slice of one of them: no list for each row is followed or freed.
ghost use Rattle.std.specs.Prelude.{◌≡◌, ℕ, ◌+◌, ◌*◌, ◌%◌, ◌^◌, ◌<◌, ◌≤◌, ◌++◌, [], true, length, All, IsPermutation, IfOk, OnOk, OnErr};
ghost use Rattle.std.specs.List.{flat_map, range_with_len};
ghost use Rattle.vtl_pages.specs.Chosen.{AreRising};
ghost use Rattle.vtl_pages.specs.Ordered.{runs_of};
ghost use Rattle.vtl_rows.specs.Flat.{cells_of, flat_rows, is_own, pages_of, room_of, width_of};
ghost use Rattle.vtl_rows.specs.Tables.{cells_at};

use crate::copies::copied;
use std::alloc::{AllocError, Global};
use std::mem;
use std::rc::Rc;
use vtl_cell::Cell;
use vtl_pages::Pages;

// Cells that belong to one table, or to several.
pub(crate) enum Cells {
    Own(Pages<Cell>),
    Shared(Rc<Pages<Cell>, Global>),
}

// Written out, so that a proof sees one call and not the drop of each part.
impl Drop for Cells {
    fn drop(self) {
        match self {
            Cells::Own(_pages) => {}
            Cells::Shared(_pages) => {}
        }
    }
}

impl Cells {
    // The pages of the cells.
    pub(crate) fn pages(&self) -> &Pages<Cell>
        ensures { result.now ≡ pages_of self.now }
    {
        match self {
            Cells::Own(pages) => pages,
            Cells::Shared(pages) => Rc::as_ref(pages),
        }
    }

    // Whether they belong to one table.
    pub(crate) fn is_own(&self) -> bool
        ensures { result ≡ is_own self.now }
    {
        matches!(self, Cells::Own(_))
    }

    // For how many more cells there is room: for none where they are shared.
    pub(crate) fn room(&self) -> usize
        ensures { result ≡ room_of self.now }
    {
        match self {
            Cells::Own(pages) => pages.spare(),
            Cells::Shared(_) => 0,
        }
    }

    // The same cells, for one table where they have no other owner.
    pub(crate) fn let_go(self) -> Cells
        ensures pages { pages_of result ≡ pages_of self }
        ensures room { room_of self ≤ room_of result }
    {
        match self {
            Cells::Own(pages) => Cells::Own(pages),
            Cells::Shared(shared) => match Rc::try_unwrap(shared) {
                Ok(pages) => Cells::Own(pages),
                Err(shared) => Cells::Shared(shared),
            },
        }
    }

    // The same cells for several tables; none is copied.
    pub(crate) fn into_shared(self, alloc: Global) -> Result<Cells, AllocError>
        ensures { IfOk result (λ c. pages_of c ≡ pages_of self) }
    {
        match self {
            Cells::Own(pages) => Ok(Cells::Shared(Rc::new(alloc, pages)?)),
            Cells::Shared(pages) => Ok(Cells::Shared(pages)),
        }
    }

    // One more owner of the cells where they are shared, and else a copy.
    pub(crate) fn share(&self, alloc: Global) -> Result<Cells, AllocError>
        requires wide { 0 < width_of self.now }
        requires whole { length (cells_of self.now) % width_of self.now ≡ 0 }
        ensures cells { IfOk result (λ c. cells_of c ≡ cells_of self.now) }
        ensures width { IfOk result (λ c. width_of c ≡ width_of self.now) }
    {
        match self {
            Cells::Own(pages) => Ok(Cells::Own(copied(alloc, pages)?)),
            Cells::Shared(pages) => Ok(Cells::Shared(pages.clone()?)),
        }
    }

    // Makes them belong to one table: they are copied where they have other owners. On Err they are as they were.
    fn make_own(&mut self, alloc: Global) -> Result<(), AllocError>
        requires wide { 0 < width_of self.old }
        requires whole { length (cells_of self.old) % width_of self.old ≡ 0 }
        ensures cells { cells_of self.new ≡ cells_of self.old }
        ensures width { width_of self.new ≡ width_of self.old }
        ensures room { room_of self.old ≤ room_of self.new }
        ensures own { OnOk result (is_own self.new ≡ true) }
    {
        if let Cells::Own(_) = self {
            return Ok(());
        }
        let shared = mem::replace(self, Cells::Own(Pages::new(alloc, 1)));
        let (cells, done) = shared.owned(alloc);
        *self = cells;
        done
    }

    // The same cells for one table, or as they were where memory ran out.
    fn owned(self, alloc: Global) -> (Cells, Result<(), AllocError>)
        requires wide { 0 < width_of self }
        requires whole { length (cells_of self) % width_of self ≡ 0 }
        ensures cells { cells_of result.0 ≡ cells_of self }
        ensures width { width_of result.0 ≡ width_of self }
        ensures room { room_of self ≤ room_of result.0 }
        ensures own { OnOk result.1 (is_own result.0 ≡ true) }
    {
        match self {
            Cells::Own(pages) => (Cells::Own(pages), Ok(())),
            Cells::Shared(shared) => unshared(alloc, shared),
        }
    }

    // The same cells for one table, which are copied where they have other owners.
    pub(crate) fn into_own(self, alloc: Global) -> Result<Cells, AllocError>
        requires wide { 0 < width_of self }
        requires whole { length (cells_of self) % width_of self ≡ 0 }
        ensures cells { IfOk result (λ c. cells_of c ≡ cells_of self) }
        ensures width { IfOk result (λ c. width_of c ≡ width_of self) }
        ensures room { IfOk result (λ c. room_of self ≤ room_of c) }
        ensures own { IfOk result (λ c. is_own c ≡ true) }
    {
        let mut cells = self;
        cells.make_own(alloc)?;
        Ok(cells)
    }

    // Makes room for this many more, as their only owner.
    pub(crate) fn reserve(&mut self, alloc: Global, count: usize) -> Result<(), AllocError>
        requires wide { 0 < width_of self.old }
        requires whole { length (cells_of self.old) % width_of self.old ≡ 0 }
        ensures cells { cells_of self.new ≡ cells_of self.old }
        ensures width { width_of self.new ≡ width_of self.old }
        ensures room { room_of self.old ≤ room_of self.new }
        ensures ok { OnOk result (count ≤ room_of self.new) }
    {
        self.make_own(alloc)?;
        match self {
            Cells::Own(pages) => pages.reserve(count),
            Cells::Shared(_) => unreachable!(),
        }
    }

    // Moves the cells of a row behind them, where there is room. It takes no memory.
    pub(crate) fn push_run(&mut self, row: &mut Vec<Cell>)
        requires wide { 0 < width_of self.old }
        requires one_row { length row.old.items ≡ width_of self.old }
        requires whole { length (cells_of self.old) % width_of self.old ≡ 0 }
        requires room { width_of self.old ≤ room_of self.old }
        ensures cells { cells_of self.new ≡ cells_of self.old ++ row.old.items }
        ensures width { width_of self.new ≡ width_of self.old }
        ensures room { room_of self.new + width_of self.old ≡ room_of self.old }
        ensures few { length (cells_of self.new) < 2 ^ 63 }
        ensures moved { row.new.items ≡ [] }
    {
        match self {
            Cells::Own(pages) => {
                pages.push_run(row);
                // The pages tell that their items are few.
                pages.len();
            }
            Cells::Shared(_) => unreachable!(),
        }
    }

    // Moves those of another table behind them. On Err they are as they were.
    pub(crate) fn append(&mut self, alloc: Global, others: Cells) -> Result<(), AllocError>
        requires wide { 0 < width_of self.old }
        requires whole { length (cells_of self.old) % width_of self.old ≡ 0 }
        requires others_wide { 0 < width_of others }
        requires others_whole { length (cells_of others) % width_of others ≡ 0 }
        ensures cells { OnOk result (cells_of self.new ≡ cells_of self.old ++ cells_of others) }
        ensures err { OnErr result (cells_of self.new ≡ cells_of self.old) }
        ensures width { width_of self.new ≡ width_of self.old }
        ensures few { OnOk result (length (cells_of self.new) < 2 ^ 63) }
    {
        let mut others = others.into_own(alloc)?;
        self.make_own(alloc)?;
        match (self, &mut others) {
            (Cells::Own(pages), Cells::Own(others)) => append_pages(pages, others),
            _ => unreachable!(),
        }
    }

    // The cells at rising places of every row, which are moved; the others are dropped.
    pub(crate) fn narrowed(self, alloc: Global, places: &[usize]) -> Result<Cells, AllocError>
        requires own { is_own self ≡ true }
        requires some { 0 < length places.now }
        requires rising { AreRising places.now }
        requires within { All (λ i. i < width_of self) places.now }
        requires whole { length (cells_of self) % width_of self ≡ 0 }
        ensures cells { IfOk result (λ c. (n : ℕ) → length (cells_of self) ≡ n * width_of self → cells_of c ≡ flat_map (cells_at places.now) (flat_rows (width_of self) n (cells_of self))) }
        ensures width { IfOk result (λ c. width_of c ≡ length places.now) }
    {
        match self {
            Cells::Own(pages) => Ok(Cells::Own(pages.narrowed(alloc, places)?)),
            Cells::Shared(_) => unreachable!(),
        }
    }

    // Puts the rows in another order: each is then the one whose number stands at its place.
    pub(crate) fn permute(&mut self, places: &mut [usize])
        requires own { is_own self.old ≡ true }
        requires whole { length (cells_of self.old) ≡ length places.old * width_of self.old }
        requires order { IsPermutation (range_with_len 0 (length places.old)) places.old }
        ensures cells { cells_of self.new ≡ runs_of (width_of self.old) (cells_of self.old) places.old }
        ensures width { width_of self.new ≡ width_of self.old }
        ensures room { room_of self.new ≡ room_of self.old }
    {
        match self {
            Cells::Own(pages) => pages.permute(places),
            Cells::Shared(_) => unreachable!(),
        }
    }
}

// Moves all cells of other pages behind those of these. On Err these have the cells that they had.
fn append_pages(pages: &mut Pages<Cell>, others: &mut Pages<Cell>) -> Result<(), AllocError>
    ensures cells { OnOk result (pages.new.items ≡ pages.old.items ++ others.old.items) }
    ensures err { OnErr result (pages.new.items ≡ pages.old.items) }
    ensures width { pages.new.width ≡ pages.old.width }
    ensures few { OnOk result (length pages.new.items < 2 ^ 63) }
{
    pages.append(others)?;
    // The pages tell that their items are few.
    pages.len();
    Ok(())
}

// The cells of an owner for one table, or as they were where memory ran out.
fn unshared(alloc: Global, shared: Rc<Pages<Cell>, Global>) -> (Cells, Result<(), AllocError>)
    requires wide { 0 < shared.value.width }
    requires whole { length shared.value.items % shared.value.width ≡ 0 }
    ensures cells { cells_of result.0 ≡ shared.value.items }
    ensures width { width_of result.0 ≡ shared.value.width }
    ensures own { OnOk result.1 (is_own result.0 ≡ true) }
{
    match Rc::try_unwrap(shared) {
        Ok(pages) => (Cells::Own(pages), Ok(())),
        Err(shared) => match copied(alloc, Rc::as_ref(&shared)) {
            Ok(pages) => (Cells::Own(pages), Ok(())),
            Err(error) => (Cells::Shared(shared), Err(error)),
        },
    }
}
