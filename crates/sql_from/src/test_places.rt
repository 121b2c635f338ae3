// Where the look-up for an EXISTS stands among others.
//
// EXISTS of one table with the same equalities share a look-up, and each is found by an order of what they ask: so many
// of them take no time with the square of their number. Sources and aliases are places by then, so two that are written
// alike over different sources ask different things. What is found is compared once more where it is asked (`is_for`).
ghost use Rattle.std.specs.Prelude.{◌≡◌, IfOk};

use sql_eval::{Existence, Tie};
use std::alloc::{AllocError, Global};
use std::collections::BTreeMap;

/// The place of the look-up for each EXISTS.
pub(crate) struct TestPlaces {
    places: BTreeMap<Existence, usize>,
}

// Written out, so that a proof above sees one call and not the drop of each part.
impl Drop for TestPlaces {
    fn drop(self) {
        let TestPlaces { places: _places } = self;
    }
}

impl TestPlaces {
    /// No places.
    pub(crate) fn new(alloc: Global) -> TestPlaces {
        TestPlaces {
            places: BTreeMap::new(alloc),
        }
    }

    /// The place for an EXISTS, if there is one.
    pub(crate) fn place(&self, test: &Existence) -> Option<usize> {
        self.places.get(test).copied()
    }

    /// Notes a place for an EXISTS. It fails only if memory runs out.
    pub(crate) fn put(
        &mut self,
        alloc: Global,
        test: &Existence,
        place: usize,
    ) -> Result<(), AllocError> {
        let copy = Existence {
            table: test.table.copy(alloc)?,
            ties: copied(alloc, &test.ties)?,
        };
        self.places.insert(copy, place)?;
        Ok(())
    }
}

/// A copy of equalities. It fails only if memory runs out.
pub(crate) fn copied(alloc: Global, ties: &[Tie]) -> Result<Vec<Tie>, AllocError>
    ensures { IfOk result (λ v. v.items ≡ ties.now) }
{
    let mut copies = Vec::new(alloc);
    copies.extend_from_slice(ties)?;
    Ok(copies)
}
