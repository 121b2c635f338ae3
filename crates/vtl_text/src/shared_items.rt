// A list with several owners.
ghost use Rattle.std.specs.Prelude.{◌≡◌, IfOk};

use std::alloc::AllocError;
use std::marker::Model;
use std::rc::RcSlice;

/// A list with several owners, which contracts see as the list of its items.
pub struct Shared<T> {
    items: RcSlice<T>,
}

// Written out, so that a proof above sees one call and not the drop of each part.
impl<T: Drop> Drop for Shared<T> {
    fn drop(self) {
        let Shared { items: _items } = self;
    }
}

impl<T> Model for Shared<T> {
    ghost use Rattle.std.specs.Prelude.{List};
    ghost use Rattle.std.specs.Rc.{rc_slice_items};

    ghost Value = { List T };

    ghost view = { λ s. rc_slice_items s.items };
}

impl<T: Drop> Shared<T> {
    /// A list of these items, with one owner.
    pub fn of(items: Vec<T>) -> Result<Shared<T>, AllocError>
        ensures { IfOk result (λ s. s ≡ items.items) }
    {
        Ok(Shared {
            items: RcSlice::from_vec(items)?,
        })
    }

    /// One more owner of the same list.
    pub fn share(&self) -> Result<Shared<T>, AllocError>
        ensures { IfOk result (λ s. s ≡ self.now) }
    {
        Ok(Shared {
            items: self.items.clone()?,
        })
    }

    /// The items, in order.
    pub fn as_slice(&self) -> &[T]
        ensures { result.now ≡ self.now }
    {
        self.items.as_slice()
    }
}
