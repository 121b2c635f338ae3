// What is copied whole, and lists and choices of such things.
ghost use Rattle.std.specs.Prelude.{◌≡◌, IfOk};

use std::alloc::{AllocError, Global};
use vtl_text::{List, Txt};

// A part that holds no expression. Contracts see its copy as the same value.
pub(crate) trait Part: Drop {
    ghost use Rattle.std.specs.Prelude.{◌≡◌, IfOk};

    fn copy(&self, alloc: Global) -> Result<Self, AllocError>
        ensures { IfOk result (λ copy. copy ≡ self.now) };
}

impl Part for Txt {
    fn copy(&self, _alloc: Global) -> Result<Txt, AllocError> {
        self.share()
    }
}

impl<T: Part> Part for List<T> {
    fn copy(&self, alloc: Global) -> Result<List<T>, AllocError> {
        let mut items = Vec::new(alloc);
        for item in self.as_slice() {
            items.push(item.copy(alloc)?)?;
        }
        Ok(List::of(items))
    }
}

impl<T: Part> Part for Option<T> {
    fn copy(&self, alloc: Global) -> Result<Option<T>, AllocError> {
        match self {
            Some(part) => Ok(Some(part.copy(alloc)?)),
            None => Ok(None),
        }
    }
}
