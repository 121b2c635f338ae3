// Lists of numbers, one behind the other.
//
// Series may be as many as points: so they share two blocks of memory, and none has one of its own.
ghost use Rattle.std.specs.Prelude.{◌≡◌, [], IfOk};
ghost use Rattle.vtl_times.specs.Lists.{IsWhole, lists_of};

use std::alloc::{AllocError, Global};

/// Lists of numbers.
pub(crate) struct Lists {
    /// The numbers of all lists.
    pub(crate) numbers: Vec<usize>,
    /// How many of them each list has.
    pub(crate) counts: Vec<usize>,
}

// Written out, so that an owner sees one call.
impl Drop for Lists {
    fn drop(self) {
        let Lists {
            numbers: _numbers,
            counts: _counts,
        } = self;
    }
}

/// No lists, and room for so many numbers. It fails only if memory runs out.
pub(crate) fn no_lists(alloc: Global, room: usize) -> Result<Lists, AllocError>
    ensures whole { IfOk result IsWhole }
    ensures none { IfOk result (λ l. lists_of l ≡ []) }
{
    let numbers = Vec::with_capacity(alloc, room)?;
    Ok(Lists {
        numbers,
        counts: Vec::new(alloc),
    })
}
