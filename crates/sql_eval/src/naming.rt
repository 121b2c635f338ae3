// An item by name, in place of another.
ghost use Rattle.std.specs.Map.{lookup};
ghost use Rattle.std.specs.Prelude.{◌≡◌, ℕ, List, OnOk, Some, if◌then◌else◌};
ghost use Rattle.vtl_text.specs.Texts.{same_text};

use std::alloc::AllocError;
use vtl_text::{ByName, Txt};

/// Puts an item in place of the one of a name, or behind the others where none has it. It fails only if memory runs out.
pub fn set_named<T: Drop>(named: &mut ByName<T>, name: &Txt, item: T) -> Result<(), AllocError>
    ensures { OnOk result ((other : List ℕ) → lookup (same_text other) named.new ≡ (if same_text name.now other then Some item else lookup (same_text other) named.old)) }
{
    if named.has(name) {
        let _before = named.replace(name, item);
        return Ok(());
    }
    named.put(name.share()?, item)
}
