// Texts of which no two are the same.
ghost use Rattle.std.specs.Prelude.{◌≡◌, IfOk};
ghost use Rattle.vtl_lists.specs.Apart.{all_apart};
ghost use Rattle.vtl_text.specs.Texts.{same_text};

use crate::Txt;
use crate::by_name::ByName;
use std::alloc::{AllocError, Global};

/// Whether no two texts are the same. It fails only if memory runs out.
pub fn are_distinct(alloc: Global, texts: &[Txt]) -> Result<bool, AllocError>
    ensures { IfOk result (λ b. b ≡ all_apart same_text texts.now) }
{
    let mut seen = ByName::new(alloc);
    for text in texts {
        if seen.has(text) {
            return Ok(false);
        }
        seen.put(text.share()?, ())?;
    }
    Ok(true)
}
