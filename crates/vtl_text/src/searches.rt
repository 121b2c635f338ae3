// The operators on texts that search for a pattern. The searches go by the bytes: in UTF-8 a pattern's bytes occur only
// where its characters do.
ghost use Rattle.std.specs.Prelude.{◌≡◌, ◌↔◌, ℕ, false, IfOk, chars, drop};
ghost use Rattle.vtl_text.specs.Texts.{begins, instr_of, replace_of};

use crate::operators::length;
use crate::shared_text::Txt;
use memchr::memmem;
use std::alloc::{AllocError, Global};

/// The place of the first occurrence of `pattern`, in characters from 1, or 0 where there is none. An empty pattern
/// occurs at 1.
pub fn instr(t: &str, pattern: &str) -> usize
    ensures value { result ≡ instr_of (chars t.now) (chars pattern.now) }
    ensures absent { (result ≡ 0)
        ↔ ((n : ℕ) → begins (chars pattern.now) (drop n (chars t.now)) ≡ false) }
{
    if pattern.is_empty() {
        return 1;
    }
    match memmem::find(t.as_bytes(), pattern.as_bytes()) {
        Some(at) => length(&t[..at]) + 1,
        None => 0,
    }
}

/// The text with `by` for each occurrence of `pattern`, from the left and without overlap.
/// An empty pattern leaves it as it is. It fails only if memory runs out.
pub fn replace(alloc: Global, t: &str, pattern: &str, by: &str) -> Result<Txt, AllocError>
    ensures { IfOk result (λ r. r ≡ replace_of (chars t.now) (chars pattern.now) (chars by.now)) }
{
    if pattern.is_empty() {
        return Txt::new(alloc, t);
    }
    let finder = memmem::Finder::new(pattern.as_bytes());
    let mut out = String::with_capacity(alloc, t.len())?;
    let mut rest = t;
    while let Some(at) = finder.find(rest.as_bytes()) {
        out.push_str(&rest[..at])?;
        out.push_str(by)?;
        rest = &rest[at + pattern.len()..];
    }
    out.push_str(rest)?;
    Txt::from_string(out)
}
