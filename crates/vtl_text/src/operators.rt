// The operators on texts that search for no pattern.
ghost use Rattle.std.specs.Prelude.{◌≡◌, ◌≤◌, ◌++◌, IfOk, chars, encode_utf8_all, length, take, drop};
ghost use Rattle.vtl_text.specs.Texts.{ltrim_of, rtrim_of, trim_of, substr_of};

use crate::shared_text::Txt;
use std::alloc::{AllocError, Global};

/// The text without the spaces at its start. Only the character 20 hex is a space.
pub fn ltrim(t: &str) -> &str
    ensures { chars result.now ≡ ltrim_of (chars t.now) }
{
    t.trim_start_matches(' ')
}

/// The text without the spaces at its end. Only the character 20 hex is a space.
pub fn rtrim(t: &str) -> &str
    ensures { chars result.now ≡ rtrim_of (chars t.now) }
{
    t.trim_end_matches(' ')
}

/// The text without the spaces at both ends. Only the character 20 hex is a space.
pub fn trim(t: &str) -> &str
    ensures { chars result.now ≡ trim_of (chars t.now) }
{
    ltrim(rtrim(t))
}

/// The characters from the `start`-th on, counted from 1: all of them, or at most `length`. What lies past the end is
/// missing.
pub fn substr(t: &str, start: usize, length: Option<usize>) -> &str
    requires { 1 ≤ start }
    ensures { chars result.now ≡ substr_of (chars t.now) start length }
{
    let (_, rest) = split_at_character(t, start - 1);
    match length {
        None => rest,
        Some(n) => {
            let (part, _) = split_at_character(rest, n);
            part
        }
    }
}

// The first `n` characters, and what follows them.
fn split_at_character(t: &str, n: usize) -> (&str, &str)
    ensures front { chars result.0.now ≡ take n (chars t.now) }
    ensures back { chars result.1.now ≡ drop n (chars t.now) }
{
    let rest = after_characters(t, n);
    t.split_at(t.len() - rest.len())
}

// What follows the first `n` characters.
fn after_characters(t: &str, n: usize) -> &str
    ensures { result.now ≡ encode_utf8_all (drop n (chars t.now)) }
{
    let mut rest = t.chars();
    for _ in 0..n {
        if rest.next().is_none() {
            return "";
        }
    }
    rest.as_str()
}

/// The number of characters.
pub fn length(t: &str) -> usize
    ensures { result ≡ length (chars t.now) }
{
    t.chars().count()
}

/// The characters of `a` and then those of `b`. It fails only if memory runs out.
pub fn concat(alloc: Global, a: &str, b: &str) -> Result<Txt, AllocError>
    ensures { IfOk result (λ t. t ≡ chars a.now ++ chars b.now) }
{
    let mut text = String::with_capacity(alloc, a.len() + b.len())?;
    text.push_str(a)?;
    text.push_str(b)?;
    Txt::from_string(text)
}
