// Parts of clauses, groupings and joins.
ghost use Rattle.vtl_grammar.specs.Faults.{kinds};
ghost use Rattle.vtl_grammar.specs.Reading.{maybe_after, word};
ghost use Rattle.vtl_grammar.specs.Words.{integer_at, string_at};
ghost use Rattle.vtl_lexer.specs.declared.keyword.Keyword.TheVariants as keyword;
ghost use Rattle.vtl_grammar.specs.ReadParts.{alias_part, error_part, group_part, maybe_keeping, maybe_renames, plain_name, reference, references_listed, rename_part, rename_parts, sub_part, sub_parts, two_comps, using_part};
ghost use Rattle.std.specs.Prelude.{◌≡◌};
ghost use Rattle.read_parts.specs.Fronts.{ReadsAs};

use crate::front::{Front, Unread, absent, after_keyword, after_sign, some};
use crate::lists::{Item, comps, listed};
use crate::literals::literal;
use crate::names::{comp, integer, name, string};
use crate::words::word;
use std::alloc::Global;
use vtl_lexer::{Keyword, Sign, Token};
use vtl_syntax::{Comp, ErrorPart, GroupPart, Keeping, Reference, RenamePart, SubPart};
use vtl_text::{List, Txt};

/// `errorcode code errorlevel level`, where each part may be left out.
#[tactic(auto, unfolding(vtl_grammar::specs::ReadParts::error_part))]
pub fn error_part(tokens: &[Token]) -> Result<Front<'_, ErrorPart>, Unread>
    ensures { ReadsAs (error_part (kinds tokens.now)) result }
{
    let code = error_code(tokens)?;
    let level = error_level(code.rest)?;
    Ok(Front {
        part: ErrorPart {
            code: code.part,
            level: level.part,
        },
        rest: level.rest,
    })
}

fn error_code(tokens: &[Token]) -> Result<Front<'_, Option<Txt>>, Unread>
    ensures { ReadsAs (maybe_after keyword.Errorcode (word string_at) (kinds tokens.now)) result }
{
    match after_keyword(tokens, Keyword::Errorcode) {
        Some(after) => Ok(some(string(after)?)),
        None => Ok(absent(tokens)),
    }
}

fn error_level(tokens: &[Token]) -> Result<Front<'_, Option<Txt>>, Unread>
    ensures { ReadsAs (maybe_after keyword.Errorlevel (word integer_at) (kinds tokens.now)) result }
{
    match after_keyword(tokens, Keyword::Errorlevel) {
        Some(after) => Ok(some(integer(after)?)),
        None => Ok(absent(tokens)),
    }
}

/// `group by names` or `group except names`, if it stands there.
#[tactic(auto, unfolding(vtl_grammar::specs::ReadParts::group_part))]
pub fn group_part(alloc: Global, tokens: &[Token]) -> Result<Front<'_, Option<GroupPart>>, Unread>
    ensures { ReadsAs (group_part (kinds tokens.now)) result }
{
    let Some(after) = after_keyword(tokens, Keyword::Group) else {
        return Ok(absent(tokens));
    };
    let kind = word(after).ok_or(Unread::Absent)?;
    let names = comps(alloc, kind.rest)?;
    Ok(Front {
        part: Some(GroupPart {
            kind: kind.part,
            names: names.part,
        }),
        rest: names.rest,
    })
}

// The name that a component name is where it is not quoted.
fn plain_name(component: Comp) -> Option<Txt>
    ensures { result ≡ plain_name component }
{
    match component {
        Comp::Name(name) => Some(name),
        Comp::Quoted(_) => None,
    }
}

/// A component, or a component of a named operand.
#[tactic(auto, unfolding(vtl_grammar::specs::ReadParts::reference))]
pub fn reference(tokens: &[Token]) -> Result<Front<'_, Reference>, Unread>
    ensures { ReadsAs (reference (kinds tokens.now)) result }
{
    let first = comp(tokens)?;
    let Some(after) = after_sign(first.rest, Sign::Hash) else {
        return Ok(Front {
            part: Reference::Component(first.part),
            rest: first.rest,
        });
    };
    let operand = plain_name(first.part).ok_or(Unread::Absent)?;
    let component = comp(after)?;
    Ok(Front {
        part: Reference::Member {
            operand,
            component: component.part,
        },
        rest: component.rest,
    })
}

impl Item for Reference {
    ghost use Rattle.vtl_grammar.specs.ReadParts.{reference};

    ghost reads = { reference };

    fn read(_: Global, tokens: &[Token]) -> Result<Front<'_, Reference>, Unread> {
        reference(tokens)
    }
}

#[tactic(auto, unfolding(vtl_grammar::specs::ReadParts::references_listed))]
fn references(alloc: Global, tokens: &[Token]) -> Result<Front<'_, List<Reference>>, Unread>
    ensures { ReadsAs (references_listed (kinds tokens.now)) result }
{
    listed(alloc, tokens)
}

/// `keep references` or `drop references`, if one stands there.
#[tactic(auto, unfolding(vtl_grammar::specs::ReadParts::maybe_keeping))]
pub fn maybe_keeping(alloc: Global, tokens: &[Token]) -> Result<Front<'_, Option<Keeping>>, Unread>
    ensures { ReadsAs (maybe_keeping (kinds tokens.now)) result }
{
    if let Some(after) = after_keyword(tokens, Keyword::Keep) {
        let Front { part, rest } = references(alloc, after)?;
        return Ok(Front {
            part: Some(Keeping::Keep(part)),
            rest,
        });
    }
    if let Some(after) = after_keyword(tokens, Keyword::Drop) {
        let Front { part, rest } = references(alloc, after)?;
        return Ok(Front {
            part: Some(Keeping::Drop(part)),
            rest,
        });
    }
    Ok(absent(tokens))
}

// `from to name`
#[tactic(auto, unfolding(vtl_grammar::specs::ReadParts::rename_part))]
fn rename_part(tokens: &[Token]) -> Result<Front<'_, RenamePart>, Unread>
    ensures { ReadsAs (rename_part (kinds tokens.now)) result }
{
    let from = reference(tokens)?;
    let after = after_keyword(from.rest, Keyword::To).ok_or(Unread::Absent)?;
    let to = comp(after)?;
    Ok(Front {
        part: RenamePart {
            from: from.part,
            to: to.part,
        },
        rest: to.rest,
    })
}

impl Item for RenamePart {
    ghost use Rattle.vtl_grammar.specs.ReadParts.{rename_part};

    ghost reads = { rename_part };

    fn read(_: Global, tokens: &[Token]) -> Result<Front<'_, RenamePart>, Unread> {
        rename_part(tokens)
    }
}

#[tactic(auto, unfolding(vtl_grammar::specs::ReadParts::rename_parts))]
fn rename_parts(alloc: Global, tokens: &[Token]) -> Result<Front<'_, List<RenamePart>>, Unread>
    ensures { ReadsAs (rename_parts (kinds tokens.now)) result }
{
    listed(alloc, tokens)
}

/// `rename renames`, if it stands there.
#[tactic(auto, unfolding(vtl_grammar::specs::ReadParts::maybe_renames))]
pub fn maybe_renames(
    alloc: Global,
    tokens: &[Token],
) -> Result<Front<'_, Option<List<RenamePart>>>, Unread>
    ensures { ReadsAs (maybe_renames (kinds tokens.now)) result }
{
    match after_keyword(tokens, Keyword::Rename) {
        Some(after) => Ok(some(rename_parts(alloc, after)?)),
        None => Ok(absent(tokens)),
    }
}

// `component = value`
#[tactic(auto, unfolding(vtl_grammar::specs::ReadParts::sub_part))]
fn sub_part(tokens: &[Token]) -> Result<Front<'_, SubPart>, Unread>
    ensures { ReadsAs (sub_part (kinds tokens.now)) result }
{
    let component = comp(tokens)?;
    let after = after_sign(component.rest, Sign::Equal).ok_or(Unread::Absent)?;
    let value = literal(after)?;
    Ok(Front {
        part: SubPart {
            component: component.part,
            value: value.part,
        },
        rest: value.rest,
    })
}

impl Item for SubPart {
    ghost use Rattle.vtl_grammar.specs.ReadParts.{sub_part};

    ghost reads = { sub_part };

    fn read(_: Global, tokens: &[Token]) -> Result<Front<'_, SubPart>, Unread> {
        sub_part(tokens)
    }
}

/// What follows `sub`.
#[tactic(auto, unfolding(vtl_grammar::specs::ReadParts::sub_parts))]
pub fn sub_parts(alloc: Global, tokens: &[Token]) -> Result<Front<'_, List<SubPart>>, Unread>
    ensures { ReadsAs (sub_parts (kinds tokens.now)) result }
{
    listed(alloc, tokens)
}

/// Two names of components, with a comma between them.
#[tactic(auto, unfolding(vtl_grammar::specs::ReadParts::two_comps))]
pub fn two_comps(tokens: &[Token]) -> Result<Front<'_, (Comp, Comp)>, Unread>
    ensures { ReadsAs (two_comps (kinds tokens.now)) result }
{
    let first = comp(tokens)?;
    let after = after_sign(first.rest, Sign::Comma).ok_or(Unread::Absent)?;
    let second = comp(after)?;
    Ok(Front {
        part: (first.part, second.part),
        rest: second.rest,
    })
}

/// `using names`, if it stands there.
#[tactic(auto, unfolding(vtl_grammar::specs::ReadParts::using_part))]
pub fn using_part(alloc: Global, tokens: &[Token]) -> Result<Front<'_, Option<List<Comp>>>, Unread>
    ensures { ReadsAs (using_part (kinds tokens.now)) result }
{
    match after_keyword(tokens, Keyword::Using) {
        Some(after) => Ok(some(comps(alloc, after)?)),
        None => Ok(absent(tokens)),
    }
}

/// `as name`, if it stands there.
#[tactic(auto, unfolding(vtl_grammar::specs::ReadParts::alias_part))]
pub fn alias_part(tokens: &[Token]) -> Result<Front<'_, Option<Txt>>, Unread>
    ensures { ReadsAs (alias_part (kinds tokens.now)) result }
{
    match after_keyword(tokens, Keyword::As) {
        Some(after) => Ok(some(name(after)?)),
        None => Ok(absent(tokens)),
    }
}
