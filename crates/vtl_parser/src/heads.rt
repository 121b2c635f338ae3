// Names of rules, and the words around the rules of a ruleset.
ghost use Rattle.std.specs.Prelude.{◌≡◌, Some, option_map};
ghost use Rattle.vtl_grammar.specs.Faults.{kinds};
ghost use Rattle.vtl_grammar.specs.ReadStatements.{rule_name, ruleset_end, ruleset_head, ruleset_is};
ghost use Rattle.read_parts.specs.Fronts.{ReadsAs};

use read_parts::{Front, Unread, after_keyword, after_sign, name};
use vtl_lexer::{Keyword, Sign, Token};
use vtl_text::Txt;

/// `name :`, if it stands there. It fails only if memory runs out.
#[tactic(auto, unfolding(vtl_grammar::specs::ReadStatements::rule_name))]
pub fn rule_name(tokens: &[Token]) -> Result<Front<'_, Option<Txt>>, Unread>
    ensures { ReadsAs (Some (rule_name (kinds tokens.now))) result }
{
    let unnamed = Front {
        part: None,
        rest: tokens,
    };
    match name(tokens) {
        Ok(named) => match after_sign(named.rest, Sign::Colon) {
            Some(rest) => Ok(Front {
                part: Some(named.part),
                rest,
            }),
            None => Ok(unnamed),
        },
        Err(Unread::Absent) => Ok(unnamed),
        Err(Unread::OutOfMemory) => Err(Unread::OutOfMemory),
    }
}

/// `ruleset name ( variable`
#[tactic(auto, unfolding(vtl_grammar::specs::ReadStatements::ruleset_head))]
pub fn ruleset_head(tokens: &[Token]) -> Result<Front<'_, Txt>, Unread>
    ensures { ReadsAs (ruleset_head (kinds tokens.now)) result }
{
    let after = after_keyword(tokens, Keyword::Ruleset).ok_or(Unread::Absent)?;
    let named = name(after)?;
    let after = after_sign(named.rest, Sign::OpenBracket).ok_or(Unread::Absent)?;
    let rest = after_keyword(after, Keyword::Variable).ok_or(Unread::Absent)?;
    Ok(Front {
        part: named.part,
        rest,
    })
}

/// The tokens after `) is`, where they stand first.
#[tactic(auto, unfolding(vtl_grammar::specs::ReadStatements::ruleset_is))]
pub fn ruleset_is(tokens: &[Token]) -> Option<&[Token]>
    ensures { option_map (λ rest. kinds rest.now) result ≡ ruleset_is (kinds tokens.now) }
{
    let after = after_sign(tokens, Sign::CloseBracket)?;
    after_keyword(after, Keyword::Is)
}

/// The tokens after `end kind ruleset ;`, where they stand first.
#[tactic(auto, unfolding(vtl_grammar::specs::ReadStatements::ruleset_end))]
pub fn ruleset_end(tokens: &[Token], kind: Keyword) -> Option<&[Token]>
    ensures { option_map (λ rest. kinds rest.now) result ≡ ruleset_end kind (kinds tokens.now) }
{
    let after = after_keyword(tokens, Keyword::End)?;
    let after = after_keyword(after, kind)?;
    let after = after_keyword(after, Keyword::Ruleset)?;
    after_sign(after, Sign::Semicolon)
}
