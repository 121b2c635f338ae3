// The tokens of expressions.
ghost use Rattle.std.specs.Prelude.{◌≡◌, ◌++◌, ◌∷◌, [], false, map, nat_le, OnOk};
ghost use Rattle.sql_lexer.specs.declared.token.TokenKind.TheVariants as t;
ghost use Rattle.sql_lexer.specs.declared.token.Word.TheVariants as w;
ghost use Rattle.sql_tree.specs.Grammar.{digit_one};
ghost use Rattle.sql_tree.specs.Printing.{bracketed, level_of, more_exps, wrapped, written, written_branches, written_exps};
ghost use Rattle.sql_print.specs.Tails.{membership, null_test};
ghost use Rattle.sql_print.specs.Onto.{branches_onto, exps_onto, onto, part_onto, parted, put};
ghost use Rattle.sql_tree.specs.Trees.{branches_of, count_all, exists, exps_of};
ghost use Rattle.sql_tree.specs.View.{branch_tree, expr_tree};

use crate::parts::{constant, equalities, int, maybe_not, source};
use crate::word_groups::{aggregate_word, left_level, op_level, op_word, right_level, unary_level};
use crate::writing::{Printed, Written, parted, word};
use sql_lexer::{TokenKind, Word};
use sql_tree::{Branch, Equality, Literal, Source, SqlExpr};
use vtl_text::Txt;

#[tactic(auto, using(crate::proofs::Views::views))]
fn level_of(e: &SqlExpr) -> u8
    ensures { result ≡ level_of (expr_tree e.now) }
{
    match e {
        SqlExpr::Binary { op, .. } => op_level(*op),
        SqlExpr::Unary { op, .. } => unary_level(*op),
        SqlExpr::IsNull { .. } | SqlExpr::InList { .. } => 4,
        _ => 0,
    }
}

// The tokens of the expression, with brackets only where they must stand.
#[cycle(printing)]
#[tactic(auto, using(crate::proofs::Views::views))]
fn put(out: &mut Vec<TokenKind>, e: &SqlExpr) -> Printed
    ensures { OnOk result (out.new.items ≡ onto (expr_tree e.now) out.old.items) }
{
    match e {
        SqlExpr::Binary { left, op, right } => {
            within(out, left, left_level(*op))?;
            word(out, op_word(*op))?;
            within(out, right, right_level(*op))
        }
        SqlExpr::Unary { op, operand } => {
            word(out, op_word(*op))?;
            within(out, operand, unary_level(*op))
        }
        SqlExpr::IsNull { operand, negated } => {
            within(out, operand, 3)?;
            null_test(out, *negated)
        }
        SqlExpr::InList {
            operand,
            negated,
            literals,
        } => {
            within(out, operand, 3)?;
            membership(out, *negated, literals.as_slice())
        }
        SqlExpr::Constant(value) => constant(out, value),
        SqlExpr::Column(column) => column.write(out),
        SqlExpr::Call { function, operands } => {
            word(out, op_word(*function))?;
            arguments(out, operands)
        }
        SqlExpr::CountAll => count_all(out),
        SqlExpr::Aggregate { function, operand } => {
            word(out, aggregate_word(*function))?;
            in_brackets(out, operand)
        }
        SqlExpr::Case { branches, other } => {
            word(out, Word::Case)?;
            all_branches(out, branches)?;
            word(out, Word::Else)?;
            put(out, other)?;
            word(out, Word::End)
        }
        SqlExpr::Exists { source, equalities } => exists(out, source, equalities.as_slice()),
    }
}

// A part, in brackets where it is looser than its place.
#[cycle(printing)]
fn within(out: &mut Vec<TokenKind>, e: &SqlExpr, level: u8) -> Printed
    ensures { OnOk result (out.new.items ≡ part_onto (expr_tree e.now) (nat_le (level_of (expr_tree e.now)) level) out.old.items) }
{
    if level_of(e) <= level {
        return put(out, e);
    }
    in_brackets(out, e)
}

#[cycle(printing)]
fn in_brackets(out: &mut Vec<TokenKind>, e: &SqlExpr) -> Printed
    ensures { OnOk result (out.new.items ≡ part_onto (expr_tree e.now) false out.old.items) }
{
    word(out, Word::Open)?;
    put(out, e)?;
    word(out, Word::Close)
}

// Operands in brackets, with commas between them.
#[cycle(printing)]
fn arguments(out: &mut Vec<TokenKind>, operands: &[SqlExpr]) -> Printed
    ensures { OnOk result (out.new.items ≡ put w.Close (exps_onto false (exps_of (map expr_tree operands.now)) (put w.Open out.old.items))) }
{
    word(out, Word::Open)?;
    let mut behind = false;
    for operand in operands {
        argument(out, operand, behind)?;
        behind = true;
    }
    word(out, Word::Close)
}

// An operand, after a comma where another stands before it.
#[cycle(printing)]
fn argument(out: &mut Vec<TokenKind>, operand: &SqlExpr, behind: bool) -> Printed
    ensures { OnOk result (out.new.items ≡ onto (expr_tree operand.now) (parted behind out.old.items)) }
{
    maybe_comma(out, behind)?;
    put(out, operand)
}

#[cycle(printing)]
fn all_branches(out: &mut Vec<TokenKind>, branches: &[Branch]) -> Printed
    ensures { OnOk result (out.new.items ≡ branches_onto (branches_of (map branch_tree branches.now)) out.old.items) }
{
    for branch in branches {
        put_branch(out, branch)?;
    }
    Ok(())
}

#[cycle(printing)]
#[tactic(auto, using(crate::proofs::Views::views))]
fn put_branch(out: &mut Vec<TokenKind>, branch: &Branch) -> Printed
    ensures { OnOk result (out.new.items ≡ onto (branch_tree branch.now).1 (put w.Then (onto (branch_tree branch.now).0 (put w.When out.old.items)))) }
{
    word(out, Word::When)?;
    put(out, &branch.condition)?;
    word(out, Word::Then)?;
    put(out, &branch.value)
}

fn maybe_comma(out: &mut Vec<TokenKind>, behind: bool) -> Printed
    ensures { OnOk result (out.new.items ≡ parted behind out.old.items) }
{
    if behind {
        word(out, Word::Comma)?;
    }
    Ok(())
}

fn null_test(out: &mut Vec<TokenKind>, negated: bool) -> Printed
    ensures { OnOk result (out.new.items ≡ out.old.items ++ null_test negated) }
{
    word(out, Word::Is)?;
    maybe_not(out, negated)?;
    word(out, Word::Null)
}

fn membership(out: &mut Vec<TokenKind>, negated: bool, literals: &[Literal]) -> Printed
    ensures { OnOk result (out.new.items ≡ out.old.items ++ membership negated literals.now) }
{
    maybe_not(out, negated)?;
    word(out, Word::In)?;
    word(out, Word::Open)?;
    parted(out, Word::Comma, literals)?;
    word(out, Word::Close)
}

fn count_all(out: &mut Vec<TokenKind>) -> Printed
    ensures { OnOk result (out.new.items ≡ out.old.items ++ written count_all) }
{
    word(out, Word::Count)?;
    word(out, Word::Open)?;
    word(out, Word::Star)?;
    word(out, Word::Close)
}

fn exists(out: &mut Vec<TokenKind>, from: &Source, items: &[Equality]) -> Printed
    ensures { OnOk result (out.new.items ≡ out.old.items ++ written (exists from.now items.now)) }
{
    word(out, Word::Exists)?;
    word(out, Word::Open)?;
    word(out, Word::Select)?;
    one(out)?;
    word(out, Word::From)?;
    source(out, from)?;
    equalities(out, items)?;
    word(out, Word::Close)
}

fn one(out: &mut Vec<TokenKind>) -> Printed
    ensures { OnOk result (out.new.items ≡ out.old.items ++ t.Int (digit_one ∷ []) ∷ []) }
{
    let digit = Txt::new(*out.allocator(), "1")?;
    out.push(TokenKind::Int(digit))?;
    Ok(())
}

// The tokens of the expression, with brackets only where they must stand.
#[tactic(auto, using(crate::proofs::Views::views, crate::proofs::Views::whole))]
pub(crate) fn expression(out: &mut Vec<TokenKind>, e: &SqlExpr) -> Printed
    ensures { OnOk result (out.new.items ≡ out.old.items ++ written (expr_tree e.now)) }
{
    put(out, e)
}
