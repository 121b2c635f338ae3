// The tree of a script, a line for each node. Expressions, and what holds expressions, have their parts below them; every
// other part is one line.
//
// The printer goes down by recursion, with few functions in the circle. Over a stack of borrowed expressions each
// function that keeps a `&Expr` in a `&mut` would be dear to prove.
use crate::lines::Lines;
use std::fmt;
use vtl_syntax::{CalcPart, Clause, Expr, JoinPart, PointRule, Script, Statement, Targets};

// The line of an expression that has parts.
fn head(out: &mut Lines, e: &Expr) {
    match e {
        Expr::Binary { op, .. } => out.part(op),
        Expr::Unary { op, .. } => out.part(op),
        Expr::Function { function, .. } => out.part(function),
        Expr::SetOp { operator, .. } => out.part(operator),
        Expr::Difference { operator, .. } => out.part(operator),
        Expr::Aggregate { function, .. } | Expr::AggregateOver { function, .. } => out.part(
            function,
        ),
        Expr::ValueWindow { function, .. } => out.part(function),
        Expr::Shift { function, .. } => out.part(function),
        Expr::Join { kind, .. } => out.part(kind),
        _ => out.name(word(e)),
    }
}

// The word that names an expression of a kind that has one form.
fn word(e: &Expr) -> &'static str {
    match e {
        Expr::Brackets(_) => "brackets",
        Expr::WithClause { .. } => "clause",
        Expr::Member { .. } => "member",
        Expr::If { .. } => "if",
        Expr::InSet { negated: true, .. } => "not_in",
        Expr::InSet { .. } => "in",
        Expr::ExistsIn { .. } => "exists_in",
        Expr::Time { .. } => "time",
        Expr::Rank(_) => "rank",
        Expr::Check { .. } => "check",
        Expr::CheckDatapoint { .. } => "check_datapoint",
        Expr::CheckHierarchy { .. } => "check_hierarchy",
        _ => "hierarchy",
    }
}

// An expression.
#[cycle(show)]
fn expr(out: &mut Lines, e: &Expr) {
    match e {
        Expr::Component(found) => out.part(found),
        Expr::Constant(found) => out.part(found),
        _ => {
            head(out, e);
            out.enter();
            operands(out, e);
            plain(out, e);
            out.close();
        }
    }
}

// The expressions that are parts of an expression, and what stands between them.
#[cycle(show)]
fn operands(out: &mut Lines, e: &Expr) {
    match e {
        Expr::If {
            condition,
            then,
            other,
        } => {
            expr(out, condition);
            expr(out, then);
            expr(out, other);
        }
        Expr::Binary { left, right, .. }
        | Expr::Difference { left, right, .. }
        | Expr::ExistsIn { left, right, .. } => {
            expr(out, left);
            expr(out, right);
        }
        Expr::Brackets(operand)
        | Expr::InSet { operand, .. }
        | Expr::Unary { operand, .. }
        | Expr::Member { operand, .. }
        | Expr::ValueWindow { operand, .. }
        | Expr::Time { operand, .. }
        | Expr::Shift { operand, .. }
        | Expr::CheckDatapoint { operand, .. }
        | Expr::CheckHierarchy { operand, .. }
        | Expr::Hierarchy { operand, .. } => expr(out, operand),
        Expr::Function { operands, .. } | Expr::SetOp { operands, .. } => {
            for operand in operands {
                expr(out, operand);
            }
        }
        _ => mixed(out, e),
    }
}

// The same of an expression in which other parts stand between.
#[cycle(show)]
fn mixed(out: &mut Lines, e: &Expr) {
    match e {
        Expr::WithClause {
            operand,
            clause: found,
        } => {
            expr(out, operand);
            clause(out, found);
        }
        Expr::Aggregate {
            operand,
            group,
            having,
            ..
        } => {
            maybe(out, "of", operand);
            out.part(group);
            maybe(out, "having", having);
        }
        Expr::AggregateOver { operand, .. } => maybe(out, "of", operand),
        Expr::Check {
            operand,
            error,
            imbalance,
            ..
        } => {
            expr(out, operand);
            out.part(error);
            maybe(out, "imbalance", imbalance);
        }
        Expr::Join {
            operands,
            using,
            filter,
            targets: made,
            ..
        } => {
            joined(out, operands);
            out.part(using);
            maybe(out, "filter", filter);
            if let Some(made) = made {
                targets(out, made);
            }
        }
        _ => {}
    }
}

// What stands behind the last of these.
fn plain(out: &mut Lines, e: &Expr) {
    match e {
        Expr::Member { component, .. } => out.part(component),
        Expr::InSet { literals, .. } => out.part(literals),
        Expr::ExistsIn { retain, .. } => out.part(retain),
        Expr::Time { call, .. } => out.part(call),
        Expr::AggregateOver { over, .. } | Expr::ValueWindow { over, .. } | Expr::Rank(over) =>
            out.part(over),
        Expr::Shift {
            points,
            default,
            over,
            ..
        } => {
            out.part(points);
            out.part(default);
            out.part(over);
        }
        Expr::Check { output, .. } => out.part(output),
        Expr::Join {
            keeping,
            renames,
            ..
        } => {
            out.part(keeping);
            out.part(renames);
        }
        _ => by_ruleset(out, e),
    }
}

// What stands behind the operand of a check by a ruleset.
fn by_ruleset(out: &mut Lines, e: &Expr) {
    match e {
        Expr::CheckDatapoint {
            ruleset,
            output,
            ..
        } => {
            out.part(ruleset);
            out.part(output);
        }
        Expr::CheckHierarchy {
            ruleset,
            rule,
            mode,
            dataset,
            output,
            ..
        } => {
            out.part(ruleset);
            out.part(rule);
            out.part(mode);
            out.part(dataset);
            out.part(output);
        }
        Expr::Hierarchy {
            ruleset,
            rule,
            mode,
            input,
            output,
            ..
        } => {
            out.part(ruleset);
            out.part(rule);
            out.part(mode);
            out.part(input);
            out.part(output);
        }
        _ => {}
    }
}

#[cycle(show)]
fn joined(out: &mut Lines, operands: &Vec<JoinPart>) {
    for part in operands {
        out.open("operand");
        expr(out, &part.operand);
        out.part(&part.alias);
        out.close();
    }
}

// An expression that may be left out, below the name of its place.
#[cycle(show)]
fn maybe(out: &mut Lines, name: &str, found: &Option<Box<Expr>>) {
    if let Some(e) = found {
        out.open(name);
        expr(out, e);
        out.close();
    }
}

#[cycle(show)]
fn clause(out: &mut Lines, c: &Clause) {
    match c {
        Clause::Filter(condition) => {
            out.open("filter");
            expr(out, condition);
            out.close();
        }
        Clause::Targets(made) => targets(out, made),
        _ => without_expressions(out, c),
    }
}

// The clauses that hold no expression.
fn without_expressions(out: &mut Lines, c: &Clause) {
    match c {
        Clause::Keeping(kept) => out.part(kept),
        Clause::Rename(renames) => named(out, "rename", renames),
        Clause::Sub(values) => named(out, "sub", values),
        Clause::Pivot {
            identifier,
            measure,
        } => named(out, "pivot", &(identifier, measure)),
        Clause::Unpivot {
            identifier,
            measure,
        } => named(out, "unpivot", &(identifier, measure)),
        Clause::Filter(_) | Clause::Targets(_) => {}
    }
}

// A part below its name.
fn named<T: fmt::Debug>(out: &mut Lines, name: &str, part: &T) {
    out.open(name);
    out.part(part);
    out.close();
}

#[cycle(show)]
fn targets(out: &mut Lines, made: &Targets) {
    match made {
        Targets::Calc(parts) => {
            out.open("calc");
            calcs(out, parts);
        }
        Targets::Aggr {
            parts,
            group,
            having,
        } => {
            out.open("aggr");
            calcs(out, parts);
            out.part(group);
            maybe(out, "having", having);
        }
    }
    out.close();
}

#[cycle(show)]
fn calcs(out: &mut Lines, parts: &Vec<CalcPart>) {
    for part in parts {
        out.open("make");
        out.part(&part.role);
        out.part(&part.component);
        expr(out, &part.value);
        out.close();
    }
}

fn point_rule(out: &mut Lines, rule: &PointRule) {
    out.open("rule");
    out.part(&rule.name);
    if let Some(condition) = &rule.when {
        out.open("when");
        expr(out, condition);
        out.close();
    }
    expr(out, &rule.holds);
    out.part(&rule.error);
    out.close();
}

fn statement(out: &mut Lines, s: &Statement) {
    match s {
        Statement::Assignment { name, kind, value } => {
            out.part(kind);
            out.enter();
            out.part(name);
            expr(out, value);
        }
        Statement::Datapoint {
            name,
            variables,
            rules,
            last_semicolon,
        } => {
            out.open("datapoint");
            out.part(name);
            out.part(variables);
            for rule in rules.as_slice() {
                point_rule(out, rule);
            }
            out.part(last_semicolon);
        }
        Statement::Hierarchical {
            name,
            item,
            rules,
            last_semicolon,
        } => {
            out.open("hierarchical");
            out.part(name);
            out.part(item);
            for rule in rules.as_slice() {
                out.part(rule);
            }
            out.part(last_semicolon);
        }
    }
    out.close();
}

pub(crate) fn script(out: &mut Lines, s: &Script) {
    for found in s.statements.as_slice() {
        statement(out, found);
    }
}
