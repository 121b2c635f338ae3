// What is read, typed and printed of texts of the SQL dialect.
ghost use Rattle.sql_tree.specs.Formed.{FormedScript};
ghost use Rattle.sql_tree.specs.View.{script_tree};

use crate::refusals;
use crate::report::Report;
use sql_check::{SqlTypeErr, check};
use sql_parser::{SqlErr, parse};
use sql_print::print;
use sql_tree::SqlScript;
use std::alloc::{AllocError, Global};
use vtl_status::Status;

const BEFORE: &str = "SET SCALE 2 ROUNDING HALF_UP;\nCREATE TABLE \"U\" AS\n  SELECT ";

const BEHIND: &str = " AS \"c\"\n  FROM \"T\" AS \"t\";\n";

// That the text is a script that is typed, or the line of its fault.
pub(crate) fn typed(alloc: Global, text: &str) -> Result<Report, AllocError> {
    match parse(alloc, text) {
        Ok(script) => checked(alloc, script),
        Err(error) => refused(alloc, error),
    }
}

fn checked(alloc: Global, script: SqlScript) -> Result<Report, AllocError>
    requires { FormedScript (script_tree script) }
{
    match check(alloc, script) {
        Ok(_) => refusals::nothing(alloc),
        Err(SqlTypeErr::Mistyped { statement, rule }) => {
            refusals::answered(alloc, &Status::SqlType { statement, rule })
        }
        Err(SqlTypeErr::OutOfMemory) => Err(AllocError),
    }
}

fn refused(alloc: Global, error: SqlErr) -> Result<Report, AllocError> {
    match error {
        SqlErr::Syntax { done, byte } => {
            refusals::answered(alloc, &Status::SqlSyntax { done, byte })
        }
        SqlErr::OutOfMemory => Err(AllocError),
    }
}

// The text that the script is printed as, or the line of its fault.
pub(crate) fn printed(alloc: Global, text: &str) -> Result<Report, AllocError> {
    match parse(alloc, text) {
        Ok(script) => printed_script(alloc, &script),
        Err(error) => refused(alloc, error)?.line(),
    }
}

fn printed_script(alloc: Global, script: &SqlScript) -> Result<Report, AllocError> {
    Ok(Report {
        text: print(alloc, script)?,
        code: 0,
    })
}

// The number of statements, SET being the first, a comma, and the byte of the fault where there is one.
pub(crate) fn outcome(alloc: Global, text: &str) -> Result<String, AllocError> {
    match parse(alloc, text) {
        Ok(script) => format!(in alloc;
            "{},",
            script.statements.as_slice().len().saturating_add(1)
        ),
        Err(SqlErr::Syntax { done, byte }) => format!(in alloc; "{done},{byte}"),
        Err(SqlErr::OutOfMemory) => Err(AllocError),
    }
}

// The same of the text that the script is printed as, which must be printed as itself.
pub(crate) fn outcome_again(alloc: Global, text: &str) -> Result<String, AllocError> {
    let first = printed(alloc, text)?;
    if first.code != 0 {
        return outcome(alloc, text);
    }
    let second = printed(alloc, &first.text)?;
    if second.text.as_str() == first.text.as_str() {
        outcome(alloc, &first.text)
    } else {
        Ok(second.text)
    }
}

// How an expression is printed.
pub(crate) fn grouped(alloc: Global, given: &str) -> Result<String, AllocError> {
    let script = format!(in alloc; "{BEFORE}{given}{BEHIND}")?;
    let text = printed(alloc, &script)?.text;
    let found = text
        .as_str()
        .strip_prefix(BEFORE)
        .and_then(|rest| rest.strip_suffix(BEHIND));
    String::from_str(alloc, found.unwrap_or(text.as_str()))
}
