// A script in the making.
ghost use Rattle.std.specs.Prelude.{◌≡◌, ◌≤◌, ◌+◌, ◌++◌, ◌∷◌, [], length, map, IfOk, OnOk};
ghost use Rattle.sql_tree.specs.View.{query_tree, statement_tree};
ghost use Rattle.selects_to_sql.specs.Tables.{create_for, first_number, numbered, table_of};

use sql_tree::{Query, SqlCreate, Statement};
use std::alloc::{AllocError, Global};
use vtl_text::Txt;

// The number of the first table that is made for a statement, besides the one of its result.
const FIRST_NUMBER: u64 = 1;

/// The statements of a script so far, and the next number of a table that is made for a statement.
pub struct Draft {
    pub statements: Vec<Statement>,
    pub next: u64,
    ghost few: { next ≤ length statements.items + 1 },
}

impl Drop for Draft {
    fn drop(self) {
        let Draft {
            statements: _statements,
            next: _next,
        } = self;
    }
}

/// A name and a number, which are the name of a table that is made for a result. It fails only if memory runs out.
pub fn numbered(alloc: Global, name: &Txt, number: u64) -> Result<Txt, AllocError>
    ensures { IfOk result (λ t. t ≡ numbered name.now number) }
{
    let text = format!(in alloc; "{}${}", name.as_str(), number)?;
    Txt::new(alloc, &text)
}

impl Draft {
    /// No statements.
    pub fn new(alloc: Global) -> Draft
        ensures { result.statements.items ≡ [] }
    {
        Draft {
            statements: Vec::new(alloc),
            next: FIRST_NUMBER,
        }
    }

    /// Begins with the tables of a statement.
    pub fn begin(&mut self)
        ensures statements { self.new.statements.items ≡ self.old.statements.items }
        ensures next { self.new.next ≡ first_number }
    {
        self.next = FIRST_NUMBER;
    }

    /// Adds a statement. It fails only if memory runs out.
    pub fn push(&mut self, statement: Statement) -> Result<(), AllocError>
        ensures statements { OnOk result (map statement_tree self.new.statements.items ≡ map statement_tree self.old.statements.items ++ statement_tree statement ∷ []) }
        ensures next { OnOk result (self.new.next ≡ self.old.next) }
    {
        self.statements.push(statement)?;
        Ok(())
    }

    /// Adds a table by a query. It fails only if memory runs out.
    pub fn create(&mut self, name: &Txt, query: Query) -> Result<(), AllocError>
        ensures statements { OnOk result (map statement_tree self.new.statements.items ≡ map statement_tree self.old.statements.items ++ create_for (table_of name.now (query_tree query)) ∷ []) }
        ensures next { OnOk result (self.new.next ≡ self.old.next) }
    {
        let name = name.share()?;
        self.push(Statement::Create(SqlCreate { name, query }))
    }

    /// Adds a table for a result by a query, and gives its name. It fails only if memory runs out.
    pub fn store(&mut self, alloc: Global, target: &Txt, query: Query) -> Result<Txt, AllocError>
        ensures name { IfOk result (λ t. t ≡ numbered target.now self.old.next) }
        ensures statements { OnOk result (map statement_tree self.new.statements.items ≡ map statement_tree self.old.statements.items ++ create_for (table_of (numbered target.now self.old.next) (query_tree query)) ∷ []) }
        ensures next { OnOk result (self.new.next ≡ self.old.next + 1) }
    {
        let name = numbered(alloc, target, self.next)?;
        self.create(&name, query)?;
        self.next += 1;
        Ok(name)
    }

    /// The statements.
    pub fn into_statements(self) -> Vec<Statement>
        ensures { result.items ≡ self.statements.items }
    {
        let Draft {
            statements,
            next: _next,
        } = self;
        statements
    }
}
