// Scripts, statements and queries.

use crate::{Column, JoinKind, Source, SqlExpr, Window};
use vtl_cell::Kind;
use vtl_decimal::Rounding;
use vtl_text::{List, Txt};

/// `SET SCALE scale ROUNDING rounding; statements`
pub struct SqlScript {
    /// The digits of the scale, as they are written.
    pub scale: Txt,
    /// The rounding.
    pub rounding: Rounding,
    /// The statements after SET.
    pub statements: List<Statement>,
}

// Written out, so that a proof above sees one call and not the drop of each part.
impl Drop for SqlScript {
    fn drop(self) {
        let SqlScript {
            scale: _scale,
            rounding: _rounding,
            statements: _statements,
        } = self;
    }
}

/// A statement.
pub enum Statement {
    /// `INPUT ..`
    Input(SqlInput),
    /// `CREATE TABLE ..`
    Create(SqlCreate),
    /// `EXPORT ..`
    Export(SqlExport),
}

// Written out, so that a proof above sees one call and not the drop of each part.
impl Drop for Statement {
    fn drop(self) {
        match self {
            Statement::Input(_part0) => {}
            Statement::Create(_part0) => {}
            Statement::Export(_part0) => {}
        }
    }
}

/// `INPUT name (columns) KEY (key);`
#[derive(Drop)]
pub struct SqlInput {
    /// The table.
    pub name: Txt,
    /// Its columns.
    pub columns: List<InputColumn>,
    /// The names of the key's columns; there may be none.
    pub key: List<Txt>,
}

/// `name kind NOT NULL CODES (codes)`
#[derive(Drop)]
pub struct InputColumn {
    /// Its name.
    pub name: Txt,
    /// Its kind, any but null.
    pub kind: Kind,
    /// NOT NULL is written: no value of it is null. On a column of the key it changes nothing.
    pub not_null: bool,
    /// The codes; none where no CODES is written.
    pub codes: List<Txt>,
}

/// `CREATE TABLE name AS query;`
pub struct SqlCreate {
    /// The table.
    pub name: Txt,
    /// Its rows.
    pub query: Query,
}

// Written out, so that a proof above sees one call and not the drop of each part.
impl Drop for SqlCreate {
    fn drop(self) {
        let SqlCreate {
            name: _name,
            query: _query,
        } = self;
    }
}

/// `EXPORT name ORDER BY order;`
#[derive(Drop)]
pub struct SqlExport {
    /// The table.
    pub name: Txt,
    /// The columns that sort it; none where no ORDER BY is written.
    pub order: List<Txt>,
}

/// `select UNION ALL select ..`
pub struct Query {
    /// The selects.
    pub selects: List<Select>,
}

// Written out, so that a proof above sees one call and not the drop of each part.
impl Drop for Query {
    fn drop(self) {
        let Query { selects: _selects } = self;
    }
}

/// `SELECT items FROM source joins WHERE condition GROUP BY group HAVING having`
pub struct Select {
    /// What a row of the result holds.
    pub items: List<Item>,
    /// The first source.
    pub from: Source,
    /// The others.
    pub joins: List<Join>,
    /// The condition of WHERE, where one is written.
    pub condition: Option<SqlExpr>,
    /// The columns of GROUP BY; none where it is not written.
    pub group: List<Column>,
    /// The condition of HAVING, where one is written.
    pub having: Option<SqlExpr>,
}

// Written out, so that a proof above sees one call and not the drop of each part.
impl Drop for Select {
    fn drop(self) {
        let Select {
            items: _items,
            from: _from,
            joins: _joins,
            condition: _condition,
            group: _group,
            having: _having,
        } = self;
    }
}

/// `value AS name`
#[derive(Drop)]
pub struct Item {
    /// The value.
    pub value: ItemValue,
    /// The name of the result's column.
    pub name: Txt,
}

/// The value of an item.
#[derive(Drop)]
pub enum ItemValue {
    /// An expression.
    Expr(SqlExpr),
    /// A window.
    Window(Window),
}

/// A further source.
#[derive(Drop)]
pub enum Join {
    /// `kind JOIN source ON condition`
    On {
        kind: JoinKind,
        source: Source,
        condition: SqlExpr,
    },
    /// `CROSS JOIN source`
    Cross(Source),
}
