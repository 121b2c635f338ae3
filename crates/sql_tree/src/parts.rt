// Columns, sources and constants.
//
// A list that may be left out is empty where it is: no option of a list, so no ORDER BY and an empty one are one
// tree.

use crate::Span;
use vtl_text::{List, Txt};

/// `"source"."name"`
#[derive(Drop)]
pub struct Column {
    /// The alias of the source.
    pub source: Txt,
    /// The column's name.
    pub name: Txt,
}

/// `"table" AS "alias"`, or `SERIES "table" series AS "alias"`
#[derive(Drop)]
pub struct Source {
    /// The table.
    pub table: Txt,
    /// How its rows are made full series, where SERIES is written; otherwise the source has the table's rows.
    pub series: Option<Series>,
    /// The name by which columns name it.
    pub alias: Txt,
}

/// `ON "on" BY ("by", ..) span`
#[derive(Drop)]
pub struct Series {
    /// The column of periods.
    pub on: Txt,
    /// The columns on which the rows of a series agree; none where no BY is written.
    pub by: List<Txt>,
    /// From which period to which one.
    pub span: Span,
}

/// `left = right`
#[derive(Drop)]
pub struct Equality {
    /// The column before the sign.
    pub left: Column,
    /// The column after it.
    pub right: Column,
}

/// A number as it is written, of any length.
#[derive(Drop)]
pub enum Numeral {
    /// Digits.
    Int(Txt),
    /// Digits, a point and digits.
    Dec(Txt),
}

/// A constant in an expression.
#[derive(Drop)]
pub enum Constant {
    /// A number.
    Number(Numeral),
    /// `'text'`
    Text(Txt),
    /// `TRUE`
    True,
    /// `FALSE`
    False,
    /// `NULL`
    Null,
    /// `DATE 'text'`
    Date(Txt),
    /// `PERIOD 'text'`
    Period(Txt),
}

/// A literal in a list of `IN` or as the default of a window.
#[derive(Drop)]
pub enum Literal {
    /// A number, with a `-` before it where it is negative.
    Number {
        /// There is a `-`.
        negative: bool,
        /// The number without it.
        number: Numeral,
    },
    /// `'text'`
    Text(Txt),
    /// `TRUE`
    True,
    /// `FALSE`
    False,
    /// `DATE 'text'`
    Date(Txt),
    /// `PERIOD 'text'`
    Period(Txt),
}
