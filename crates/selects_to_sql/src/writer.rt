// What the parts of a select are written with.
ghost use Rattle.std.specs.Prelude.{◌≡◌, IfOk};
ghost use Rattle.sql_tree.specs.Trees.{column};
ghost use Rattle.sql_tree.specs.View.{expr_tree};
ghost use Rattle.expressions_to_sql.specs.Constants.{const_to_sql, literal_to_sql};
ghost use Rattle.expressions_to_sql.specs.ToSql.{column_of, to_sql};
ghost use Rattle.vtl_tree.specs.View.{comp_exp_of};
ghost use Rattle.selects_to_sql.specs.Queries.{alias_of, first_alias, of_one, of_two, second_alias, source_as};

use crate::draft::numbered;
use expressions_to_sql::{Aliases, comp_to_sql, const_to_sql, literal_to_sql};
use sql_tree::{Column, Literal, Source, SqlExpr};
use std::alloc::{AllocError, Global};
use std::marker::Model;
use vtl_cell::Cell;
use vtl_decimal::Profile;
use vtl_text::Txt;
use vtl_tree::CompExpr;

/// The settings of a script, and the aliases of sources. A contract sees the settings.
#[derive(Drop)]
pub struct Writer {
    profile: Profile,
    first: Txt,
    second: Txt,
}

impl Model for Writer {
    ghost use Rattle.std.specs.Prelude.{◌≡◌};
    ghost use Rattle.vtl_decimal.specs.Settings.{Settings};
    ghost use Rattle.selects_to_sql.specs.Queries.{first_alias, second_alias};

    ghost Value = { Settings };

    ghost view = { λ w. w.profile };

    ghost invariant = { λ w. (w.first ≡ first_alias) × (w.second ≡ second_alias) };
}

impl Writer {
    /// What writes with these settings. It fails only if memory runs out.
    pub fn new(alloc: Global, profile: &Profile) -> Result<Writer, AllocError>
        ensures { IfOk result (λ w. w ≡ profile.now) }
    {
        let first = Txt::new(alloc, "a")?;
        let second = Txt::new(alloc, "b")?;
        Ok(Writer {
            profile: *profile,
            first,
            second,
        })
    }

    /// The settings.
    pub fn profile(&self) -> &Profile
        ensures { result.now ≡ self.now }
    {
        &self.profile
    }

    /// The alias of the source of a number, where there are many.
    pub fn alias(&self, alloc: Global, number: usize) -> Result<Txt, AllocError>
        ensures { IfOk result (λ t. t ≡ alias_of number) }
    {
        numbered(alloc, &self.first, number as u64)
    }

    /// A name of a column of the first source.
    pub fn first(&self, name: &Txt) -> Result<Column, AllocError>
        ensures { IfOk result (λ c. c ≡ column_of first_alias name.now) }
    {
        Ok(Column {
            source: self.first.share()?,
            name: name.share()?,
        })
    }

    /// A name of a column of the second source.
    pub fn second(&self, name: &Txt) -> Result<Column, AllocError>
        ensures { IfOk result (λ c. c ≡ column_of second_alias name.now) }
    {
        Ok(Column {
            source: self.second.share()?,
            name: name.share()?,
        })
    }

    /// A column of the first source.
    pub fn column(&self, name: &Txt) -> Result<SqlExpr, AllocError>
        ensures { IfOk result (λ e. expr_tree e ≡ column (column_of first_alias name.now)) }
    {
        Ok(SqlExpr::Column(self.first(name)?))
    }

    /// A column of the second source.
    pub fn other_column(&self, name: &Txt) -> Result<SqlExpr, AllocError>
        ensures { IfOk result (λ e. expr_tree e ≡ column (column_of second_alias name.now)) }
    {
        Ok(SqlExpr::Column(self.second(name)?))
    }

    /// An expression over the columns of one source.
    pub fn expression(&self, alloc: Global, e: &CompExpr) -> Result<SqlExpr, AllocError>
        ensures { IfOk result (λ x. expr_tree x ≡ to_sql self.now of_one (comp_exp_of e.now)) }
    {
        comp_to_sql(alloc, e, &Aliases::One(&self.first), &self.profile)
    }

    /// An expression over the columns of two sources, of which the first has so many.
    pub fn expression_of_two(
        &self,
        alloc: Global,
        e: &CompExpr,
        width: usize,
    ) -> Result<SqlExpr, AllocError>
        ensures { IfOk result (λ x. expr_tree x ≡ to_sql self.now (of_two width) (comp_exp_of e.now)) }
    {
        let aliases = Aliases::Two {
            first: &self.first,
            second: &self.second,
            width,
        };
        comp_to_sql(alloc, e, &aliases, &self.profile)
    }

    /// A value as a constant.
    pub fn constant(&self, alloc: Global, value: &Cell) -> Result<SqlExpr, AllocError>
        ensures { IfOk result (λ e. expr_tree e ≡ const_to_sql self.now value.now) }
    {
        const_to_sql(alloc, value, &self.profile)
    }

    /// A value that is not null as a literal.
    pub fn literal(&self, alloc: Global, value: &Cell) -> Result<Literal, AllocError>
        ensures { IfOk result (λ l. l ≡ literal_to_sql self.now value.now) }
    {
        literal_to_sql(alloc, value, &self.profile)
    }

    /// The column at a place of two sources, of which the first has so many columns.
    pub fn column_at(&self, place: usize, width: usize, name: &Txt) -> Result<SqlExpr, AllocError>
        ensures { IfOk result (λ e. expr_tree e ≡ column (of_two width place name.now)) }
    {
        if place < width {
            self.column(name)
        } else {
            self.other_column(name)
        }
    }

    /// A table as the first source.
    pub fn source(&self, table: &Txt) -> Result<Source, AllocError>
        ensures { IfOk result (λ s. s ≡ source_as first_alias table.now) }
    {
        Ok(Source {
            table: table.share()?,
            series: None,
            alias: self.first.share()?,
        })
    }

    /// A table as the second source.
    pub fn other_source(&self, table: &Txt) -> Result<Source, AllocError>
        ensures { IfOk result (λ s. s ≡ source_as second_alias table.now) }
    {
        Ok(Source {
            table: table.share()?,
            series: None,
            alias: self.second.share()?,
        })
    }
}
