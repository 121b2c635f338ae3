// Where expressions stand.
ghost use Rattle.std.specs.Prelude.{◌≡◌};
ghost use Rattle.sql_check_parts.specs.Expressions.{site};

use sql_check_parts::{Scope, Tables};
use std::marker::Model;
use vtl_decimal::Profile;

/// Where expressions stand: the profile, the tables before the statement, and the sources that may be named.
#[derive(Drop)]
pub struct Site<'a> {
    pub(crate) profile: &'a Profile,
    pub(crate) tables: &'a Tables,
    pub(crate) scope: &'a Scope<'a>,
}

impl<'a> Model for Site<'a> {
    ghost use Rattle.sql_check_parts.specs.Expressions as expressions;

    ghost Value = { expressions.Site };

    ghost view = { λ s. expressions.site s.profile.now s.tables.now s.scope.now };
}

impl<'a> Site<'a> {
    /// The place of a profile, tables and sources.
    pub fn new(profile: &'a Profile, tables: &'a Tables, scope: &'a Scope<'a>) -> Site<'a>
        ensures { result ≡ site profile.now tables.now scope.now }
    {
        Site {
            profile,
            tables,
            scope,
        }
    }

    /// The profile.
    pub fn profile(&self) -> &Profile
        ensures { result.now ≡ self.now.settings }
    {
        self.profile
    }

    /// The tables before the statement.
    pub fn tables(&self) -> &Tables
        ensures { result.now ≡ self.now.tables }
    {
        self.tables
    }

    /// The sources that may be named.
    pub fn scope(&self) -> &Scope<'a>
        ensures { result.now ≡ self.now.scope }
    {
        self.scope
    }
}
