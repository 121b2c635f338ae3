// The rows of a table in groups of those that have one key.
//
// Rows are put group by group by counting, not by a sort or a list for each group.
ghost use Rattle.std.specs.Prelude.{◌≡◌, length};
ghost use Rattle.vtl_index.specs.GroupedRows.{keys_of, lookup_of};
ghost use Rattle.vtl_index.specs.RowKeys.{count_in, keys_in};

use crate::Groups;
use crate::row_keys::{KeyColumn, KeyedRows, NullKeys};
use vtl_decimal::Profile;
use vtl_rows::Table;

// The rows of a table, the columns of their keys, what becomes of nulls, the profile by which an integer is made a
// number, and the groups.
pub(crate) struct GroupedRows<'t> {
    pub(crate) table: &'t Table,
    pub(crate) key: Vec<KeyColumn>,
    pub(crate) nulls: NullKeys,
    pub(crate) p: Profile,
    pub(crate) groups: Groups,
}

impl<'t> Drop for GroupedRows<'t> {
    fn drop(self) {
        let GroupedRows {
            table: _table,
            key: _key,
            nulls: _nulls,
            p: _p,
            groups: _groups,
        } = self;
    }
}

impl GroupedRows<'_> {
    // The rows, each with its key.
    pub(crate) fn keyed(&self) -> KeyedRows<'_>
        ensures keys { keys_in result ≡ keys_of (lookup_of self.now) }
        ensures count { count_in result ≡ length self.now.table.now.rows }
    {
        KeyedRows {
            table: self.table,
            columns: &self.key,
            p: &self.p,
        }
    }
}
