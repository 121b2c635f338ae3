// Groups of rows.
//
// A group is known by its lead, the first row that has its key: so groups are a list of numbers, whatever finds them,
// and their order is that of first appearance. Where no two rows have one key, the leads themselves are the groups.
ghost use Rattle.std.specs.Prelude.{◌≡◌, ◌<◌, length, slice_index, IfOk};
ghost use Rattle.vtl_index.specs.Groups.{AreLeads, firsts, rows_led};

use crate::members::{Layout, Members, are_apart};
use std::alloc::{AllocError, Global};
use std::marker::Model;
use std::slice;

/// Rows in groups of those that have one key, the groups in the order of their first rows. A contract sees the leads:
/// for each row the number of the first row of its group.
///
/// It takes 8 bytes a row where no two rows have one key, and at most 24 otherwise.
pub struct Groups {
    layout: Layout,
}

// Written out, so that a proof above sees one call and not the drop of each part.
impl Drop for Groups {
    fn drop(self) {
        let Groups { layout: _layout } = self;
    }
}

impl Model for Groups {
    ghost use Rattle.std.specs.Prelude.{ℕ, List};

    ghost Value = { List ℕ };

    ghost use Rattle.vtl_index.specs.Members.{IsLaidOut, leads_in};

    ghost view = { λ g. leads_in g.layout };

    ghost invariant = { λ g. IsLaidOut g.layout };
}

impl Groups {
    /// The groups of rows whose leads are these, in time that is linear in their number. It fails only if memory runs
    /// out.
    pub fn from_leads(alloc: Global, leads: Vec<usize>) -> Result<Groups, AllocError>
        requires { AreLeads leads.items }
        ensures { IfOk result (λ g. g ≡ leads.items) }
    {
        let layout = if are_apart(&leads) {
            Layout::Apart(leads)
        } else {
            Layout::Shared(Members::of(alloc, leads)?)
        };
        Ok(Groups { layout })
    }

    /// How many groups there are.
    pub fn len(&self) -> usize
        ensures { result ≡ length (firsts self.now) }
    {
        match &self.layout {
            Layout::Apart(rows) => rows.len(),
            Layout::Shared(members) => members.ends.len(),
        }
    }

    /// The rows of a group, rising.
    pub fn rows(&self, group: usize) -> &[usize]
        requires { group < length (firsts self.now) }
        ensures { result.now ≡ rows_led self.now (slice_index (firsts self.now) group) }
    {
        match &self.layout {
            Layout::Apart(rows) => slice::from_ref(&rows[group]),
            Layout::Shared(members) => members.rows(group),
        }
    }

    /// The group of a row.
    pub fn of(&self, row: usize) -> usize
        requires { row < length self.now }
        ensures within { result < length (firsts self.now) }
        ensures led { slice_index (firsts self.now) result ≡ slice_index self.now row }
    {
        match &self.layout {
            Layout::Apart(_rows) => row,
            Layout::Shared(members) => members.groups[row],
        }
    }

    /// The rows of the group of a row: those that have its key, itself among them, rising.
    pub fn beside(&self, row: usize) -> &[usize]
        requires { row < length self.now }
        ensures { result.now ≡ rows_led self.now (slice_index self.now row) }
    {
        self.rows(self.of(row))
    }

    // The same, for a row's number that is read where it stands: that is all of the group where each row is one by
    // itself. Who walks a list of such numbers then reads no memory but the list's.
    pub(crate) fn beside_at<'a>(&'a self, row: &'a usize) -> &'a [usize]
        requires { row.now < length self.now }
        ensures { result.now ≡ rows_led self.now (slice_index self.now row.now) }
    {
        match &self.layout {
            Layout::Apart(_rows) => slice::from_ref(row),
            Layout::Shared(_members) => self.beside(*row),
        }
    }
}
