// A column of a CSV file of a data set.
ghost use Rattle.std.specs.Prelude.{◌≡◌, unwrap_or, IfOk, IsFalse, [], ◌++◌, None, OnOk, IsPermutation, IsSorted};
ghost use Rattle.std.specs.Ordering.{nat_cmp};
ghost use Rattle.std.specs.Cmp.Lexicographic.{slice_cmp};
ghost use Rattle.std.specs.List.{list_any};
ghost use Rattle.vtl_tree.specs.Structure.{same_name};
ghost use Rattle.vtl_tree.specs.Shown.{shown};
ghost use Rattle.vtl_csv.specs.InputFields.{is_coded, read_column, read_columns};
ghost use Rattle.vtl_csv.specs.SortedCodes.{AreSortedCodes, codes_listed};

use crate::reading::column;
use std::alloc::{AllocError, Global};
use std::marker::Model;
use vtl_cell::Cell;
use vtl_text::Txt;
use vtl_tree::Component;

/// A column of a file, whose fields are values of a component. A contract sees the component, and whether it is a
/// not-null one.
#[derive(Drop)]
pub struct FileColumn<'a> {
    component: &'a Component,
    is_not_null: bool,
    // the codes of the component in order, so that a text is found by look-up and not by going through all codes
    codes: Vec<Txt>,
}

impl<'a> Model for FileColumn<'a> {
    ghost use Rattle.vtl_csv.specs.InputFields.{ReadColumn};
    ghost use Rattle.vtl_csv.specs.SortedCodes.{AreSortedCodes, codes_listed};

    ghost Value = { ReadColumn };

    ghost view = { λ c. record { component = c.component.now; not_null = c.is_not_null } };

    ghost invariant = { λ c. AreSortedCodes (codes_listed c.component.now) c.codes.items };
}

// Equal texts in order.
fn sorted(alloc: Global, texts: &[Txt]) -> Result<Vec<Txt>, AllocError>
    ensures { IfOk result (λ v. AreSortedCodes texts.now v.items) }
{
    let mut sorted = Vec::with_capacity(alloc, texts.len())?;
    for text in texts {
        sorted.push(text.share()?)?;
    }
    sorted.sort()?;
    Ok(sorted)
}

// Whether a text is among codes in order.
fn is_among(codes: &[Txt], text: &Txt) -> bool
    requires { IsSorted (slice_cmp nat_cmp) codes.now }
    ensures { result ≡ list_any (same_name text.now) codes.now }
{
    codes.binary_search(text).is_ok()
}

impl<'a> FileColumn<'a> {
    /// The column of a component, where those of these names are not-null. It fails only if memory runs out.
    pub fn new(
        alloc: Global,
        component: &'a Component,
        not_null: &[Txt],
    ) -> Result<FileColumn<'a>, AllocError>
        ensures { IfOk result (λ c. c ≡ read_column not_null.now component.now) }
    {
        let codes = match &component.codes {
            Some(codes) => sorted(alloc, codes.as_slice())?,
            None => Vec::new(alloc),
        };
        let is_not_null = vtl_tree::is_among(&component.name, not_null);
        Ok(FileColumn {
            component,
            is_not_null,
            codes,
        })
    }

    /// The component.
    pub fn component(&self) -> &'a Component
        ensures { result.now ≡ self.now.component }
    {
        self.component
    }

    /// Whether the component is a not-null one.
    pub fn is_not_null(&self) -> bool
        ensures { result ≡ self.now.not_null }
    {
        self.is_not_null
    }

    /// Whether the component lists codes.
    pub fn lists_codes(&self) -> bool
        ensures { IsFalse result → self.now.component.codes ≡ None }
    {
        self.component.codes.is_some()
    }

    /// Whether a text is among the codes of the component, if it lists codes.
    pub fn is_coded(&self, cell: &Cell) -> bool
        ensures { result ≡ is_coded self.now.component cell.now }
    {
        match (cell, &self.component.codes) {
            (Cell::Text(text), Some(_)) => is_among(&self.codes, text),
            _ => true,
        }
    }
}

/// The columns of a file with these components, where those of these names are not-null. It fails only if memory runs
/// out.
pub fn file_columns<'a>(
    alloc: Global,
    components: &[&'a Component],
    not_null: &[Txt],
) -> Result<Vec<FileColumn<'a>>, AllocError>
    ensures { IfOk result (λ v. v.items ≡ read_columns not_null.now (shown components.now)) }
{
    let mut columns = Vec::with_capacity(alloc, components.len())?;
    for i in 0..components.len() {
        columns.push(FileColumn::new(alloc, column(components, i), not_null)?)?;
    }
    Ok(columns)
}
