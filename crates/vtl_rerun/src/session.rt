// Sessions.
ghost use Rattle.std.specs.Map.{set_value};
ghost use Rattle.std.specs.Option.{option_map};
ghost use Rattle.std.specs.Prelude.{◌≡◌, ◌≤◌, ◌+◌, [], false, true, length, map, None, IfOk, OnErr, OnOk};
ghost use Rattle.vtl_text.specs.Texts.{same_text};
ghost use Rattle.vtl_tree.specs.DataSet.{AreOfProfile};
ghost use Rattle.vtl_rows.specs.Tables.{listed};
ghost use Rattle.vtl_backend.specs.Inputs.{AreInRange, AreInputs};
ghost use Rattle.rerun_laws.specs.Refreshes.{fresh_without};
ghost use Rattle.vtl_rerun.specs.Kept.{IsInputOf, Lends, Refreshes, stale_now};

use crate::lost::let_go;
use crate::part::{Part, parts_of};
use crate::runs::run_stale;
use crate::written::written;
use std::alloc::{AllocError, Global};
use std::marker::Model;
use vtl_backend::Backend;
use vtl_check::Checked;
use vtl_rows::{Inputs, Outputs, SharedTable, Table, Tables};
use vtl_scalar::RunErr;
use vtl_text::Txt;

/// The results of a script, kept while its inputs are replaced. A contract sees the script, the tables of its inputs now,
/// how many transformations the back end carried out, the numbers of the transformations that are fresh, and whether the
/// outputs are those of the inputs now.
pub struct Session<B: Backend> {
    script: Checked,
    parts: Vec<Part>,
    inputs: Inputs,
    results: Vec<Option<SharedTable>>,
    outputs: Outputs,
    is_current: bool,
    back: B,
}

// Written out, so that a proof above sees one call and not the drop of each part.
impl<B: Backend + Drop> Drop for Session<B> {
    fn drop(self) {
        let Session {
            script: _script,
            parts: _parts,
            inputs: _inputs,
            results: _results,
            outputs: _outputs,
            is_current: _,
            back: _back,
        } = self;
    }
}

impl<B: Backend> Model for Session<B> {
    ghost use Rattle.std.specs.Coded.{codes};
    ghost use Rattle.vtl_syntax.specs.contracts.statements.Statement as s;
    ghost use Rattle.vtl_tree.specs.contracts.nodes.Node as n;
    ghost use Rattle.vtl_check.specs.Checked.{tree_of};
    ghost use Rattle.vtl_check.specs.Transformations.{transformations};
    ghost use Rattle.rerun_laws.specs.Refreshes.{numbers_of};
    ghost use Rattle.vtl_rerun.specs.Kept.{Kept};
    ghost use Rattle.vtl_rerun.specs.Sessions.{IsSession, fresh_in};

    ghost Value = { Kept };

    ghost coded = { Prim.hlevel (codes, s.the_row.coded, n.the_row.coded) };

    ghost view = { λ s. record { script = s.script; inputs = s.inputs; work = B.work s.back; fresh = fresh_in (numbers_of (transformations (tree_of s.script))) s.results.items; is_current = s.is_current } };

    ghost invariant = { λ s. IsSession s.script s.parts.items s.inputs s.results.items s.outputs s.is_current };
}

// As many results as parts, none of which is there yet.
fn no_results(alloc: Global, parts: &[Part]) -> Result<Vec<Option<SharedTable>>, AllocError>
    ensures { IfOk result (λ v. v.items ≡ map (λ x. None) parts.now) }
{
    let mut results = Vec::with_capacity(alloc, parts.len())?;
    for _ in parts {
        results.push(None)?;
    }
    Ok(results)
}

// The same table, whose rows may have several owners, so that what reads it copies nothing.
fn shared(alloc: Global, table: Table) -> Result<Table, AllocError>
    ensures { IfOk result (λ t. listed t ≡ listed table) }
{
    SharedTable::of(alloc, table)?.table().share()
}

impl<B: Backend + Drop> Session<B> {
    /// A session of a script over the tables of its inputs, which has run nothing yet. It fails only if memory runs out.
    pub fn new(
        alloc: Global,
        script: Checked,
        inputs: Inputs,
        back: B,
    ) -> Result<Session<B>, AllocError>
        requires inputs { AreInputs script inputs }
        requires ranges { AreInRange script inputs }
        ensures script { IfOk result (λ s. s.script ≡ script) }
        ensures inputs { IfOk result (λ s. s.inputs ≡ inputs) }
        ensures work { IfOk result (λ s. s.work ≡ B.work back) }
        ensures fresh { IfOk result (λ s. s.fresh ≡ []) }
        ensures current { IfOk result (λ s. s.is_current ≡ false) }
    {
        let parts = parts_of(alloc, &script)?;
        let results = no_results(alloc, &parts)?;
        Ok(Session {
            script,
            parts,
            inputs,
            results,
            outputs: Tables::new(alloc),
            is_current: false,
            back,
        })
    }

    /// The script, over tables of its inputs.
    pub fn script(&self) -> &Checked
        ensures script { result.now ≡ self.now.script }
        ensures inputs { AreInputs self.now.script self.now.inputs }
        ensures ranges { AreInRange self.now.script self.now.inputs }
    {
        &self.script
    }

    /// The back end.
    pub fn back(&self) -> &B
        ensures { B.work result.now ≡ self.now.work }
    {
        &self.back
    }

    /// Puts a table in the place of that of an input. The transformations that depend on it, directly or through results,
    /// are fresh no longer. It fails only if memory runs out, and then leaves the session as it was.
    pub fn replace(&mut self, alloc: Global, name: &Txt, table: Table) -> Result<(), AllocError>
        requires input { IsInputOf self.old.script name.now (listed table) }
        requires range { AreOfProfile self.old.script.settings table.rows }
        ensures script { self.new.script ≡ self.old.script }
        ensures inputs { OnOk result (self.new.inputs ≡ set_value (same_text name.now) self.old.inputs (listed table)) }
        ensures fresh { OnOk result (self.new.fresh ≡ fresh_without name.now self.old.script self.old.fresh) }
        ensures current { OnOk result (self.new.is_current ≡ false) }
        ensures work { self.new.work ≡ self.old.work }
        ensures err { OnErr result (self.new ≡ self.old) }
    {
        let table = shared(alloc, table)?;
        self.inputs.set(name, table);
        let_go(&self.parts, name, &mut self.results);
        self.outputs = Tables::new(alloc);
        self.is_current = false;
        Ok(())
    }

    /// Runs the transformations that are not fresh, in order, each once and as a script of its own, and answers their
    /// numbers. Then all are fresh, and the outputs are those of the inputs now.
    ///
    /// # Errors
    ///
    /// The fault of the script over the inputs now, with the name of its statement's result: those before the faulty one
    /// are fresh then, and those that were. Or there was not enough memory: those that were fresh are.
    pub fn refresh(&mut self, alloc: Global) -> Result<Vec<usize>, RunErr>
        ensures script { self.new.script ≡ self.old.script }
        ensures inputs { self.new.inputs ≡ self.old.inputs }
        ensures refreshes { Refreshes self.old self.new result }
        ensures current { OnOk result (self.new.is_current ≡ true) }
        ensures err { OnErr result (self.new.is_current ≡ self.old.is_current) }
        ensures work { self.new.work ≤ self.old.work + length (stale_now self.old) }
    {
        let ran = run_stale(
            alloc,
            &mut self.back,
            &self.script,
            &self.parts,
            &self.inputs,
            &mut self.results,
        )?;
        self.outputs = written(alloc, &self.parts, &self.results)?;
        self.is_current = true;
        Ok(ran)
    }

    /// The outputs of the script over the inputs now, in order: after a refresh that had no fault, until an input is
    /// replaced.
    pub fn outputs(&self) -> Option<&Outputs>
        ensures { Lends self.now (option_map (λ o. o.now) result) }
    {
        if self.is_current {
            Some(&self.outputs)
        } else {
            None
        }
    }
}
