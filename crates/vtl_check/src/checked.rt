// Scripts that are typed.
//
// `Checked` keeps that its script is written, by a predicate on trees (`AreWritten`) that names no token, since
// typing does not stand on the grammar. `parse` gives it, `check` asks for it.
ghost use Rattle.std.specs.Map.{keys_of, lookup};
ghost use Rattle.std.specs.Option.{option_copied};
ghost use Rattle.std.specs.Prelude.{◌≡◌, IfOk, length, map};
ghost use Rattle.vtl_syntax.specs.View.{script_tree, statement_tree};
ghost use Rattle.vtl_syntax.specs.Written.{AreWritten};
ghost use Rattle.vtl_tree.specs.NodeView.{node_tree};
ghost use Rattle.vtl_tree.specs.NotNull.{HaveLists, not_null_of};
ghost use Rattle.vtl_tree.specs.Structure.{same_name};
ghost use Rattle.vtl_tree.specs.Structures.{AreStructures};
ghost use Rattle.vtl_check.specs.Checked.{AreUses, IsTyped, TypedScript, env_over, inputs_of, known_of, nodes_of, outputs_of, tree_of, typed_script};
ghost use Rattle.vtl_check.specs.Transformations.{transformations};
ghost use Rattle.vtl_check.specs.Uses.{outputs_in, reads, results_behind};
ghost use Rattle.vtl_check.specs.Script.{Checks, script_typed};

use crate::CheckErr;
use crate::known::{share_lists, share_structures};
use crate::script::typed_statements;
use crate::uses::{Uses, uses_of};
use check_operators::Scope;
use std::alloc::{AllocError, Global};
use std::marker::Model;
use vtl_decimal::Profile;
use vtl_syntax::{Script, Statement};
use vtl_text::{ByName, List, Txt};
use vtl_tree::{Node, Structure, Structures};

/// A script that is written and typed over declared structures, with its nodes. The script is shared.
#[derive(Drop)]
pub struct Checked {
    script: Script,
    declared: ByName<Structure>,
    lists: ByName<List<Txt>>,
    profile: Profile,
    nodes: Vec<Node>,
    uses: Uses,
}

impl Model for Checked {
    ghost use Rattle.std.specs.Coded.{codes};
    ghost use Rattle.std.specs.Prelude.{◌≡◌, length, map};
    ghost use Rattle.vtl_tree.specs.NotNull.{HaveLists};
    ghost use Rattle.vtl_tree.specs.Structures.{AreStructures};
    ghost use Rattle.vtl_check.specs.Checked.{AreUses, IsTyped, TypedScript};
    ghost use Rattle.vtl_check.specs.Transformations.{transformations};
    ghost use Rattle.vtl_syntax.specs.View.{statement_tree};
    ghost use Rattle.vtl_syntax.specs.Written.{AreWritten};
    ghost use Rattle.vtl_syntax.specs.contracts.statements.Statement as s;
    ghost use Rattle.vtl_tree.specs.contracts.nodes.Node as n;

    ghost Value = { TypedScript };

    ghost coded = { Prim.hlevel (codes, s.the_row.coded, n.the_row.coded) };

    ghost view = { λ c. record { script = c.script.statements; declared = c.declared; not_null = c.lists; settings = c.profile; nodes = c.nodes.items } };

    ghost invariant = { λ c.
        IsTyped (record { script = c.script.statements; declared = c.declared; not_null = c.lists; settings = c.profile; nodes = c.nodes.items })
        × AreUses (record { script = c.script.statements; declared = c.declared; not_null = c.lists; settings = c.profile; nodes = c.nodes.items }) c.uses
        × AreStructures c.declared
        × HaveLists c.declared c.lists
        × AreWritten (map statement_tree c.script.statements)
        × (length c.nodes.items ≡ length (transformations (map statement_tree c.script.statements))) };
}

impl Checked {
    /// A written script that is typed over these structures with these nodes, one for each transformation. The script
    /// is shared. It fails only if memory runs out.
    #[tactic(auto, using(crate::proofs::ScriptLemmas::as_many_nodes, crate::proofs::ScriptLemmas::typed_parts, crate::proofs::ScriptLemmas::written_shared))]
    pub fn of(
        alloc: Global,
        script: &Script,
        structures: &Structures,
        nodes: Vec<Node>,
        profile: &Profile,
    ) -> Result<Checked, AllocError>
        requires written { AreWritten (script_tree script.now) }
        requires typed { IsTyped (typed_script script.now structures.now profile.now nodes.items) }
        ensures { IfOk result (λ c. c ≡ typed_script script.now structures.now profile.now nodes.items) }
    {
        match parts_of(alloc, script, structures, &nodes) {
            Ok(
                Parts {
                    script,
                    declared,
                    lists,
                    uses,
                },
            ) => Ok(Checked {
                script,
                declared,
                lists,
                profile: *profile,
                nodes,
                uses,
            }),
            Err(error) => Err(error),
        }
    }

    /// The script.
    pub fn script(&self) -> &Script
        ensures { result.now.statements ≡ self.now.script }
    {
        &self.script
    }

    /// The statements of the script.
    pub fn statements(&self) -> &[Statement]
        ensures { result.now ≡ self.now.script }
    {
        self.script.statements.as_slice()
    }

    /// The nodes of the transformations, in order.
    pub fn nodes(&self) -> &[Node]
        ensures nodes { result.now ≡ self.now.nodes }
        ensures typed { IsTyped self.now }
        ensures written { AreWritten (tree_of self.now) }
        ensures declared { AreStructures self.now.declared }
        ensures as_many { length result.now ≡ length (transformations (tree_of self.now)) }
    {
        self.nodes.as_slice()
    }

    /// The declared structures, in order, with their not-null lists as `not_null` gives them.
    pub fn declared(&self) -> &ByName<Structure>
        ensures declared { result.now ≡ self.now.declared }
        ensures structures { AreStructures self.now.declared }
        ensures lists { HaveLists self.now.declared self.now.not_null }
    {
        &self.declared
    }

    /// How numbers are read and rounded.
    pub fn profile(&self) -> &Profile
        ensures { result.now ≡ self.now.settings }
    {
        &self.profile
    }

    /// The names of the declared data sets that the script reads, in order of first use.
    pub fn inputs(&self) -> &[Txt]
        ensures { result.now ≡ inputs_of self.now }
    {
        &self.uses.inputs
    }

    /// The names of the results that the script writes with `<-`, in order.
    pub fn outputs(&self) -> &[Txt]
        ensures { result.now ≡ outputs_of self.now }
    {
        &self.uses.outputs
    }

    /// The structure of a declared data set that the script reads, or of a result. There is none for another name.
    pub fn structure(&self, name: &Txt) -> Option<&Structure>
        ensures { option_copied result ≡ lookup (same_name name.now) (known_of self.now) }
    {
        self.uses.known.get(name)
    }

    /// The names of the components of a declared data set that are never null, besides its identifiers; none for another
    /// name.
    pub fn not_null(&self, name: &Txt) -> &[Txt]
        ensures { result.now ≡ not_null_of name.now self.now.not_null }
    {
        match self.lists.get(name) {
            Some(list) => list.as_slice(),
            None => &[],
        }
    }
}

// What a typed script holds besides its nodes.
#[derive(Drop)]
struct Parts {
    script: Script,
    declared: ByName<Structure>,
    lists: ByName<List<Txt>>,
    uses: Uses,
}

// What a script holds besides its nodes. The nodes are borrowed, so that nothing here has to drop them.
fn parts_of(
    alloc: Global,
    script: &Script,
    structures: &Structures,
    nodes: &[Node],
) -> Result<Parts, AllocError>
    requires { length nodes.now ≡ length (transformations (map statement_tree script.now.statements)) }
    ensures script { IfOk result (λ p. p.script.statements ≡ script.now.statements) }
    ensures declared { IfOk result (λ p. p.declared ≡ structures.now.sets) }
    ensures structures { IfOk result (λ p. AreStructures p.declared) }
    ensures lists { IfOk result (λ p. p.lists ≡ structures.now.not_null) }
    ensures fit { IfOk result (λ p. HaveLists p.declared p.lists) }
    ensures known { IfOk result (λ p. p.uses.known ≡ results_behind (reads structures.now.sets (map node_tree nodes.now)) (transformations (map statement_tree script.now.statements)) (map node_tree nodes.now)) }
    ensures inputs { IfOk result (λ p. p.uses.inputs.items ≡ keys_of (reads structures.now.sets (map node_tree nodes.now))) }
    ensures outputs { IfOk result (λ p. p.uses.outputs.items ≡ outputs_in (transformations (map statement_tree script.now.statements))) }
{
    let declared = share_structures(alloc, structures)?;
    let lists = share_lists(structures)?;
    let uses = uses_of(alloc, &declared, script.statements.as_slice(), nodes)?;
    let script = script.share()?;
    Ok(Parts {
        script,
        declared,
        lists,
        uses,
    })
}

/// The typing of a script over declared structures (VTL 2.0; docs/TYPES.md): the script with its nodes, or the first
/// statement that breaks a rule, and the least rule that its first wrong part breaks. It takes a written script,
/// and shares it.
pub fn check(
    alloc: Global,
    script: &Script,
    structures: &Structures,
    profile: &Profile,
) -> Result<Checked, CheckErr>
    requires written { AreWritten (script_tree script.now) }
    ensures typing { Checks nodes_of result (script_typed (env_over profile.now structures.now.sets) (script_tree script.now)) }
    ensures script { IfOk result (λ c. c.script ≡ script.now.statements) }
    ensures declared { IfOk result (λ c. c.declared ≡ structures.now.sets) }
    ensures lists { IfOk result (λ c. c.not_null ≡ structures.now.not_null) }
    ensures settings { IfOk result (λ c. c.settings ≡ profile.now) }
{
    let known = share_structures(alloc, structures)?;
    let scope = Scope {
        profile: *profile,
        known,
    };
    let nodes = typed_statements(alloc, scope, script.statements.as_slice())?;
    Ok(Checked::of(alloc, script, structures, nodes, profile)?)
}
