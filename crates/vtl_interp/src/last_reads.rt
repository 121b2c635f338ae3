// Data sets are released after the last statement that reads them.
ghost use Rattle.std.specs.Prelude.{◌≡◌, ◌≤◌, ◌+◌, ◌∷◌, ℕ, List, map, None, IfOk, OnOk};
ghost use Rattle.std.specs.Bool.{OnTrue, OnFalse};
ghost use Rattle.std.specs.List.{AllByRecursion};
ghost use Rattle.vtl_tree.specs.Environment.{data_of};
ghost use Rattle.vtl_tree.specs.NodeView.{node_tree};
ghost use Rattle.vtl_check.specs.Names.{names_in};
ghost use Rattle.vtl_interp.specs.Reads.{AreRead, AreReadThere, IsGone, IsReadFrom, NotedAs};

use crate::held::Known;
use indexmap::IndexMap;
use std::alloc::{AllocError, Global};
use std::slice;
use vtl_check::read_names;
use vtl_text::Txt;
use vtl_tree::Node;

/// For each name that statements read, the place of the last one that reads it.
pub type LastReads = IndexMap<Txt, usize>;

// Notes the names that the expression of a statement reads. Names noted so far are read at no later place.
fn note_reads(alloc: Global, last: &mut LastReads, node: &Node, i: usize) -> Result<(), AllocError>
    ensures new { OnOk result (AllByRecursion (IsReadFrom i last.new.entries) (names_in (node_tree node.now))) }
    ensures old { OnOk result ((j : ℕ) (name : List ℕ) → j ≤ i → IsReadFrom j last.old.entries name → IsReadFrom j last.new.entries name) }
    ensures only { OnOk result (NotedAs last.old.entries i (names_in (node_tree node.now)) last.new.entries) }
{
    let names = read_names(alloc, slice::from_ref(node))?;
    for name in names.as_slice() {
        last.insert(name.share()?, i)?;
    }
    Ok(())
}

/// The last statement that reads each name, from the expressions of all statements. It fails only if memory runs out.
pub fn last_reads(alloc: Global, nodes: &[Node]) -> Result<LastReads, AllocError>
    ensures read { IfOk result (λ last. AreRead last.entries 0 (map node_tree nodes.now)) }
    ensures only { IfOk result (λ last. AreReadThere last.entries (map node_tree nodes.now)) }
{
    let mut last = LastReads::new(alloc);
    for i in 0..nodes.len() {
        note_reads(alloc, &mut last, &nodes[i], i)?;
    }
    Ok(last)
}

fn is_read_behind(last: &LastReads, i: usize, name: &Txt) -> bool
    ensures read { OnTrue result (IsReadFrom (i + 1) last.now.entries name.now) }
    ensures unread { OnFalse result (IsReadFrom (i + 1) last.now.entries name.now → ⊥) }
{
    match last.get(name) {
        Some(place) => *place > i,
        None => false,
    }
}

// Releases the data set of a name, unless a statement after a place reads it.
fn let_go_of(known: &mut Known, last: &LastReads, i: usize, name: &Txt)
    ensures kept { (other : List ℕ) → IsReadFrom (i + 1) last.now.entries other → data_of other known.new.entries ≡ data_of other known.old.entries }
    ensures gone { IsGone (i + 1) last.now.entries known.new.entries name.now }
    ensures no_more { (other : List ℕ) → data_of other known.old.entries ≡ None → data_of other known.new.entries ≡ None }
{
    if !is_read_behind(last, i, name) {
        known.swap_remove(name);
    }
}

// Releases the data sets of names that no statement after a place reads.
fn let_go_each(known: &mut Known, last: &LastReads, i: usize, names: &[Txt])
    ensures kept { (other : List ℕ) → IsReadFrom (i + 1) last.now.entries other → data_of other known.new.entries ≡ data_of other known.old.entries }
    ensures gone { AllByRecursion (IsGone (i + 1) last.now.entries known.new.entries) names.now }
    ensures no_more { (other : List ℕ) → data_of other known.old.entries ≡ None → data_of other known.new.entries ≡ None }
{
    for name in names {
        let_go_of(known, last, i, name);
    }
}

/// Releases what a statement made and read, where no statement after it reads it. It fails only if memory runs out.
pub fn let_go(
    alloc: Global,
    known: &mut Known,
    last: &LastReads,
    i: usize,
    name: &Txt,
    node: &Node,
) -> Result<(), AllocError>
    ensures kept { OnOk result ((other : List ℕ) → IsReadFrom (i + 1) last.now.entries other → data_of other known.new.entries ≡ data_of other known.old.entries) }
    ensures gone { OnOk result (AllByRecursion (IsGone (i + 1) last.now.entries known.new.entries) (name.now ∷ names_in (node_tree node.now))) }
{
    let names = read_names(alloc, slice::from_ref(node))?;
    let_go_of(known, last, i, name);
    let_go_each(known, last, i, names.as_slice());
    Ok(())
}
