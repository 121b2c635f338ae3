// The statements, one after the other, and their links.
ghost use Rattle.std.specs.Option.{option_copied};
ghost use Rattle.std.specs.Prelude.{◌≡◌, ◌++◌, ◌∷◌, [], IfOk, OnOk, cond, length, map, slice_get};
ghost use Rattle.vtl_check.specs.Transformations.{transformations};
ghost use Rattle.vtl_syntax.specs.View.{statement_tree};
ghost use Rattle.vtl_tree.specs.NodeView.{node_tree};
ghost use Rattle.vtl_backend.specs.Statements.{is_written, with_nodes};
ghost use Rattle.vtl_sources.specs.Lineage.{lineage, with_sources};
ghost use Rattle.vtl_sources.specs.Links.{linked};
ghost use Rattle.vtl_lineage.specs.Numbers.{merged};
ghost use Rattle.vtl_lineage.specs.Shown.{all_links, lent_pairs, numbered_links, output_links, pair_lent, shown_link, shown_links, statement_links};
ghost use Rattle.vtl_lineage.specs.Statements.{result_named};

use crate::inputs::Pair;
use crate::link::Link;
use crate::nodes::{Known, trace};
use crate::numbers::joined;
use crate::operand::{Found, Operand};
use std::alloc::{AllocError, Global};
use vtl_syntax::{AssignKind, Statement};
use vtl_text::Txt;
use vtl_tree::Node;

fn pair_at<'b, 'a>(pairs: &'b [Pair<'a>], number: usize) -> Option<&'b Pair<'a>>
    ensures { option_copied result ≡ slice_get pairs.now number }
{
    pairs.get(number)
}

fn link(output: &Txt, component: &Txt, pair: &Pair) -> Result<Link, AllocError>
    ensures { IfOk result (λ l. shown_link l ≡ linked output.now component.now (pair_lent pair.now)) }
{
    let (dataset, source) = pair;
    Ok(Link {
        output: output.share()?,
        component: component.share()?,
        dataset: dataset.share()?,
        source: source.share()?,
    })
}

// Puts the link to the pair of a number behind others, where there is one.
fn push_numbered(
    links: &mut Vec<Link>,
    pairs: &[Pair],
    output: &Txt,
    component: &Txt,
    number: usize,
) -> Result<(), AllocError>
    ensures { OnOk result (shown_links links.new.items ≡ shown_links links.old.items ++ numbered_links (lent_pairs pairs.now) output.now (number ∷ []) component.now) }
{
    match pair_at(pairs, number) {
        Some(pair) => {
            links.push(link(output, component, pair)?)?;
            Ok(())
        }
        None => Ok(()),
    }
}

// Puts the links of a component behind others.
fn push_component(
    links: &mut Vec<Link>,
    pairs: &[Pair],
    output: &Txt,
    component: &Txt,
    numbers: &[usize],
) -> Result<(), AllocError>
    ensures { OnOk result (shown_links links.new.items ≡ shown_links links.old.items ++ numbered_links (lent_pairs pairs.now) output.now numbers.now component.now) }
{
    for number in numbers {
        push_numbered(links, pairs, output, component, *number)?;
    }
    Ok(())
}

// Puts the links of an output behind others.
fn push_output(
    alloc: Global,
    links: &mut Vec<Link>,
    pairs: &[Pair],
    output: &Txt,
    d: &Operand,
) -> Result<(), AllocError>
    ensures { OnOk result (shown_links links.new.items ≡ shown_links links.old.items ++ output_links (lent_pairs pairs.now) output.now d.now) }
{
    let columns = d.structure().columns(alloc)?;
    for column in &columns {
        let set = joined(alloc, d.points(), d.source_named(&column.name))?;
        push_component(links, pairs, output, &column.name, set.as_slice())?;
    }
    Ok(())
}

/// Puts what a data set depends on in the place of one of its name, or behind the others.
pub fn hold(known: &mut Known, name: &Txt, found: Found) -> Result<(), AllocError>
    ensures { OnOk result (known.new ≡ with_sources known.old name.now found) }
{
    if known.has(name) {
        known.replace(name, found);
        return Ok(());
    }
    known.put(name.share()?, found)
}

// Puts the links of a result behind others, where it is written.
fn push_written(
    alloc: Global,
    links: &mut Vec<Link>,
    pairs: &[Pair],
    name: &Txt,
    kind: AssignKind,
    d: &Operand,
) -> Result<(), AllocError>
    ensures { OnOk result (shown_links links.new.items ≡ shown_links links.old.items ++ cond (is_written kind) (output_links (lent_pairs pairs.now) name.now d.now) []) }
{
    match kind {
        AssignKind::Persistent => push_output(alloc, links, pairs, name, d),
        AssignKind::Temporary => Ok(()),
    }
}

// Puts the links of a statement behind others, and what its result depends on to what is known.
fn add_result(
    alloc: Global,
    known: &mut Known,
    links: &mut Vec<Link>,
    pairs: &[Pair],
    name: &Txt,
    kind: AssignKind,
    node: &Node,
) -> Result<(), AllocError>
    ensures links { OnOk result (shown_links links.new.items ≡ shown_links links.old.items ++ statement_links (lent_pairs pairs.now) known.old (result_named name.now kind (node_tree node.now))) }
    ensures known { OnOk result (known.new ≡ with_sources known.old name.now (lineage merged [] known.old (node_tree node.now))) }
{
    let d = trace(alloc, known, node)?;
    push_written(alloc, links, pairs, name, kind, &d)?;
    hold(known, name, d.into_found())
}

/// Puts the links of statements behind others. A definition has no node.
pub fn push_links(
    alloc: Global,
    known: &mut Known,
    links: &mut Vec<Link>,
    pairs: &[Pair],
    statements: &[Statement],
    nodes: &[Node],
) -> Result<(), AllocError>
    requires { length nodes.now ≡ length (transformations (map statement_tree statements.now)) }
    ensures { OnOk result (shown_links links.new.items ≡ shown_links links.old.items ++ all_links (lent_pairs pairs.now) known.old (with_nodes (transformations (map statement_tree statements.now)) (map node_tree nodes.now))) }
{
    let mut place = 0;
    for statement in statements {
        let Statement::Assignment { name, kind, .. } = statement else {
            continue;
        };
        add_result(alloc, known, links, pairs, name, *kind, &nodes[place])?;
        place += 1;
    }
    Ok(())
}
