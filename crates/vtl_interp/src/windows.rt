// Whether expressions have windows that go along identifiers.

use vtl_text::Txt;
use vtl_tree::{
    AnalyticSpec, CalcItem, CalcValue, Node, NodeForm, Role, Structure, Window, is_same_role,
};
use vtl_walks::operands;

// Whether a structure has an identifier of this name.
fn is_identifier(structure: &Structure, name: &Txt) -> bool {
    for component in structure.components.as_slice() {
        if component.name == *name {
            return is_same_role(component.role, Role::Identifier);
        }
    }
    false
}

// Whether a window cuts and orders the points of this structure by identifiers alone.
fn goes_along_identifiers(window: &Window, structure: &Structure) -> bool {
    for name in window.partition.as_slice() {
        if !is_identifier(structure, name) {
            return false;
        }
    }
    for key in window.order.as_slice() {
        if !is_identifier(structure, &key.component) {
            return false;
        }
    }
    true
}

// The same of the window of a target of `calc`, if it has one.
fn target_goes_along_identifiers(item: &CalcItem, structure: &Structure) -> bool {
    match &item.value {
        CalcValue::Scalar(_) => false,
        CalcValue::Analytic(call) => goes_along_identifiers(&call.window, structure),
    }
}

// The same of any window of an operator on points of this structure.
fn any_goes_along_identifiers(spec: &AnalyticSpec, structure: &Structure) -> bool {
    match spec {
        AnalyticSpec::Measures { op: _, window } => goes_along_identifiers(window, structure),
        AnalyticSpec::Calc(items) => {
            for item in items.as_slice() {
                if target_goes_along_identifiers(item, structure) {
                    return true;
                }
            }
            false
        }
    }
}

/// Whether any of these expressions has a window that goes along identifiers, at its head or in an operand.
pub(crate) fn have_window(nodes: &[Node]) -> bool {
    for node in nodes {
        if has_window(node) {
            return true;
        }
    }
    false
}

// Whether a node has one itself.
fn goes_along(node: &Node) -> bool {
    match &node.form {
        NodeForm::Analytic { a, spec } => any_goes_along_identifiers(spec, &a.structure),
        _ => false,
    }
}

fn has_window(node: &Node) -> bool {
    let operands = operands(node);
    for i in 0..operands.len() {
        if has_window(operands.nth(i)) {
            return true;
        }
    }
    goes_along(node)
}
