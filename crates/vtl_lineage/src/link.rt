// One line of a lineage.

use vtl_text::Txt;

/// A component of an output, and a component of a data set that it depends on.
#[derive(Drop)]
pub struct Link {
    /// The name of the output.
    pub output: Txt,
    /// The name of its component.
    pub component: Txt,
    /// The name of a data set that is read.
    pub dataset: Txt,
    /// The name of the component of it.
    pub source: Txt,
}
