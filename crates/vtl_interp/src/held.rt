// What a run holds.
use indexmap::IndexMap;
use vtl_rows::Outputs;
use vtl_sets::DataSet;
use vtl_text::Txt;

/// The data sets that later statements read, inputs and results so far, by name.
pub type Known = IndexMap<Txt, DataSet>;

/// The data sets that a run holds, and the tables of the results so far that are written.
#[derive(Drop)]
pub struct Held {
    pub known: Known,
    pub outputs: Outputs,
}
