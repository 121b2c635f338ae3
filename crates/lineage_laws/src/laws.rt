// What results depend on suffices.
ghost use Rattle.std.specs.Prelude.{◌≡◌, List, Ok};
ghost use Rattle.vtl_decimal.specs.Settings.{Settings};
ghost use Rattle.vtl_tree.specs.Environment.{Environment, known_in};
ghost use Rattle.vtl_scripts.specs.Made.{AreMadeStatements};
ghost use Rattle.vtl_scripts.specs.Meaning.{AreDataSets, Outputs, Statement, meaning};
ghost use Rattle.vtl_sources.specs.Links.{inputs_lineage};
ghost use Rattle.lineage_laws.specs.Agree.{Known};
ghost use Rattle.lineage_laws.specs.Inputs.{SameInputs, SameOutputs};
ghost use Rattle.lineage_laws.specs.Over.{outputs_lineage};

/// Where two lists of inputs agree in some components, and a script has a fault on neither, each output is the same in
/// each component all of whose sources are among them. Inputs agree where each data set of which one of these
/// components is, and each without identifiers, has the same points in its identifiers and these components; an output
/// is the same where its identifiers and the component have the same points.
pub fn sources_suffice()
    ensures { (p : Settings) (ss : List Statement) (env other : Environment) (known : Known) → AreMadeStatements p (known_in env) ss → AreDataSets env → AreDataSets other → SameInputs known env other → (out outs : Outputs) → meaning p ss env ≡ Ok out → meaning p ss other ≡ Ok outs → SameOutputs known (outputs_lineage (inputs_lineage (known_in env)) ss) out outs }
{}
