// Laws of columns in sources.
ghost use Rattle.std.specs.Option.{option_map};
ghost use Rattle.std.specs.Prelude.{◌≡◌, slice_index_or};
ghost use Rattle.sql_tree.specs.declared.parts.Column.{Column};
ghost use Rattle.sql_check_parts.specs.Scopes.{Sources, each_value, found, placed, row_of};

/// What is found of a column among mapped values is the mapped value that is found.
#[tactic(auto, using(sql_check_parts::proofs::Places::found_mapped))]
pub fn found_values_are_mapped<V, W>()
    ensures { (f : V → W) (sources : Sources V) (c : Column) → found (each_value (each_value f) sources) c ≡ option_map f (found sources c) }
{}

/// What is found of a column stands at its place in the row of FROM, and it has a place where anything is found.
pub fn columns_have_places<V>()
    ensures { (d : V) (sources : Sources V) (c : Column) → found sources c ≡ option_map (λ i. slice_index_or (row_of sources) i d) (found (placed sources) c) }
{}
