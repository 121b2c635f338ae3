// The law that a structures file that is written declares the same.
ghost use Rattle.std.specs.Prelude.{◌≡◌, ◌≤◌, Ok, Some};
ghost use Rattle.vtl_decimal.specs.Settings.{Settings};
ghost use Rattle.vtl_tree.specs.NotNull.{Declared};
ghost use Rattle.vtl_csv.specs.StructuresFile.{structures_of_file};
ghost use Rattle.vtl_csv.specs.StructuresText.{second_text};
ghost use Rattle.structures_laws.specs.Writable.{IsWritable};

/// The text of version 2 of structures declares the same data sets, components and not-null lists, in order, and the profile
/// that it was written with.
pub fn written_structures_are_read_again()
    ensures { (d : Declared) (p : Settings) → IsWritable d → p.scale ≤ 9 → structures_of_file (second_text d p) ≡ Ok (record { structures = d; profile = Some p }) }
{}
