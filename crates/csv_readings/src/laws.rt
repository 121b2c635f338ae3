// The law that what is read is what holds.
ghost use Rattle.std.specs.Prelude.{◌≡◌, List};
ghost use Rattle.vtl_lists.specs.Aliases.{Bytes, Name};
ghost use Rattle.vtl_decimal.specs.Settings.{Settings};
ghost use Rattle.vtl_tree.specs.declared.structure.Structure.{Structure};
ghost use Rattle.vtl_csv.specs.InputFile.{dataset_rows};
ghost use Rattle.csv_readings.specs.Lines.{rows_in_file};

/// A CSV file holds the rows of the lines behind its header, or the first line with a flaw.
pub fn files_are_read_line_by_line()
    ensures { (p : Settings) (s : Structure) (not_null : List Name) (text : Bytes) → rows_in_file p s not_null text ≡ dataset_rows p s not_null text }
{}
