//! CSV texts: the structures that a structures file declares, the data set that a file holds, and the texts of data
//! sets and tables.
//!
//! Of all the crates below the program it alone knows a text format of data sets. It decides which bytes hold a data
//! set of a structure, which fault of a file is reported, and in which order and with which bytes points are written.
//! Where files lie, and what is done with data sets, is left to others.
//! It knows no operator, no expression and no script.
//! Begin with specs/InputFile and specs/CsvText, then `dataset.rt` and `table_text.rt`.
//!
//! The form of a file is defined on the records that `csv` reads (`records`, any width, no header), whatever their
//! quotes and line ends: a line is the number of a record, and a wrong number of fields is a matter of the form, not
//! an error of `csv`.
#![tactic(auto)]

mod dataset;
mod declarations;
mod fields;
mod file_column;
mod header;
mod input;
mod input_fields;
mod input_laws;
mod laws;
mod opening;
mod plain_integers;
mod plain_lines;
mod reading;
mod record_text;
mod records;
mod repeats;
mod row_text;
mod structures;
mod structures_text;
mod table_text;
mod text_pool;
mod version;

pub use dataset::read_dataset;
pub use fields::Fields;
pub use input::{InputErr, InputKind};
pub use input_laws::{
    read_rows_are_a_data_set, read_rows_are_of_the_profile, reading_asks_for_identifiers_alone,
    reading_is_determined,
};
pub use laws::{
    data_sets_are_read_again, output_rises_by_identifiers, points_are_written_in_one_order,
    tables_by_identifiers_are_data_sets,
};
pub use reading::column;
pub use records::RecordReader;
pub use structures::{Declared, StructErr, read_structures};
pub use structures_text::write_structures;
pub use table_text::{write_dataset, write_rows, write_table};
