// Columns of a structure, and their names.
//
// The definition goes line by line; the code does not: it takes rows up to the first flaw and then asks the table
// once for the first repeat of identifiers. That the two agree is the lemma `outcome_is`.
ghost use Rattle.std.specs.Prelude.{◌≡◌, ◌<◌, length, slice_index_or, encode_utf8_all};
ghost use Rattle.vtl_tree.specs.Shown.{shown};
ghost use Rattle.vtl_tree.specs.Structure.{same_name};

use vtl_text::Txt;
use vtl_tree::Component;

/// The column at a place.
pub fn column<'a>(columns: &[&'a Component], i: usize) -> &'a Component
    requires { i < length columns.now }
    ensures { result.now ≡ slice_index_or (shown columns.now) i result.now }
{
    columns[i]
}

/// Whether a field is a text in UTF-8.
pub fn is_same_text(text: &Txt, field: &[u8]) -> bool
    ensures { result ≡ same_name field.now (encode_utf8_all text.now) }
{
    field == text.as_str().as_bytes()
}
