ghost use Rattle.std.specs.Prelude.{◌≡◌, ◌<◌, List, ℕ, Some, None, OnOk, OnErr, IfSome, IfNone, length, slice_get, string_bytes};
ghost use Rattle.std.specs.Option.{option_map};
ghost use Rattle.vtl_files.specs.Outside.{bytes_at, append_last};

use std::alloc::AllocError;
use std::marker::Model;

/// A file in memory, which contracts see as its name and its bytes.
#[derive(Debug, Drop)]
pub struct MemFile {
    pub name: String,
    pub bytes: Vec<u8>,
}

impl Model for MemFile {
    ghost Value = { List ℕ × List ℕ };

    ghost view = { λ file. (string_bytes file.name, file.bytes.items) };
}

// The first file of this name, by its place.
pub(crate) fn place_of(files: &[MemFile], name: &str) -> Option<usize>
    ensures found { IfSome result (λ place. bytes_at name.now files.now ≡ option_map (λ file. file.1) (slice_get files.now place)) }
    ensures within { IfSome result (λ place. place < length files.now) }
    ensures none { IfNone result (bytes_at name.now files.now ≡ None) }
{
    for (place, file) in files.iter().enumerate() {
        if file.name.as_str() == name {
            return Some(place);
        }
    }
    None
}

// Appends to the last file.
pub(crate) fn append_to_last(files: &mut Vec<MemFile>, bytes: &[u8]) -> Result<(), AllocError>
    ensures ok { OnOk result (files.new.items ≡ append_last bytes.now files.old.items) }
    ensures err { OnErr result (files.new.items ≡ files.old.items) }
{
    match files.last_mut() {
        Some(file) => file.bytes.extend_from_slice(bytes),
        None => Ok(()),
    }
}
