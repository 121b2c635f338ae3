// Items by name, in order.
ghost use Rattle.std.specs.List.{list_any};
ghost use Rattle.std.specs.Map.{keys_of, lookup, set_value};
ghost use Rattle.std.specs.Option.{option_copied, option_to_list};
ghost use Rattle.std.specs.Prelude.{◌≡◌, ◌<◌, ◌++◌, [], ◌∷◌, false, length, slice_get, Some, IfNone, OnErr, OnOk};
ghost use Rattle.vtl_text.specs.NamedItems.{place_of};
ghost use Rattle.vtl_text.specs.Texts.{same_text};

use crate::shared_text::Txt;
use std::alloc::{AllocError, Global};
use std::collections::BTreeMap;
use std::marker::Model;
use std::mem;

/// Items by name, in the order in which they were put. A contract sees the list of the names, each with its item. It
/// goes by the order of names, so no choice of names makes a look-up longer than the logarithm of their number.
pub struct ByName<T> {
    entries: Vec<(Txt, T)>,
    places: BTreeMap<Txt, usize>,
}

// Written out, so that a proof above sees one call and not the drop of each part.
impl<T: Drop> Drop for ByName<T> {
    fn drop(self) {
        let ByName {
            entries: _entries,
            places: _places,
        } = self;
    }
}

impl<T> Model for ByName<T> {
    ghost use Rattle.std.specs.Prelude.{List, ℕ};
    ghost use Rattle.vtl_text.specs.NamedItems.{AreNamed};

    ghost Value = { List (List ℕ × T) };

    ghost view = { λ b. b.entries.items };

    ghost invariant = { λ b. AreNamed b.entries.items b.places };
}

impl<T: Drop> ByName<T> {
    /// No items.
    pub fn new(alloc: Global) -> ByName<T>
        ensures { result ≡ [] }
    {
        ByName {
            entries: Vec::new(alloc),
            places: BTreeMap::new(alloc),
        }
    }

    /// How many items there are.
    pub fn len(&self) -> usize
        ensures { result ≡ length self.now }
    {
        self.entries.len()
    }

    // The place of a name.
    fn place(&self, name: &Txt) -> Option<usize>
        ensures { result ≡ place_of name.now self.now }
    {
        self.places.get(name).copied()
    }

    /// Puts an item after the others, under a name that none has yet. It fails only if memory runs out, and then leaves
    /// them as they were.
    pub fn put(&mut self, name: Txt, item: T) -> Result<(), AllocError>
        requires { list_any (same_text name) (keys_of self.old) ≡ false }
        ensures put { OnOk result (self.new ≡ self.old ++ (name, item) ∷ []) }
        ensures err { OnErr result (self.new ≡ self.old) }
    {
        self.entries.reserve(1)?;
        self.places.insert(name.share()?, self.entries.len())?;
        self.entries.push((name, item))?;
        Ok(())
    }

    /// The item of a name, if there is one.
    pub fn get(&self, name: &Txt) -> Option<&T>
        ensures { option_copied result ≡ lookup (same_text name.now) self.now }
    {
        let place = self.place(name)?;
        let (_, item) = &self.entries[place];
        Some(item)
    }

    /// Whether an item has this name.
    pub fn has(&self, name: &Txt) -> bool
        ensures { result ≡ list_any (same_text name.now) (keys_of self.now) }
    {
        self.place(name).is_some()
    }

    /// The name and the item at a place.
    pub fn at(&self, i: usize) -> (&Txt, &T)
        requires { i < length self.now }
        ensures { slice_get self.now i ≡ Some (result.0.now, result.1.now) }
    {
        let (name, item) = &self.entries[i];
        (name, item)
    }

    /// Puts an item in place of the one of a name, and gives that one. Where none has the name, all stay as they are.
    pub fn replace(&mut self, name: &Txt, item: T) -> Option<T>
        ensures replaced { self.new ≡ set_value (same_text name.now) self.old item }
        ensures before { result ≡ lookup (same_text name.now) self.old }
    {
        let place = self.place(name)?;
        let entry = &mut self.entries[place];
        Some(mem::replace(&mut entry.1, item))
    }
    /// Takes the last item, with its name, where there is one. It takes no memory.
    pub fn pop(&mut self) -> Option<(Txt, T)>
        ensures last { self.old ≡ self.new ++ option_to_list result }
        ensures none { IfNone result (self.new ≡ []) }
    {
        let (name, item) = self.entries.pop()?;
        self.places.remove(&name);
        Some((name, item))
    }
}
