// A few slots for the places of keys whose hashes have the same end.
ghost use Rattle.std.specs.Prelude.{◌≡◌};
ghost use Rattle.std.specs.List.{list_any};
ghost use Rattle.vtl_index.specs.Buckets.{filled, is_free};

// This many keys go by hash in a bucket; with more, the cost would depend on luck.
pub(crate) const SLOTS: usize = 8;

// No place.
const NOWHERE: usize = usize::MAX;

// The hash of a key and its place.
#[derive(Clone, Copy)]
pub(crate) struct Slot {
    pub(crate) hash: u64,
    pub(crate) place: usize,
}

#[derive(Clone, Copy)]
pub(crate) struct Bucket {
    pub(crate) slots: [Slot; SLOTS],
}

impl Slot {
    // A slot that holds no key.
    pub(crate) fn free() -> Slot {
        Slot {
            hash: 0,
            place: NOWHERE,
        }
    }

    pub(crate) fn is_free(&self) -> bool
        ensures { result ≡ is_free self.now }
    {
        self.place == NOWHERE
    }
}

// Fills the first free slot, where there is one.
#[tactic(auto, using(crate::proofs::Slots::filled_here))]
pub(crate) fn fill(slots: &mut [Slot], slot: Slot) -> bool
    ensures filled { slots.new ≡ filled slot slots.old }
    ensures found { result ≡ list_any is_free slots.old }
{
    for i in 0..slots.len() {
        if slots[i].is_free() {
            slots[i] = slot;
            return true;
        }
    }
    false
}

// Whether a slot is free.
pub(crate) fn has_free(slots: &[Slot]) -> bool
    ensures { result ≡ list_any is_free slots.now }
{
    slots.iter().any(|slot| slot.is_free())
}
