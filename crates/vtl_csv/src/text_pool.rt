// Equal texts of a column that share one text.
//
// Equal texts of a column share one text, by slots with a limit, so that a field costs one hash and one comparison at
// most; where most texts of a trial are new, no further one is kept. No contract speaks of it. A field that agrees
// with a text that is held needs no test of its bytes.
ghost use Rattle.std.specs.Prelude.{◌≡◌, vec_len, IfOk, IfSome, Some};
ghost use Rattle.vtl_csv.specs.Declarations.{text_in};

use std::alloc::{AllocError, Global};
use std::hash::{FoldHasher, Hasher};
use std::str;
use vtl_text::Txt;

// A column with fewer texts than this shares none.
const FEW: usize = 64;

// A text is kept in one of this many slots, by its hash, until another one takes the slot.
const SLOTS: usize = 16_384;

// A slot is named by this many bits of a hash fewer than it has.
const UNUSED_BITS: u32 = 50;

// Two words of eight bytes hold a text of at most this many.
const MOST_OF_TWO_WORDS: usize = 16;

// An odd number with bits in no order: a product by it spreads each bit over all those above.
const MIXER: u64 = 0x9e37_79b9_7f4a_7c15;

// After more texts than this, none is shared any more where most of them were new.
const TRIAL: usize = 65_536;

/// Texts of a column that were met lately. What it costs to look for one does not depend on the others.
#[derive(Drop)]
pub struct TextPool {
    slots: Vec<Option<Txt>>,
    // for so many texts more the pool neither looks nor keeps
    idle_for: usize,
    made: usize,
    shared: usize,
}

impl TextPool {
    /// A pool of no texts.
    pub fn new(alloc: Global) -> TextPool {
        TextPool {
            slots: Vec::new(alloc),
            idle_for: FEW,
            made: 0,
            shared: 0,
        }
    }

    /// The text that a field is, shared with an equal one that the pool holds. None where the field is not UTF-8. It
    /// fails only if memory runs out.
    pub fn text(&mut self, alloc: Global, field: &[u8]) -> Result<Option<Txt>, AllocError>
        ensures { IfOk result (λ o. o ≡ text_in field.now) }
    {
        if self.idle_for > 0 {
            self.idle_for -= 1;
            return new_text(alloc, field);
        }
        let place = place_of(field);
        if let Some(held) = self.held(place, field) {
            let text = held.share()?;
            self.shared = self.shared.saturating_add(1);
            return Ok(Some(text));
        }
        let made = new_text(alloc, field)?;
        if let Some(text) = &made {
            self.keep(alloc, place, text.share()?)?;
        }
        Ok(made)
    }

    // The text in a slot, where its bytes are those of the field.
    fn held(&self, place: usize, field: &[u8]) -> Option<&Txt>
        ensures { IfSome result (λ t. Some t.now ≡ text_in field.now) }
    {
        match self.slots.get(place) {
            Some(Some(held)) if held.as_str().as_bytes() == field => Some(held),
            _ => None,
        }
    }

    // Puts a new text into a slot.
    fn keep(&mut self, alloc: Global, place: usize, text: Txt) -> Result<(), AllocError> {
        if self.slots.is_empty() {
            self.slots = no_texts(alloc)?;
        }
        if let Some(slot) = self.slots.get_mut(place) {
            *slot = Some(text);
        }
        self.made = self.made.saturating_add(1);
        if self.made > self.shared && self.made.saturating_add(self.shared) > TRIAL {
            self.give_up(alloc);
        }
        Ok(())
    }

    // Lets go of what is held, and shares no text any more.
    fn give_up(&mut self, alloc: Global) {
        self.slots = Vec::new(alloc);
        self.idle_for = usize::MAX;
    }
}

// The slot of a text.
fn place_of(field: &[u8]) -> usize {
    (hash_of(field) >> UNUSED_BITS) as usize
}

// The hash of a text, whose upper bits are the better ones. One of eight to sixteen bytes is told by the eight at each
// of its ends.
fn hash_of(field: &[u8]) -> u64 {
    if field.len() > MOST_OF_TWO_WORDS {
        return long_hash(field);
    }
    match (field.split_first_chunk(), field.split_last_chunk()) {
        (Some((front, _)), Some((_, back))) => {
            mixed(u64::from_be_bytes(*front), u64::from_be_bytes(*back))
        }
        _ => mixed(field.len() as u64, short_word(field)),
    }
}

// The hash of two words. The lower bits of the second one tell most.
fn mixed(first: u64, second: u64) -> u64 {
    (first.wrapping_mul(MIXER) ^ second).wrapping_mul(MIXER)
}

// Few bytes as a word.
fn short_word(bytes: &[u8]) -> u64 {
    let mut word = 0;
    for byte in bytes {
        word = word << 8 | u64::from(*byte);
    }
    word
}

// The hash of a text of any length.
fn long_hash(field: &[u8]) -> u64 {
    let mut state = FoldHasher::default();
    state.write(field);
    state.finish()
}

// A new text that a field is.
fn new_text(alloc: Global, field: &[u8]) -> Result<Option<Txt>, AllocError>
    ensures { IfOk result (λ o. o ≡ text_in field.now) }
{
    match str::from_utf8(field) {
        Ok(text) => Ok(Some(Txt::new(alloc, text)?)),
        Err(_) => Ok(None),
    }
}

// Slots with nothing in them.
fn no_texts(alloc: Global) -> Result<Vec<Option<Txt>>, AllocError> {
    let mut slots = Vec::with_capacity(alloc, SLOTS)?;
    for _ in 0..SLOTS {
        slots.push(None)?;
    }
    Ok(slots)
}

/// A pool for each of this many columns. It fails only if memory runs out.
pub fn pools(alloc: Global, count: usize) -> Result<Vec<TextPool>, AllocError>
    ensures { IfOk result (λ pools. vec_len pools ≡ count) }
{
    let mut pools = Vec::with_capacity(alloc, count)?;
    for _ in 0..count {
        pools.push(TextPool::new(alloc))?;
    }
    Ok(pools)
}
