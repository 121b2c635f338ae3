// For each row of a table the first row that has its key, and for any key the first row that has it.
ghost use Rattle.std.specs.Prelude.{◌≡◌, ◌<◌, ◌≤◌, ◌^◌, IfOk, IfSome};
ghost use Rattle.std.specs.Bool.{OnTrue};
ghost use Rattle.vtl_index.specs.Finders.{IsFinder, IsLed, IsLedUpTo, hashing_of, leads_in};
ghost use Rattle.vtl_index.specs.FirstRows.{FindsFirst, IsKeyOrder};
ghost use Rattle.vtl_index.specs.RowKeys.{count_in, hash_by, key_of, keys_in};

use crate::row_keys::{Hashing, KeyedRows, RowKey};
use crate::row_order::{find_in_order, order_of};
use crate::row_slots::RowSlots;
use std::alloc::{AllocError, Global};

// The keys of this many rows are hashed, and what they are looked for in is fetched side by side, before one of them is
// looked for.
pub(crate) const BLOCK: usize = 32;

// Rows mostly have few keys where they are grouped. Slots for so many stay near the processor, and are tried first.
const FEW_KEYS: usize = 8_192;

// How keys are found.
#[derive(Drop)]
pub(crate) enum Finder {
    ByHash(RowSlots),
    InOrder(Vec<usize>),
}

impl Finder {
    // How it hashes keys; where it needs no hash, any will do.
    pub(crate) fn hashing(&self) -> Hashing
        ensures { result ≡ hashing_of self.now }
    {
        match self {
            Finder::ByHash(slots) => slots.hashing,
            Finder::InOrder(_order) => Hashing::Plain,
        }
    }

    // The first row that has a key, of which this is the hash. It looks at no more than a fixed number of slots, or at
    // the logarithm of the number of rows.
    pub(crate) fn find(&self, keyed: &KeyedRows, key: &RowKey, hash: u64) -> Option<usize>
        requires hash { hash ≡ hash_by (hashing_of self.now) (key_of key.now) }
        requires finds { IsFinder (keys_in keyed.now) (count_in keyed.now) self.now }
        ensures { FindsFirst (keys_in keyed.now) (count_in keyed.now) (key_of key.now) result }
    {
        match self {
            Finder::ByHash(slots) => slots.find(keyed, key, hash),
            Finder::InOrder(order) => find_in_order(order, keyed, key),
        }
    }

    // A sum over what keys of these hashes are looked for in, as in `RowSlots::fetched`.
    pub(crate) fn fetched(&self, keyed: &KeyedRows, hashes: &[u64]) -> usize {
        match self {
            Finder::ByHash(slots) => slots.fetched(keyed, hashes),
            Finder::InOrder(_order) => 0,
        }
    }
}

// The lead of each row, which is the first row that has its key, and how the lead of any key is found.
#[derive(Drop)]
pub(crate) struct Led {
    pub(crate) leads: Vec<usize>,
    pub(crate) finder: Finder,
}

impl Led {
    // The leads alone.
    pub(crate) fn into_leads(self) -> Vec<usize>
        ensures { result.items ≡ self.leads.items }
    {
        let Led {
            leads,
            finder: _finder,
        } = self;
        leads
    }
}

// The leads of the rows from one up to another, behind those of the rows before. False where that is given up.
fn push_leads(
    keyed: &KeyedRows,
    first: usize,
    end: usize,
    slots: &mut RowSlots,
    hashes: &mut Vec<u64>,
    leads: &mut Vec<usize>,
) -> Result<bool, AllocError>
    requires few { count_in keyed.now < 2 ^ 32 }
    requires from { first ≤ end }
    requires within { end ≤ count_in keyed.now }
    requires led { IsLedUpTo keyed.now slots.old leads.old.items first }
    ensures { IfOk result (λ all. OnTrue all (IsLedUpTo keyed.now slots.new leads.new.items end)) }
{
    keyed.hash_rows(slots.hashing, first, end, hashes)?;
    // A few rows never come to this sum: it is asked for so that no compiler leaves out the reads.
    if slots.fetched(keyed, hashes) == usize::MAX {
        return Ok(false);
    }
    for i in first..end {
        match slots.meet(keyed, i, hashes[i - first]) {
            Some(lead) => leads.push(lead)?,
            None => return Ok(false),
        }
    }
    Ok(true)
}

// The leads by hash, with slots for so many keys. None where that is given up.
fn led_by_hash(
    alloc: Global,
    keyed: &KeyedRows,
    hashing: Hashing,
    count: usize,
) -> Result<Option<Led>, AllocError>
    ensures { IfOk result (λ found. IfSome found (IsLed keyed.now)) }
{
    if keyed.len() > u32::MAX as usize {
        return Ok(None);
    }
    let mut slots = RowSlots::new(alloc, keyed, hashing, count)?;
    let mut leads = Vec::with_capacity(alloc, keyed.len())?;
    let mut hashes = Vec::with_capacity(alloc, keyed.len().min(BLOCK))?;
    let mut first = 0;
    while first < keyed.len() {
        let end = first.saturating_add(BLOCK).min(keyed.len());
        if !push_leads(keyed, first, end, &mut slots, &mut hashes, &mut leads)? {
            return Ok(None);
        }
        first = end;
    }
    Ok(Some(Led {
        leads,
        finder: Finder::ByHash(slots),
    }))
}

// The leads by an order of the rows, in which those of one key stand together, the first of them in front.
fn leads_in_order(
    alloc: Global,
    keyed: &KeyedRows,
    order: &[usize],
) -> Result<Vec<usize>, AllocError>
    requires { IsKeyOrder (keys_in keyed.now) (count_in keyed.now) order.now }
    ensures { IfOk result (λ leads. leads.items ≡ leads_in keyed.now) }
{
    let mut leads = vec![in alloc; 0; keyed.len()]?;
    let mut lead = 0;
    for row in order {
        if !keyed.has(lead, &keyed.key(*row)) {
            lead = *row;
        }
        leads[*row] = lead;
    }
    Ok(leads)
}

// The leads, by hash, first with slots for few keys and then for as many as there are rows, and by a sort where cells were
// chosen to have like hashes both ways.
pub(crate) fn led_of(alloc: Global, keyed: &KeyedRows) -> Result<Led, AllocError>
    ensures { IfOk result (IsLed keyed.now) }
{
    let all = keyed.len();
    for (hashing, count) in [
        (Hashing::Plain, all.min(FEW_KEYS)),
        (Hashing::Plain, all),
        (Hashing::Salted, all),
    ] {
        if let Some(led) = led_by_hash(alloc, keyed, hashing, count)? {
            return Ok(led);
        }
    }
    let order = order_of(alloc, keyed)?;
    let leads = leads_in_order(alloc, keyed, &order)?;
    Ok(Led {
        leads,
        finder: Finder::InOrder(order),
    })
}
