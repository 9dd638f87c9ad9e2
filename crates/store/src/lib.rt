// The symmetry store (paper 02, #110) in lent bytes: tables under an owner (the paper's course) and a key (its hall). specs/Inner/Layout.antt says
// what any bytes mean; zeros are the empty store.
#![tactic(auto)]

ghost use Rattle.std.specs.Prelude.{◌≡◌, ◌+◌, ◌≤◌, ◌<◌, min, length};
ghost use Rattle.model.specs.ValueSets.{least};
ghost use Rattle.model.specs.Sheet.{«word»};
ghost use Rattle.model.specs.Written.{placed};
ghost use Rattle.store.specs.Store.{size};
ghost use Rattle.store.specs.Inner.Layout.{slot_at, slot_in, holds, slot_with, is_free, slot_for, slot_bytes, freed, asked_first};
ghost use Rattle.store.specs.Calls.{CallPut, CallFetch, CallRemove};

use model::refusals::Question;
use wire::place;

// The store's size in bytes.
pub const STORE_BYTES: usize = 32832;

// Where slot i of an owner starts.
fn slot_at(owner: usize, i: usize) -> usize
    requires { (owner < 4) × (i < 4) }
    ensures { result ≡ slot_at owner i }
{
    8208 * owner + 2052 * i
}

// Whether the slot at p holds the key.
fn holds(store: &[u8], key: u8, p: usize) -> bool
    requires { p + 1 < length store.now }
    ensures { result ≡ holds store.now key p }
{
    store[p] != 0 && store[p + 1] == key
}

// An owner's slot for a key.
fn slot_with(store: &[u8], owner: usize, key: u8) -> Option<usize>
    requires { (length store.now ≡ size) × (owner < 4) }
    ensures { result ≡ slot_in (slot_with store.now owner key) }
{
    for i in 0..4 {
        if holds(store, key, slot_at(owner, i)) {
            return Some(i);
        }
    }
    None
}

// Whether an owner's slot is free: it holds nothing, or the key of an earlier slot.
fn is_free(store: &[u8], owner: usize, i: usize) -> bool
    requires { (length store.now ≡ size) × (owner < 4) × (i < 4) }
    ensures { result ≡ is_free store.now owner i }
{
    let p = slot_at(owner, i);
    store[p] == 0 || slot_with(store, owner, store[p + 1]).is_some_and(|first| first < i)
}

// An owner's first free slot.
fn free_slot(store: &[u8], owner: usize) -> Option<usize>
    requires { (length store.now ≡ size) × (owner < 4) }
    ensures { result ≡ slot_in (least 4 (is_free store.now owner)) }
{
    for i in 0..4 {
        if is_free(store, owner, i) {
            return Some(i);
        }
    }
    None
}

// The slot where a table goes.
fn slot_for(store: &[u8], owner: usize, key: u8) -> Option<usize>
    requires { (length store.now ≡ size) × (owner < 4) }
    ensures { result ≡ slot_in (slot_for store.now owner key) }
{
    match slot_with(store, owner, key) {
        Some(i) => Some(i),
        None => free_slot(store, owner),
    }
}

// Puts a table into the slot at p; the bytes behind it stay.
fn fill(store: &mut [u8], p: usize, key: u8, table: &[u8])
    requires { (p + 2052 ≤ length store.old) × (length table.now ≤ 2048) }
    ensures { store.new ≡ placed store.old p (slot_bytes key table.now) }
{
    let n = table.len();
    let head = [1, key, (n % 256) as u8, (n / 256) as u8];
    place(&head, store, p);
    place(table, store, p + 4);
}

// Frees every slot of an owner that holds the key.
fn free_all(store: &mut [u8], owner: usize, key: u8)
    requires { (length store.old ≡ size) × (owner < 4) }
    ensures { store.new ≡ freed store.old owner key 4 }
{
    for i in 0..4 {
        let p = slot_at(owner, i);
        if holds(store, key, p) {
            store[p] = 0;
        }
    }
}

// The length of the table in the slot at p.
fn table_length(store: &[u8], p: usize) -> usize
    requires { p + 4 ≤ length store.now }
    ensures { result ≡ min 2048 («word» store.now (p + 2)) }
{
    reader::read_word(store, p + 2).min(2048)
}

// The questions that are put to every call first.
fn asked(store: &[u8], owner: u32) -> Result<(), Question>
    ensures { result ≡ asked_first (length store.now) owner }
{
    if store.len() != STORE_BYTES {
        return Err(Question::BufferLength);
    }
    if 4 <= owner {
        return Err(Question::Owner);
    }
    Ok(())
}

// Puts a table under an owner and a key, in place of the one there.
pub fn put(store: &mut [u8], owner: u32, key: u8, table: &[u8]) -> Result<(), Question>
    ensures { CallPut store.old owner key table.now result store.new }
{
    asked(store, owner)?;
    if 2048 < table.len() {
        return Err(Question::TableSize);
    }
    let Some(slot) = slot_for(store, owner as usize, key) else {
        return Err(Question::FreeSlot);
    };
    fill(store, slot_at(owner as usize, slot), key, table);
    Ok(())
}

// Copies the table under an owner and a key to the front of the room; answers its length.
pub fn fetch(store: &[u8], owner: u32, key: u8, room: &mut [u8]) -> Result<usize, Question>
    ensures { CallFetch store.now owner key room.old result room.new }
{
    asked(store, owner)?;
    let Some(i) = slot_with(store, owner as usize, key) else {
        return Err(Question::HeldKey);
    };
    let p = slot_at(owner as usize, i);
    let n = table_length(store, p);
    if room.len() < n {
        return Err(Question::CopyRoom);
    }
    let start = p + 4;
    place(&store[start..start + n], room, 0);
    Ok(n)
}

// Removes (the paper's drop) the table under an owner and a key.
pub fn remove(store: &mut [u8], owner: u32, key: u8) -> Result<(), Question>
    ensures { CallRemove store.old owner key result store.new }
{
    asked(store, owner)?;
    if slot_with(store, owner as usize, key).is_none() {
        return Err(Question::HeldKey);
    }
    free_all(store, owner as usize, key);
    Ok(())
}
