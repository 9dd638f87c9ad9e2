// A queue of jobs in eight slots (paper 02, #113: a desk, its halls and seats) in lent bytes.
// specs/Inner/Layout.antt says what any bytes mean; zeros are the empty queue.
#![tactic(auto)]

ghost use Rattle.std.specs.Prelude.{◌≡◌, ◌+◌, ◌≤◌, ◌<◌, min, length};
ghost use Rattle.model.specs.Lists.{at};
ghost use Rattle.model.specs.Sheet.{«word»};
ghost use Rattle.desk.specs.Inner.Places.{COUNTS, SHEET};
ghost use Rattle.desk.specs.Inner.Layout.{long, nodes_at, counts_at};

// The queue's size in bytes.
pub const QUEUE_BYTES: usize = 839065;

// A slot's size, and where it has what: the sheet's length, the limit, how the run stands, its nodes, its plans, the length and the values of its last node,
// its nodes by variable, the sheet, the list. Its first byte says whether it is taken.
pub const SLOT: usize = 104883;

pub const LENGTH: usize = 1;

pub const LIMIT: usize = 3;

pub const STANDING: usize = 7;

pub const NODES: usize = 8;

pub const PLANS: usize = 12;

pub const DEPTH: usize = 14;

pub const LAST: usize = 15;

pub const COUNTS: usize = 27;

pub const SHEET: usize = 75;

pub const LIST: usize = 55731;

// The bytes from STANDING up to COUNTS.
pub const STATE: usize = 20;

// The most plans of a list.
pub const LIST_PLANS: usize = 4096;

// The most bytes of a sheet.
pub const SHEET_BYTES: usize = 55656;

// Where the byte stands that says where the next turn begins to look.
pub const NEXT: usize = 839064;

// How a slot stands: 0 running, 1 finished, 2 spent, 3 full; its plans and its nodes so far.
#[derive(Clone, Copy, Debug, PartialEq, Eq)]
pub struct Stands {
    pub slot: usize,
    pub standing: u8,
    pub plans: usize,
    pub nodes: usize,
}

// How a slot stands, and its nodes by variable: twelve counts.
#[derive(Clone, Copy, Debug, PartialEq, Eq)]
pub struct SlotStatus {
    pub stands: Stands,
    pub counts: [u32; 12],
}

// The number at an offset, but at most a bound.
pub fn bounded(queue: &[u8], at: usize, most: usize) -> usize
    requires { at + 1 < length queue.now }
    ensures { result ≡ min most («word» queue.now at) }
{
    reader::read_word(queue, at).min(most)
}

// The number in four bytes at an offset.
pub fn read_long(queue: &[u8], at: usize) -> usize
    requires { at + 3 < length queue.now }
    ensures { result ≡ long queue.now at }
{
    reader::read_word(queue, at) + 65536 * reader::read_word(queue, at + 2)
}

// The nodes of the slot at p.
pub fn nodes_at(queue: &[u8], p: usize) -> usize
    requires { p + COUNTS < length queue.now }
    ensures { result ≡ nodes_at queue.now p }
{
    let limit = read_long(queue, p + LIMIT);
    let made = read_long(queue, p + NODES);
    made.min(limit)
}

// The byte at an offset, but at most a bound.
pub fn byte(queue: &[u8], offset: usize, most: u8) -> u8
    requires { offset < length queue.now }
    ensures { result ≡ min most (at queue.now offset) }
{
    queue[offset].min(most)
}

// The lesser of a number and another of 32 bits.
fn capped(n: usize, most: u32) -> u32
    ensures { result ≡ min most n }
{
    n.min(most as usize) as u32
}

// The nodes by variable of the slot at p, none of them more than all its nodes.
pub fn counts_at(queue: &[u8], p: usize) -> [u32; 12]
    requires { p + SHEET ≤ length queue.now }
    ensures { result ≡ counts_at queue.now p }
{
    let nodes = nodes_at(queue, p) as u32;
    let mut counts = [0u32; 12];
    for x in 0..12 {
        counts[x] = capped(read_long(queue, p + COUNTS + 4 * x), nodes);
    }
    counts
}
