// A run as a walk along the nodes of the tree (paper 01, "The search"): its tally, its list, and what it reads of the arrays.
#![tactic(auto)]

ghost use Rattle.std.specs.Prelude.{◌≡◌, ℕ, ◌+◌, ◌*◌, ◌^◌, ◌≤◌, ◌<◌, length};
ghost use Rattle.model.specs.Written.{placed};
ghost use Rattle.model.specs.Lists.{at};
ghost use Rattle.model.specs.ValueSets.{without_mask, lowest_of};
ghost use Rattle.order.specs.Order.{Ordering};
ghost use Rattle.order.specs.Reordered.{write};
ghost use Rattle.arrays.specs.Inner.Places.{VARIABLES, LIMIT, ROOM, PLANS, WORK};
ghost use Rattle.arrays.specs.Inner.Places.{DIAGONAL};
ghost use Rattle.run_state.specs.Inner.Walk.{noted};
ghost use Rattle.run_state.specs.Inner.Pair.{prefix_of, settling, order_in, Countable, Counted, Cleared, ListRoom, Listed};
ghost use Rattle.loans.specs.Inner.Slices.{SameSlice};
ghost use Rattle.run_state.specs.Inner.Cut.{stop_of};
ghost use Rattle.run_state.specs.Meaning.{tally_in};

use arrays::{DIAGONAL, LIMIT, Numbers, ORDER, PLANS, ROOM, Stack, VARIABLES, Work};
use model::ValueSet;

// How a run ends; each ending carries the plans listed and the nodes made.
#[derive(Clone, Copy, Debug, PartialEq, Eq)]
pub enum Ending {
    Finished(usize, usize),
    Spent(usize, usize),
    Full(usize, usize),
}

// How a part of a run is cut short: as many nodes as it may make were made, or a plan was found that has no room.
#[derive(Clone, Copy, Debug, PartialEq, Eq)]
pub enum Cut {
    Spent,
    Full,
}

// What stands below a node that was made: nothing, or nodes of the next variable.
#[derive(Clone, Copy, Debug, PartialEq, Eq)]
pub enum Node {
    Leaf,
    Inner,
}

// What a run counts (the paper's tally): the nodes made (its trials), and of these the nodes that settle each of twelve variables.
#[derive(Clone, Copy, Debug, PartialEq, Eq)]
pub struct Tally {
    pub nodes: u32,
    pub counts: [u32; 12],
}

impl Tally {
    // The tally of nothing.
    pub fn new() -> Self
        ensures { Cleared (tally_in result) }
    {
        Tally {
            nodes: 0,
            counts: [0; 12],
        }
    }

    // Adds a node that settles variable x.
    pub fn add_node(&mut self, x: usize)
        requires { Countable x (tally_in self.old) }
        ensures { Counted x (tally_in self.old) (tally_in self.new) }
    {
        self.counts[x] += 1;
        self.nodes += 1;
    }

    // Sets the tally to nothing.
    pub fn reset(&mut self)
        ensures { Cleared (tally_in self.new) }
    {
        *self = Tally::new();
    }
}

// Writes the first n numbers of `work`, each a byte, over the list from `start` on: a variable's value at the variable's number.
fn keep(list: &mut [u8], work: &[u64], numbers: &Numbers, n: usize, start: usize)
    requires n_bound { (n ≤ 12) × (n ≤ length work.now) × (start + n ≤ length list.old) }
    requires by_index { ((i : ℕ) → i < n → at work.now i < 256) × Ordering n (order_in numbers.now n) }
    ensures { list.new ≡ placed list.old start (write (order_in numbers.now n) (prefix_of work.now n)) }
{
    for i in 0..n {
        let x = numbers[ORDER + i] as usize;
        list[start + x] = work[i] as u8;
    }
}

// Lists the plan after so many others; a list of no byte stays as it is.
fn note(list: &mut [u8], work: &[u64], numbers: &Numbers, plans: usize)
    requires list_room { ListRoom (at numbers.now VARIABLES) (at numbers.now ROOM) list.old plans × (plans ≡ at numbers.now ROOM → ⊥) }
    requires numbers_bound { (at numbers.now VARIABLES ≤ 12) × (at numbers.now VARIABLES ≤ length work.now) ×
        ((i : ℕ) → i < at numbers.now VARIABLES → at work.now i < 256) × Ordering (at numbers.now VARIABLES)
        (order_in numbers.now (at numbers.now VARIABLES)) }
    ensures { list.new ≡ noted (plans * at numbers.now VARIABLES)
        (write (order_in numbers.now (at numbers.now VARIABLES)) (prefix_of work.now (at numbers.now VARIABLES)))
        list.old }
{
    if list.is_empty() {
        return;
    }
    let n = numbers[VARIABLES] as usize;
    keep(list, work, numbers, n, plans * n);
}

// A plan was found: full where it has no room, else it is counted, and listed in a list that isn't empty.
pub fn list_plan(work: &mut Work, numbers: &Numbers, list: &mut &mut [u8]) -> Result<(), Cut>
    requires list_room { ListRoom (at numbers.now VARIABLES) (at numbers.now ROOM) list.old.now (at work.old PLANS) }
    requires numbers_bound { (at numbers.now VARIABLES ≤ 12) × ((i : ℕ) → i < at numbers.now VARIABLES → at work.old i < 256) × (length work.old ≡ WORK)
        × Ordering (at numbers.now VARIABLES) (order_in numbers.now (at numbers.now VARIABLES)) }
    ensures listed { Listed (at numbers.now VARIABLES) (at numbers.now ROOM)
        (order_in numbers.now (at numbers.now VARIABLES)) work.old list.old.now work.new
        list.new.now (stop_of result) }
    ensures same_slice { SameSlice list.old list.new }
{
    let plans = work[PLANS] as usize;
    if plans == numbers[ROOM] as usize {
        return Err(Cut::Full);
    }
    note(*list, work, numbers, plans);
    work[PLANS] = (plans + 1) as u64;
    Ok(())
}

// The values of the set of variable k at depth k.
pub fn candidates(stack: &Stack, k: usize) -> u16
    requires { k < 12 }
    ensures { result ≡ at stack.now (DIAGONAL * k) }
{
    stack[DIAGONAL * k]
}

// The values but the lowest.
pub fn rest(m: u16) -> u16
    ensures { result ≡ without_mask m (lowest_of m) }
{
    ValueSet { bits: m }.without_lowest().bits
}

// The number of nodes that a run may make.
pub fn limit(numbers: &Numbers) -> u32
    requires { at numbers.now LIMIT < 2 ^ 32 }
    ensures { result ≡ at numbers.now LIMIT }
{
    numbers[LIMIT] as u32
}

// The variable that is settled at depth k.
pub fn variable_at(numbers: &Numbers, k: usize) -> usize
    requires { k < 12 }
    ensures { result ≡ settling numbers.now k }
{
    numbers[ORDER + k] as usize
}
