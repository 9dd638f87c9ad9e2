// An entry of the memo: compared, taken from and put.
#![tactic(auto)]

ghost use Rattle.std.specs.Prelude.{◌≡◌, true, ℕ, ◌+◌, ◌-◌, ◌*◌, ◌≤◌, ◌<◌, length};
ghost use Rattle.model.specs.Lists.{at};
ghost use Rattle.arrays.specs.Inner.Places.{LIMIT, ROOM, PLANS, NODES, COUNTS, STACK, VARIABLES, WORK};
ghost use Rattle.order.specs.Order.{Ordering};
ghost use Rattle.run_state.specs.Inner.Pair.{order_in};
ghost use Rattle.loans.specs.Inner.Slices.{SameSlice};
ghost use Rattle.run_state.specs.Meaning.{tally_in};
ghost use Rattle.run_key.specs.Inner.Key.{Placed};
ghost use Rattle.run_entry.specs.Inner.Entry.{Compared, Loaded, Copies, Copied, Taken, Charged, FigureIn, Put, PlansPut};

use arrays::{
    COUNTS, DEPTH, ENDS, FIRST, GOOD, IDLE, LAST, LENGTH, LIMIT, LOW, NODES, Numbers, ORDER, PLANS,
    ROOM, ROWS, SETS, Stack, VARIABLES, Work,
};
use run_key::{Marks, same_sets, set_at};
use run_state::Tally;

// Whether the entry at s has the key of depth k, its nodes may all be made after so many others, and its plans listed.
pub fn is_same(
    stack: &Stack,
    work: &Work,
    numbers: &Numbers,
    made: u32,
    k: usize,
    pending: u64,
    marks: Marks,
    s: usize,
) -> bool
    requires { (at numbers.now VARIABLES ≤ 12) × (k < 13) × (length stack.now ≡ STACK) × (length work.now ≡ WORK) × Placed s ×
        (made ≤ at numbers.now LIMIT) × (at work.now PLANS ≤ at numbers.now ROOM) }
    ensures { result ≡ true → Compared stack.now numbers.now work.now made k pending marks.low marks.good s }
{
    if work[s + DEPTH] != k as u64 {
        return false;
    }
    if work[s + LOW] != marks.low {
        return false;
    }
    if work[s + GOOD] != marks.good {
        return false;
    }
    if numbers[LIMIT] - u64::from(made) < work[s + NODES] {
        return false;
    }
    if numbers[ROOM] - work[PLANS] < work[s + ROWS] {
        return false;
    }
    same_sets(stack, work, numbers, k, pending, marks.low, s)
}

// Takes the values of a row of the list, from the k-th on.
fn load(work: &mut Work, numbers: &Numbers, list: &mut [u8], k: usize, n: usize, row: usize)
    requires { (k ≤ n) × (n ≤ 12) × (length work.old ≡ WORK) × (row * n + n ≤ length list.old) × Ordering n (order_in numbers.now n) }
    ensures loaded { Loaded numbers.now list.old k n (row * n) work.old work.new }
    ensures list_unchanged { list.new ≡ list.old }
{
    let from = row * n;
    for i in k..n {
        let x = numbers[ORDER + i] as usize;
        work[i] = list[from + x] as u64;
    }
}

// Lists the plans of the entry at s once more, with the first k values in front; in a list of no byte they are counted alone.
pub fn copy(work: &mut Work, numbers: &Numbers, list: &mut &mut [u8], k: usize, s: usize)
    requires { Copies numbers.now work.old list.old.now k s }
    ensures copied { Copied numbers.now work.old list.old.now k s work.new list.new.now }
    ensures same_slice { SameSlice list.old list.new }
{
    let rows = work[s + ROWS];
    if list.len() == 0 {
        work[PLANS] += rows;
        return;
    }
    let n = numbers[VARIABLES] as usize;
    let first = work[s + FIRST] as usize;
    for r in 0..rows {
        load(work, numbers, *list, k, n, first + r as usize);
        // A plan that is listed once more has room.
        let _ = run_state::list_plan(work, numbers, list);
    }
}

// Takes the last node of the entry at s, behind the first k values; the nodes that are not made are set off against the times that the memo was asked in vain.
pub fn take(work: &mut Work, k: usize, s: usize)
    requires { (k < 13) × (length work.old ≡ WORK) × Placed s }
    ensures { Taken work.old k s work.new }
{
    for x in k..12 {
        work[x] = work[s + ENDS + x];
    }
    let nodes = work[s + NODES];
    let vain = work[IDLE + k];
    work[IDLE + k] = if vain < nodes { 0 } else { vain - nodes };
    work[LAST] = work[s + LENGTH];
}

// The memo was asked in vain at depth k.
pub fn charge(work: &mut Work, k: usize)
    requires { (k < 13) × (length work.old ≡ WORK) }
    ensures { Charged work.old k work.new }
{
    let vain = work[IDLE + k];
    if vain < 4294967296 {
        work[IDLE + k] = vain + 1;
    }
}

// How far a count has grown.
fn between(old: u32, new: u32) -> u64
    requires { old ≤ new }
    ensures { result ≡ new - old }
{
    u64::from(new - old)
}

// Puts the sets of depth k, the last node and the nodes counted between two tallies into the entry at s.
fn put_figures(stack: &Stack, work: &mut Work, before: Tally, after: Tally, k: usize, s: usize)
    requires { (k < 13) × (length stack.now ≡ STACK) × (length work.old ≡ WORK) × Placed s ×
        ((x : ℕ) → x < 12 → at before.counts x ≤ at after.counts x) }
    ensures { FigureIn stack.now before.counts after.counts k s 12 work.old work.new }
{
    let old = before.counts;
    let new = after.counts;
    for x in 0..12 {
        work[s + SETS + x] = set_at(stack, k, x) as u64;
        work[s + ENDS + x] = work[x];
        work[s + COUNTS + x] = between(old[x], new[x]);
    }
}

// Puts all that is kept but for the plans into the entry at s.
pub fn put(
    stack: &Stack,
    work: &mut Work,
    before: Tally,
    after: Tally,
    k: usize,
    marks: Marks,
    s: usize,
)
    requires { (k < 13) × (length stack.now ≡ STACK) × (length work.old ≡ WORK) × Placed s ×
        ((x : ℕ) → x < 12 → at before.counts x ≤ at after.counts x) × (before.nodes ≤ after.nodes) }
    ensures { Put stack.now work.old (tally_in before) (tally_in after) k marks.low marks.good s work.new }
{
    put_figures(stack, work, before, after, k, s);
    work[s + DEPTH] = k as u64;
    work[s + LOW] = marks.low;
    work[s + GOOD] = marks.good;
    work[s + NODES] = (after.nodes - before.nodes) as u64;
    work[s + LENGTH] = work[LAST];
}

// Puts into the entry at s which of the plans were listed after so many.
pub fn put_plans(work: &mut Work, plans: u64, s: usize)
    requires { (length work.old ≡ WORK) × Placed s × (plans ≤ at work.old PLANS) }
    ensures { PlansPut work.old plans s work.new }
{
    let listed = work[PLANS];
    work[s + FIRST] = plans;
    work[s + ROWS] = listed - plans;
}
