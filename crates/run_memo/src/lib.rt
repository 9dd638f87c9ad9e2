// The memo of a run (`work` from MEMO on): what is kept of the nodes below a prefix once they were all walked along. Where the same is left to do below
// another prefix (run_alike), its nodes are not walked along: their figures are those that are kept, their plans stand in the list.
#![tactic(auto)]

ghost use Rattle.std.specs.Prelude.{◌≡◌, List, ℕ, ◌+◌, ◌^◌, ◌<◌, length};
ghost use Rattle.model.specs.Problem.{Problem};
ghost use Rattle.arrays.specs.Inner.Places.{WORK};
ghost use Rattle.loans.specs.Inner.Slices.{SameSlice};
ghost use Rattle.run_state.specs.{Meaning.tally_in, Inner.Cut.stop_of};
ghost use Rattle.run_key.specs.Inner.Key.{Placed};
ghost use Rattle.run_memo.specs.Inner.Steps.{Cleared, Turned, AtLook, Looked, GrowsBy, grown_by, AtNote, Noted, Visited};

use arrays::{
    ASKS, COUNTS, DEPTH, ENTRIES, ENTRY, IDLE, LAST, MEMO, NODES, Numbers, PLANS, SYMMETRIES,
    Stack, VAIN, Work,
};
use run_state::{Cut, Tally};

// Empties the memo.
pub fn clear(work: &mut Work)
    requires { length work.old ≡ WORK }
    ensures { Cleared work.old work.new }
{
    for i in 0..ENTRIES {
        work[MEMO + ENTRY * i + DEPTH] = 0;
    }
}

// Whether the memo is asked at depth k, where m is the set of the next variable: 0 where it is not to be, where that set has one value, or where it was asked
// in vain too often for the nodes made; else one more than the plans listed.
pub fn turn(work: &Work, numbers: &Numbers, made: u32, k: usize, m: u16) -> u64
    requires { (k < 12) × (length work.now ≡ WORK) }
    ensures { (result ≡ 0 → ⊥) → Turned work.now numbers.now result }
{
    if run_state::rest(m) == 0 {
        return 0;
    }
    if numbers[ASKS] == 0 {
        return 0;
    }
    if work[IDLE + k] >= u64::from(made / 1024) + 5 {
        return 0;
    }
    let plans = work[PLANS];
    if plans >= 4294967296 {
        return 0;
    }
    plans + 1
}

// Looks for the nodes below the prefix of k values, after so many others: where they are kept, their plans are listed, the last of them stands in `work`, and
// the answer is the entry, whose nodes are not counted yet; else VAIN more than where one may be put.
fn recall(
    stack: &Stack,
    work: &mut Work,
    numbers: &Numbers,
    list: &mut &mut [u8],
    before: Tally,
    k: usize,
) -> usize
    requires { (p : Problem) × (supports : List ℕ) × (tables : List ℕ) × AtLook p stack.now work.old supports tables
        numbers.now list.old.now (tally_in before) k }
    ensures looked { (p : Problem) (supports tables : List ℕ) → AtLook p stack.now work.old supports tables
        numbers.now list.old.now (tally_in before) k → Looked p stack.now work.old numbers.now
        list.old.now (tally_in before) k work.new list.new.now result }
    ensures same_slice { SameSlice list.old list.new }
{
    let pending = run_key::pending_at(numbers, k);
    let marks = run_key::marks_at(work, numbers[SYMMETRIES] as usize, k);
    let s = run_key::entry_for(stack, numbers, k, marks.low);
    if !run_entry::is_same(stack, work, numbers, before.nodes, k, pending, marks, s) {
        return s + VAIN;
    }
    run_entry::copy(work, numbers, list, k, s);
    run_entry::take(work, k, s);
    s
}

// A count with more.
fn sum(count: u32, more: u64) -> u32
    requires { count + more < 2 ^ 32 }
    ensures { result ≡ count + more }
{
    (u64::from(count) + more) as u32
}

// The tally with the nodes of an entry. It is compiled into the search, where a call of it costs up to 1.5 percent.
#[inline(always)]
pub fn grown(work: &Work, t: Tally, s: usize) -> Tally
    requires { (length work.now ≡ WORK) × Placed s × GrowsBy (tally_in t) work.now s }
    ensures { tally_in result ≡ grown_by (tally_in t) work.now s }
{
    let mut counts = t.counts;
    for x in 0..12 {
        counts[x] = sum(counts[x], work[s + COUNTS + x]);
    }
    let nodes = sum(t.nodes, work[s + NODES]);
    Tally { nodes, counts }
}

// Keeps the nodes below the prefix of k values, which were walked along from one tally to another, unless the walk stopped.
fn note(
    stack: &Stack,
    work: &mut Work,
    numbers: &Numbers,
    before: Tally,
    after: Tally,
    turn: u64,
    place: usize,
    k: usize,
    stop: Result<(), Cut>,
)
    requires { (p : Problem) × (stack₀ : List ℕ) × (work₀ : List ℕ) × (supports : List ℕ) × (tables : List ℕ) × (list₀ : List ℕ) × (list : List ℕ)
        × AtNote p stack₀ work₀ supports tables numbers.now list₀ (tally_in before) k stack.now work.old list (tally_in after) turn place (stop_of stop) }
    ensures { (p : Problem) (stack₀ work₀ supports tables list₀ list : List ℕ) → AtNote p stack₀ work₀ supports tables numbers.now list₀
        (tally_in before) k stack.now work.old list (tally_in after) turn place (stop_of stop) → Noted p stack₀ work₀ numbers.now list₀
        (tally_in before) k stack.now work.new list (tally_in after) (stop_of stop) }
{
    if stop.is_err() {
        return;
    }
    let last = work[LAST];
    if last < k as u64 {
        return;
    }
    if last > 12 {
        return;
    }
    run_entry::charge(work, k);
    if after.nodes == before.nodes {
        return;
    }
    let marks = run_key::marks_at(work, numbers[SYMMETRIES] as usize, k);
    run_entry::put(stack, work, before, after, k, marks, place - VAIN);
    run_entry::put_plans(work, turn - 1, place - VAIN);
}

// Looks where no place is given, else keeps: one function that is called twice is not compiled into the search.
pub fn visit(
    stack: &Stack,
    work: &mut Work,
    numbers: &Numbers,
    list: &mut &mut [u8],
    before: Tally,
    after: Tally,
    turn: u64,
    place: usize,
    k: usize,
    stop: Result<(), Cut>,
) -> usize
    requires { (place ≡ 0 → (p : Problem) × (supports : List ℕ) × (tables : List ℕ) × AtLook p stack.now work.old supports tables
        numbers.now list.old.now (tally_in before) k) × ((place ≡ 0 → ⊥) → (p : Problem) × (stack₀ : List ℕ) × (work₀ : List ℕ) × (supports : List ℕ)
        × (tables : List ℕ) × (list₀ : List ℕ) × AtNote p stack₀ work₀ supports tables numbers.now list₀ (tally_in before) k stack.now work.old
        list.old.now (tally_in after) turn place (stop_of stop)) }
    ensures visited { Visited stack.now work.old numbers.now list.old.now (tally_in before) (tally_in after)
        turn place k (stop_of stop) work.new list.new.now result }
    ensures same_slice { SameSlice list.old list.new }
{
    if place == 0 {
        return recall(stack, work, numbers, list, before, k);
    }
    note(stack, work, numbers, before, after, turn, place, k, stop);
    place
}
