// The key of a prefix: what is compared of two, so that the subtrees below them are alike.
#![tactic(auto)]

ghost use Rattle.std.specs.Prelude.{◌≡◌, true, ◌+◌, ◌*◌, ◌≤◌, ◌<◌, T, length};
ghost use Rattle.model.specs.Lists.{at};
ghost use Rattle.model.specs.ValueSets.{one_if};
ghost use Rattle.arrays.specs.Inner.Places.{MARKS, STACK, VARIABLES, WORK, SETS};
ghost use Rattle.run_state.specs.Inner.Memo.{MarksRead};
ghost use Rattle.run_key.specs.Inner.Key.{Pending, compared, lowered, Placed, SameSets};

use arrays::{ENTRIES, ENTRY, MARKS, MEMO, Numbers, OBEYED, SETS, Stack, VARIABLES, Work};

// The constraints that have two variables or more from k on.
pub fn pending_at(numbers: &Numbers, k: usize) -> u64
    requires { at numbers.now VARIABLES ≤ 12 }
    ensures { Pending numbers.now k (at numbers.now VARIABLES) result }
{
    let n = numbers[VARIABLES] as usize;
    let mut once = 0u64;
    let mut twice = 0u64;
    for x in k..n {
        let touching = numbers[x];
        twice |= once & touching;
        once |= touching;
    }
    twice
}

// The set of e, or the empty set.
fn one_if(b: bool, e: usize) -> u64
    requires { e < 64 }
    ensures { result ≡ one_if b e }
{
    if b { 1u64 << e } else { 0 }
}

// The lower of a level and that which a mark has passed; a list that is obeyed for good has none.
fn lower(low: u64, mark: u64) -> u64
    ensures { result ≡ lowered low mark }
{
    if mark == OBEYED {
        return low;
    }
    low.min(mark % 128)
}

// What the marks of a depth say: up to which level the lists that are not obeyed for good say nothing more, and which lists are.
#[derive(Clone, Copy)]
pub struct Marks {
    pub low: u64,
    pub good: u64,
}

// The marks of g symmetries at depth k.
pub fn marks_at(work: &Work, g: usize, k: usize) -> Marks
    requires { (g ≤ 16) × (k < 13) × (length work.now ≡ WORK) }
    ensures { MarksRead (λ e. at work.now (16 * k + MARKS + e)) g k result.low result.good }
{
    let mut low = k as u64;
    let mut good = 0u64;
    for e in 0..g {
        let mark = work[16 * k + MARKS + e];
        good |= one_if(mark == OBEYED, e);
        low = lower(low, mark);
    }
    Marks { low, good }
}

// Whether the set of variable x is compared: it stands from the level on, or a constraint of the set has it.
fn is_compared(numbers: &Numbers, pending: u64, low: u64, x: usize) -> bool
    requires { x < 16 }
    ensures { result ≡ compared numbers.now pending low x }
{
    low <= x as u64 || numbers[x] & pending != 0
}

// The set of variable x at depth k.
pub fn set_at(stack: &Stack, k: usize, x: usize) -> u16
    requires { (k < 13) × (x < 16) × (length stack.now ≡ STACK) }
    ensures { result ≡ at stack.now (16 * k + x) }
{
    stack[16 * k + x]
}

// Where the entry stands for the sets from the level on: any would do, so nothing is said of which.
pub fn entry_for(stack: &Stack, numbers: &Numbers, k: usize, low: u64) -> usize
    requires { (at numbers.now VARIABLES ≤ 12) × (k < 13) × (length stack.now ≡ STACK) }
    ensures { Placed result }
{
    let n = numbers[VARIABLES] as usize;
    let mut mixed = k as u64;
    for x in low as usize..n {
        mixed = mixed % 4294967296 * 1540483477 + u64::from(set_at(stack, k, x));
    }
    MEMO + ENTRY * ((mixed / 67108864) as usize % ENTRIES)
}

// Whether the set of variable x at depth k is that of the entry at s, or is not compared.
fn agrees(
    stack: &Stack,
    work: &Work,
    numbers: &Numbers,
    k: usize,
    pending: u64,
    low: u64,
    s: usize,
    x: usize,
) -> bool
    requires { (x < 12) × (k < 13) × (length stack.now ≡ STACK) × (length work.now ≡ WORK) × Placed s }
    ensures { result ≡ true → T (compared numbers.now pending low x) → at stack.now (16 * k + x) ≡ at work.now
        (s + SETS + x) }
{
    if u64::from(set_at(stack, k, x)) == work[s + SETS + x] {
        return true;
    }
    !is_compared(numbers, pending, low, x)
}

// Whether the sets of depth k that are compared are those of the entry at s.
pub fn same_sets(
    stack: &Stack,
    work: &Work,
    numbers: &Numbers,
    k: usize,
    pending: u64,
    low: u64,
    s: usize,
) -> bool
    requires { (at numbers.now VARIABLES ≤ 12) × (k < 13) × (length stack.now ≡ STACK) × (length work.now ≡ WORK) × Placed s }
    ensures { result ≡ true → SameSets stack.now numbers.now work.now k
        (at numbers.now VARIABLES) pending low s }
{
    let n = numbers[VARIABLES] as usize;
    for x in 0..n {
        if !agrees(stack, work, numbers, k, pending, low, s, x) {
            return false;
        }
    }
    true
}
