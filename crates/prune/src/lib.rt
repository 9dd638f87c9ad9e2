// The sets at a prefix (paper 01, "The search"), from those at the prefix with one value less.
#![tactic(auto)]

ghost use Rattle.std.specs.Prelude.{◌≡◌, not, List, [], ℕ, ◌+◌, ◌%◌, ◌<◌, T, ltb, length, take};
ghost use Rattle.model.specs.Lists.{both, at};
ghost use Rattle.model.specs.ValueSets.{has, mask_of};
ghost use Rattle.model.specs.Problem.{Problem};
ghost use Rattle.model.specs.Inner.Pruning.{Sets};
ghost use Rattle.block.specs.Inner.BlockSets.{cut_after};
ghost use Rattle.arrays.specs.Inner.Places.{INITIAL, SYMMETRIES, STACK, WORK};
ghost use Rattle.arrays.specs.Inner.Pruning.{sets_of};
ghost use Rattle.prune.specs.Inner.Node.{Ready, MarksRight, AtNode, Reached, longer};
ghost use Rattle.prune.specs.Inner.Steps.{ArraysHold, Blocked, Pending, AllConstrainedOr, PrefixHeld, LiveSets, AllFilteredOr, BeforeFixpoint};
ghost use Rattle.prune.specs.Inner.Steps.{LastSettled, Unpruned, AfterFixpoint, Differ, cut_below, CutOr, Loaded, Stored, MarksCopied};

use arrays::{
    BLOCK, INITIAL, LINKED, LOOKS, MARKS, Numbers, OTHERS, SYMMETRIES, Stack, Supports, Tables,
    VARIABLES, Work,
};
use model::ValueSet;

// Prunes by the constraints until nothing moves, those by variable and the others by turns; true where a set is empty.
fn constrain(
    sets: &mut [u16; 16],
    supports: &Supports,
    tables: &Tables,
    numbers: &Numbers,
    todo: u64,
    dirty: u64,
    settled: u64,
) -> bool
    requires { (p : Problem) × ArraysHold p supports.now tables.now numbers.now × Pending p numbers.now sets.old todo dirty }
    ensures { (p : Problem) → ArraysHold p supports.now tables.now numbers.now → Pending p numbers.now
        sets.old todo dirty → AllConstrainedOr p sets.old sets.new result }
{
    let mut left = todo;
    let mut moved = dirty;
    loop {
        let Some(cut) = prune_pairs::arcs(sets, tables, numbers, moved, 0) else {
            return true;
        };
        left |= prune_constraints::touched(numbers, cut);
        let pruned = prune_constraints::constrain(sets, numbers, supports, left, settled);
        let Some(changed) = pruned else {
            return true;
        };
        moved = changed & numbers[LINKED];
        if moved == 0 {
            return false;
        }
        left = 0;
    }
}

// The filter of every symmetry's nogoods at the prefix of k values, one after another, each from its mark on; true where a set is empty.
fn filters(
    sets: &mut [u16; 16],
    work: &mut Work,
    tables: &Tables,
    numbers: &Numbers,
    k: usize,
) -> bool
    requires { (p : Problem) × (supports : List ℕ) × ArraysHold p supports tables.now numbers.now × PrefixHeld p work.old k × LiveSets p sets.old
        × MarksRight p (sets_of p sets.old) (take k work.old) work.old k }
    ensures { (p : Problem) (supports : List ℕ) → ArraysHold p supports tables.now numbers.now → PrefixHeld p
        work.old k → LiveSets p sets.old → MarksRight p (sets_of p sets.old) (take k work.old)
        work.old k → AllFilteredOr p k work.old sets.old work.new sets.new result }
{
    let g = numbers[SYMMETRIES] as usize;
    for e in 0..g {
        let start = work[16 * k + MARKS + e];
        if prune_symmetries::due(start, k) {
            let Some(mark) = prune_symmetries::filter(sets, work, tables, e, k, start) else {
                return true;
            };
            work[16 * k + MARKS + e] = mark;
        }
    }
    false
}

// The variables whose sets differ.
fn difference(old: &[u16; 16], new: &[u16; 16]) -> u64
    ensures { Differ old.now new.now result }
{
    let mut all = 0u64;
    for i in 0..16 {
        all = all
            | prune_constraints::moved(ValueSet { bits: old[i] }, ValueSet { bits: new[i] }, i);
    }
    all
}

// The filters and the constraints by turns until nothing moves, from where no constraint takes anything. True where the prefix is dead.
fn alternate(
    sets: &mut [u16; 16],
    work: &mut Work,
    supports: &Supports,
    tables: &Tables,
    numbers: &Numbers,
    k: usize,
) -> bool
    requires { (p : Problem) × (gs : List (List ℕ)) × ArraysHold p supports.now tables.now numbers.now × Blocked p gs numbers.now
        × BeforeFixpoint p gs work.old numbers.now sets.old k 0 0 }
    ensures { (p : Problem) (gs : List (List ℕ)) → ArraysHold p supports.now tables.now numbers.now → Blocked p gs
        numbers.now → BeforeFixpoint p gs work.old numbers.now sets.old k 0 0 → AfterFixpoint p gs k
        work.old work.new sets.new result }
{
    let settled = (1u64 << k) - 1;
    loop {
        let old = *sets;
        if filters(sets, work, tables, numbers, k) {
            return true;
        }
        let changed = difference(&old, sets);
        if changed == 0 {
            return false;
        }
        let left = prune_constraints::touched(numbers, changed);
        if constrain(
            sets,
            supports,
            tables,
            numbers,
            left,
            changed & numbers[LINKED],
            settled,
        ) {
            return true;
        }
    }
}

// First the look-ups that the last settled variable, with the value v, allows and the cuts by variable, where most dead prefixes end; then the
// constraints that are due, if any are, and the filters. True where the prefix is dead.
fn fixpoint(
    sets: &mut [u16; 16],
    work: &mut Work,
    supports: &Supports,
    tables: &Tables,
    numbers: &Numbers,
    k: usize,
    todo: u64,
    dirty: u64,
    v: usize,
) -> bool
    requires { (p : Problem) × (gs : List (List ℕ)) × ArraysHold p supports.now tables.now numbers.now × Blocked p gs numbers.now
        × BeforeFixpoint p gs work.old numbers.now sets.old k todo dirty × LastSettled work.old k v dirty }
    ensures { (p : Problem) (gs : List (List ℕ)) → ArraysHold p supports.now tables.now numbers.now → Blocked p gs
        numbers.now → BeforeFixpoint p gs work.old numbers.now sets.old k todo dirty → AfterFixpoint p gs k
        work.old work.new sets.new result }
{
    let looks = todo & numbers[LOOKS + k];
    let Some(looked) = prune_constraints::look_ups(sets, work, numbers, supports, looks, v) else {
        return true;
    };
    let moved = dirty | (looked & numbers[LINKED]);
    let Some(cut) = prune_pairs::arcs(sets, tables, numbers, moved, k - 1) else {
        return true;
    };
    let left = (todo & !looks) | prune_constraints::touched(numbers, looked | cut);
    if left != 0 {
        if constrain(sets, supports, tables, numbers, left, 0, (1u64 << k) - 1) {
            return true;
        }
    }
    if numbers[SYMMETRIES] == 0 {
        return false;
    }
    alternate(sets, work, supports, tables, numbers, k)
}

fn load(stack: &Stack, k: usize, sets: &mut [u16; 16])
    requires { (k < 13) × (length sets.old ≡ 16) }
    ensures { Loaded stack.now k sets.new }
{
    for i in 0..16 {
        sets[i] = stack[16 * k + i];
    }
}

fn store(stack: &mut Stack, k: usize, sets: &[u16; 16])
    requires { (k < 13) × (length stack.old ≡ STACK) }
    ensures { Stored stack.old k (at sets.now) stack.new }
{
    for i in 0..16 {
        stack[16 * k + i] = sets[i];
    }
}

// The initial sets.
fn initial(numbers: &Numbers, sets: &mut [u16; 16])
    requires { length sets.old ≡ 16 }
    ensures { (length sets.new ≡ 16) × ((x : ℕ) → x < 16 → at sets.new x ≡ at numbers.now (INITIAL + x) % 65536) }
{
    for i in 0..16 {
        sets[i] = (numbers[INITIAL + i] % 65536) as u16;
    }
}

// What is due of `all` once a set has become one value: nothing where it was that already.
fn due(old: ValueSet, one: ValueSet, all: u64) -> u64
    ensures { (old.bits ≡ one.bits → result ≡ 0) × ((old.bits ≡ one.bits → ⊥) → result ≡ all) }
{
    if old.bits == one.bits { 0 } else { all }
}

// The members that are not below v.
fn not_below(set: ValueSet, v: u16) -> ValueSet
    requires { v < 16 }
    ensures { result.bits ≡ mask_of (λ u. both (has set.bits u) (not (ltb u v))) }
{
    ValueSet {
        bits: set.bits & !ValueSet::full(v).bits,
    }
}

// Takes the values below v from the sets of some variables: the variables whose sets changed, or None where one would be empty.
fn cut(sets: &mut [u16; 16], some: u64, v: u16) -> Option<u64>
    requires { Sets 16 sets.old × (v < 16) × ((y : ℕ) → T (has some y) → y < 16) }
    ensures { CutOr sets.old (cut_below some v sets.old) sets.new some result }
{
    let mut changed = 0u64;
    let mut left = some;
    while left != 0 {
        let y = u64::trailing_zeros(left) as usize;
        let old = ValueSet { bits: sets[y] };
        let kept = not_below(old, v);
        if kept.is_empty() {
            return None;
        }
        sets[y] = kept.bits;
        changed |= prune_constraints::moved(old, kept, y);
        left &= left - 1;
    }
    Some(changed)
}

// Variable k has been settled to v: where it is one of the block, the block's later variables lose the values below v (paper 02, #111).
fn cut_later(sets: &mut [u16; 16], block: u64, k: usize, v: u16) -> Option<u64>
    requires { Sets 16 sets.old × (k < 12) × (v < 16) × ((y : ℕ) → T (has block y) → y < 16) }
    ensures { CutOr sets.old (cut_after (has block) k v sets.old) sets.new block result }
{
    if (block >> k) & 1 == 1 {
        return cut(sets, block & !((2u64 << k) - 1), v);
    }
    Some(0)
}

// The marks of depth k: nothing is known yet.
fn clear_marks(work: &mut Work, k: usize)
    requires { (k < 13) × (length work.old ≡ WORK) }
    ensures { Stored work.old (k + 1) (λ e. 0) work.new }
{
    for e in 0..16 {
        work[16 * k + MARKS + e] = 0;
    }
}

// What is known of the symmetries at depth k, where there are any, is known at depth k + 1.
fn copy_marks(work: &mut Work, numbers: &Numbers, k: usize)
    requires { (k < 12) × (length work.old ≡ WORK) }
    ensures { MarksCopied work.old (at numbers.now SYMMETRIES) k work.new }
{
    if numbers[SYMMETRIES] == 0 {
        return;
    }
    for e in 0..16 {
        let here = 16 * k + MARKS + e;
        let next = 16 * (k + 1) + MARKS + e;
        work[next] = work[here];
    }
}

// Prunes sets of which nothing is known by all constraints and filters, and puts the sets and marks at the prefix of k values at depth k; true where it is
// dead.
fn prune_all(
    stack: &mut Stack,
    work: &mut Work,
    sets: &mut [u16; 16],
    supports: &Supports,
    tables: &Tables,
    numbers: &Numbers,
    k: usize,
) -> bool
    requires { (p : Problem) × (gs : List (List ℕ)) × Ready p gs stack.old work.old supports.now tables.now numbers.now × Unpruned p gs
        work.old numbers.now sets.old k }
    ensures { (p : Problem) (gs : List (List ℕ)) → Ready p gs stack.old work.old supports.now tables.now
        numbers.now → Unpruned p gs work.old numbers.now sets.old k → Reached p gs
        (take k work.old) k stack.old work.old stack.new work.new result }
{
    clear_marks(work, k);
    let todo = prune_constraints::touched(numbers, (1u64 << numbers[VARIABLES]) - 1);
    let linked = numbers[LINKED];
    let settled = (1u64 << k) - 1;
    if constrain(sets, supports, tables, numbers, todo, linked, settled) {
        return true;
    }
    if alternate(sets, work, supports, tables, numbers, k) {
        return true;
    }
    store(stack, k, sets);
    false
}

// Puts the sets and marks at the empty prefix at depth 0; true where it is dead.
pub fn root(
    stack: &mut Stack,
    work: &mut Work,
    supports: &Supports,
    tables: &Tables,
    numbers: &Numbers,
) -> bool
    requires { (p : Problem) × (gs : List (List ℕ)) × Ready p gs stack.old work.old supports.now tables.now numbers.now }
    ensures { (p : Problem) (gs : List (List ℕ)) → Ready p gs stack.old work.old supports.now tables.now
        numbers.now → Reached p gs [] 0 stack.old work.old stack.new work.new result }
{
    let mut sets = [1u16; 16];
    initial(numbers, &mut sets);
    prune_all(stack, work, &mut sets, supports, tables, numbers, 0)
}

// Puts the sets and marks at the prefix of work's first k + 1 values at depth k + 1, from those of the first k values at depth k; true where it is dead.
pub fn child(
    stack: &mut Stack,
    work: &mut Work,
    supports: &Supports,
    tables: &Tables,
    numbers: &Numbers,
    k: usize,
) -> bool
    requires { (p : Problem) × (gs : List (List ℕ)) × AtNode p gs stack.old work.old supports.now tables.now numbers.now k }
    ensures { (p : Problem) (gs : List (List ℕ)) → AtNode p gs stack.old work.old supports.now
        tables.now numbers.now k → Reached p gs (longer work.old k) (k + 1) stack.old work.old
        stack.new work.new result }
{
    let mut sets = [1u16; 16];
    load(stack, k, &mut sets);
    let v = (work[k] % 16) as u16;
    copy_marks(work, numbers, k);
    let old = ValueSet { bits: sets[k] };
    let one = old.only(v);
    let todo = due(old, one, numbers[OTHERS + k]);
    let dirty = due(old, one, numbers[LINKED] & (1u64 << k));
    sets[k] = one.bits;
    let Some(changed) = cut_later(&mut sets, numbers[BLOCK], k, v) else {
        return true;
    };
    let dead = fixpoint(
        &mut sets,
        work,
        supports,
        tables,
        numbers,
        k + 1,
        todo | prune_constraints::touched(numbers, changed),
        dirty | (changed & numbers[LINKED]),
        v as usize,
    );
    if dead {
        return true;
    }
    store(stack, k + 1, &sets);
    false
}

// The same as `child`, where few prefixes are asked for, as along a path: so `child` has one caller, and is compiled into it.
pub fn descend(
    stack: &mut Stack,
    work: &mut Work,
    supports: &Supports,
    tables: &Tables,
    numbers: &Numbers,
    k: usize,
) -> bool
    requires { (p : Problem) × (gs : List (List ℕ)) × AtNode p gs stack.old work.old supports.now tables.now numbers.now k }
    ensures { (p : Problem) (gs : List (List ℕ)) → AtNode p gs stack.old work.old supports.now
        tables.now numbers.now k → Reached p gs (longer work.old k) (k + 1) stack.old work.old
        stack.new work.new result }
{
    let mut sets = [1u16; 16];
    load(stack, k, &mut sets);
    let old = ValueSet { bits: sets[k] };
    let v = (work[k] % 16) as u16;
    let one = old.only(v);
    sets[k] = one.bits;
    if cut_later(&mut sets, numbers[BLOCK], k, v).is_none() {
        return true;
    }
    prune_all(stack, work, &mut sets, supports, tables, numbers, k + 1)
}
