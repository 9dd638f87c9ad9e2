// Pruning by single constraints (paper 01, "The search"), over the arrays of the compiled problem.
#![tactic(auto)]

ghost use Rattle.std.specs.Prelude.{◌≡◌, true, not, List, [], ◌∷◌, ℕ, ◌+◌, ◌*◌, ◌%◌, ◌≤◌, ◌<◌, eqb, length};
ghost use Rattle.std.specs.Int.Bits.{bit_and};
ghost use Rattle.model.specs.Lists.{at, choose};
ghost use Rattle.model.specs.ValueSets.{has, one_if};
ghost use Rattle.model.specs.Problem.{Problem, Constraint};
ghost use Rattle.model.specs.Inner.Pruning.{Sets};
ghost use Rattle.arrays.specs.Inner.Places.{SCOPES, VALUES, NUMBERS, SUPPORTS};
ghost use Rattle.model.specs.Problem.{constraint_at};
ghost use Rattle.arrays.specs.Inner.Tables.{Spreads, Words};
ghost use Rattle.prune_constraints.specs.Inner.Revised.{Revision, ConstraintsPending, Constrained};
ghost use Rattle.prune_constraints.specs.Inner.Steps.{OneValue, Supported2, Together3, Supported3, Scoped, Nonempty, Narrow, ConstraintsHeld, SetCut};
ghost use Rattle.prune_constraints.specs.Inner.Steps.{Touched, Masks, Met, FullSets, Waiting, Round};
ghost use Rattle.prune_constraints.specs.Inner.LookUps.{LookUp, LookUpsPending, LookedUp};
ghost use Rattle.prune_constraints.specs.Inner.Lanes.{FullLanes, LaneUnion, FullHeads, Halves, TogetherIn, InLanes, InLane};

use arrays::{Numbers, OTHERS, SCOPES, SPREAD, Supports, UNIONS, VALUES, Work, arity, scope_at};
use model::ValueSet;

// Bits of a number of eight lanes: the first of each lane, the first two of each second, the first four of each fourth.
const ONES: u64 = 72340172838076673;

const PAIRS: u64 = 844437815230467;

const FOURS: u64 = 64424509455;

#[derive(Clone, Copy)]
struct Two {
    first: ValueSet,
    last: ValueSet,
}

#[derive(Clone, Copy)]
struct Three {
    first: ValueSet,
    second: ValueSet,
    last: ValueSet,
}

// The set of v, or the empty set.
fn one_if(b: bool, v: u32) -> ValueSet
    requires { v < 16 }
    ensures { result.bits ≡ one_if b v }
{
    if b {
        ValueSet::full(16).only(v as u16)
    } else {
        ValueSet::EMPTY
    }
}

// The set of x where the sets a and b differ.
pub fn moved(a: ValueSet, b: ValueSet, x: usize) -> u64
    requires { x < 16 }
    ensures { result ≡ one_if (not (eqb b.bits a.bits)) x }
{
    if b.bits != a.bits { 1u64 << x } else { 0 }
}

// The values of a and of b that go together with one of the other set, by the sixteen sets of the table from a base on.
fn supported2(supports: &Supports, base: usize, a: ValueSet, b: ValueSet) -> Two
    requires { base + 16 ≤ SUPPORTS }
    ensures { Supported2 supports.now base a.bits b.bits result.first.bits result.last.bits }
{
    let mut first = ValueSet::EMPTY;
    let mut last = ValueSet::EMPTY;
    let mut left = a;
    while !left.is_empty() {
        let v = left.lowest();
        let support = ValueSet {
            bits: supports[base + (v as usize)],
        };
        let t = support.common(b);
        first = first.union(one_if(!t.is_empty(), v));
        last = last.union(t);
        left = left.without_lowest();
    }
    Two { first, last }
}

// The set e where b has the value v, else the empty set.
fn mask(b: ValueSet, e: ValueSet, v: u16) -> u16
    ensures { result ≡ choose (has b.bits v) e.bits 0 }
{
    if b.contains(v) { e.bits } else { 0 }
}

// Sixteen sets: e where the set b has the value, else the empty set. No value is left out, so that the compiler takes all sixteen at once, as in `meet`.
fn masks(b: ValueSet, e: ValueSet) -> [u16; 16]
    ensures { Masks b.bits e.bits result }
{
    let mut all = [0u16; 16];
    for v in 0..16 {
        all[v] = mask(b, e, v as u16);
    }
    all
}

// Adds to sixteen sets what those of the table from a base on have of the masks; the union of what they have.
fn meet(supports: &Supports, base: usize, masks: &[u16; 16], all: &mut [u16; 16]) -> u16
    requires base_bound { base + 16 ≤ SUPPORTS }
    requires all_len { length all.old ≡ 16 }
    ensures { Met supports.now base masks.now all.old all.new result }
{
    let mut some = 0u16;
    for v in 0..16 {
        let t = supports[base + v] & masks[v];
        all[v] |= t;
        some |= t;
    }
    some
}

// The values of b whose sets are not empty.
fn full_sets(all: &[u16; 16], b: ValueSet) -> ValueSet
    ensures { FullSets all.now b.bits result.bits }
{
    let mut full = ValueSet::EMPTY;
    let mut left = b;
    while !left.is_empty() {
        let v = left.lowest();
        full = full.union(one_if(all[v as usize] != 0, v));
        left = left.without_lowest();
    }
    full
}

// The values of three sets that go together with some of the other two, by 256 sets of the table.
fn supported3(supports: &Supports, base: usize, a: ValueSet, b: ValueSet, e: ValueSet) -> Three
    requires { base + 256 ≤ SUPPORTS }
    ensures { Supported3 (Together3 supports.now base a.bits b.bits e.bits) result.first.bits result.second.bits result.last.bits }
{
    let masks = masks(b, e);
    let mut first = ValueSet::EMPTY;
    let mut last = 0u16;
    let mut all = [0u16; 16];
    let mut left = a;
    while !left.is_empty() {
        let u = left.lowest();
        let some = meet(supports, base + 16 * (u as usize), &masks, &mut all);
        first = first.union(one_if(some != 0, u));
        last |= some;
        left = left.without_lowest();
    }
    Three {
        first,
        second: full_sets(&all, b),
        last: ValueSet { bits: last },
    }
}

// The lanes that are not empty.
fn full_lanes(w: u64) -> ValueSet
    ensures { FullLanes w result.bits }
{
    let a = w | (w >> 4);
    let b = a | (a >> 2);
    let c = (b | (b >> 1)) & ONES;
    let d = (c | (c >> 7)) & PAIRS;
    let e = (d | (d >> 14)) & FOURS;
    ValueSet {
        bits: ((e | (e >> 28)) & 255) as u16,
    }
}

// The union of the lanes.
fn union_of(w: u64) -> ValueSet
    ensures { LaneUnion w result.bits }
{
    let a = w | (w >> 32);
    let b = a | (a >> 16);
    ValueSet {
        bits: ((b | (b >> 8)) & 255) as u16,
    }
}

// The first bit of every lane that is not empty.
fn heads(w: u64) -> u64
    ensures { FullHeads w result }
{
    let a = w | (w >> 4);
    let b = a | (a >> 2);
    (b | (b >> 1)) & ONES
}

// The lanes of the members of a together, by the unions from a base on: those of the lower four values and those of the upper four.
fn together(numbers: &Numbers, base: usize, a: ValueSet) -> u64
    requires base_bound { base + 32 ≤ NUMBERS }
    requires bits_bound { a.bits < 256 }
    ensures { (lane : ℕ → ℕ → ℕ) → Halves numbers.now base lane → TogetherIn a.bits lane result }
{
    let lower = numbers[base + ((a.bits & 15) as usize)];
    let upper = numbers[base + 16 + ((a.bits >> 4) as usize)];
    lower | upper
}

// In each lane of b the values of e that some member of a has there.
fn in_lanes(numbers: &Numbers, base: usize, a: ValueSet, b: ValueSet, e: ValueSet) -> u64
    requires base_bound { base + 32 ≤ NUMBERS }
    requires bits_bound { (a.bits < 256) × (b.bits < 256) × (e.bits < 256) }
    requires spreads { Spreads numbers.now }
    ensures { (lane : ℕ → ℕ → ℕ) → Halves numbers.now base lane → InLanes a.bits b.bits e.bits lane result }
{
    together(numbers, base, a) & numbers[SPREAD + (b.bits as usize)] & ((e.bits as u64) * ONES)
}

// The same of lane u alone.
fn in_lane(numbers: &Numbers, base: usize, a: ValueSet, u: usize, e: ValueSet) -> ValueSet
    requires base_bound { base + 32 ≤ NUMBERS }
    requires bits_bound { (a.bits < 256) × (u < 8) × (e.bits < 256) }
    ensures { (lane : ℕ → ℕ → ℕ) → Halves numbers.now base lane → InLane a.bits u e.bits lane result.bits }
{
    ValueSet {
        bits: ((together(numbers, base, a) >> (8 * u)) & (e.bits as u64)) as u16,
    }
}

// Whether the lanes that are not empty are those of b.
fn fills(numbers: &Numbers, w: u64, b: ValueSet) -> bool
    requires bits_bound { b.bits < 256 }
    requires spreads { Spreads numbers.now }
    ensures { result ≡ true → FullLanes w b.bits }
{
    heads(w) == (numbers[SPREAD + (b.bits as usize)] & ONES)
}

// Whether every value of two sets goes together with some of the other, by the sixteen sets of the table from a base on.
fn quiet16(supports: &Supports, base: usize, b: ValueSet, e: ValueSet) -> bool
    requires { base + 16 ≤ SUPPORTS }
    ensures { result ≡ true → Supported2 supports.now base b.bits e.bits b.bits e.bits }
{
    let mut all = 0u16;
    let mut left = b;
    while !left.is_empty() {
        let t = supports[base + (left.lowest() as usize)] & e.bits;
        if t == 0 {
            return false;
        }
        all |= t;
        left = left.without_lowest();
    }
    all == e.bits
}

// Prunes one set by a set of the table.
fn revise_one(sets: &mut [u16; 16], supports: &Supports, offset: usize, x: usize) -> Option<u64>
    requires sets { Sets 16 sets.old }
    requires x_bound { x < 16 }
    requires offset_bound { offset < SUPPORTS }
    ensures { SetCut sets.old sets.new x (bit_and (at sets.old x) (at supports.now offset)) result }
{
    let a = ValueSet { bits: sets[x] };
    let support = ValueSet {
        bits: supports[offset],
    };
    let b = a.common(support);
    if b.is_empty() {
        return None;
    }
    sets[x] = b.bits;
    Some(moved(a, b, x))
}

fn revise_two(
    sets: &mut [u16; 16],
    supports: &Supports,
    k: usize,
    x: usize,
    y: usize,
) -> Option<u64>
    requires sets { Sets 16 sets.old }
    requires scoped { (c : Constraint) × Scoped c supports.now k (x ∷ y ∷ []) }
    ensures { (c : Constraint) → Scoped c supports.now k (x ∷ y ∷ []) → Revision c sets.old sets.new result }
{
    let a = ValueSet { bits: sets[x] };
    let b = ValueSet { bits: sets[y] };
    let r = supported2(supports, 256 * k, a, b);
    let first = r.first;
    let last = r.last;
    if last.is_empty() {
        return None;
    }
    sets[x] = first.bits;
    sets[y] = last.bits;
    Some(moved(a, first, x) | moved(b, last, y))
}

// Prunes by constraint number k, whose first set has one value: the other two along that value's lane.
fn along(
    sets: &mut [u16; 16],
    numbers: &Numbers,
    k: usize,
    x: usize,
    y: usize,
    z: usize,
) -> Option<u64>
    requires sets { Sets 16 sets.old }
    requires by_index { (supports : List ℕ) × Words numbers.now supports × (at numbers.now (SCOPES + k) % 256 ≡ 3) × (c : Constraint) × Scoped c supports k
        (x ∷ y ∷ z ∷ []) }
    requires one_value { OneValue (at sets.old x) }
    requires x_bound { (at sets.old x < 256) × (at sets.old y < 256) × (at sets.old z < 256) }
    ensures { (c : Constraint) (supports : List ℕ) → Words numbers.now supports → Scoped c supports k (x ∷ y ∷ z ∷ []) → Revision c
        sets.old sets.new result }
{
    let a = ValueSet { bits: sets[x] };
    let b = ValueSet { bits: sets[y] };
    let e = ValueSet { bits: sets[z] };
    let u = a.lowest() as usize;
    let last = in_lane(numbers, UNIONS + 64 * k, b, u, e);
    if last.is_empty() {
        return None;
    }
    let second = in_lane(numbers, UNIONS + 64 * k + 32, e, u, b);
    if last.bits == e.bits {
        if second.bits == b.bits {
            return Some(0);
        }
    }
    sets[y] = second.bits;
    sets[z] = last.bits;
    Some(moved(b, second, y) | moved(e, last, z))
}

// Prunes by constraint number k, whose first two sets have one value each: one set of the table cuts the third.
fn revise_last(
    sets: &mut [u16; 16],
    supports: &Supports,
    k: usize,
    x: usize,
    y: usize,
    z: usize,
) -> Option<u64>
    requires sets { Sets 16 sets.old }
    requires one_value { OneValue (at sets.old x) × OneValue (at sets.old y) }
    requires scoped { (c : Constraint) × Scoped c supports.now k (x ∷ y ∷ z ∷ []) }
    ensures { (c : Constraint) → Scoped c supports.now k (x ∷ y ∷ z ∷ []) → Revision c sets.old sets.new result }
{
    let u = ValueSet { bits: sets[x] }.lowest() as usize;
    let v = ValueSet { bits: sets[y] }.lowest() as usize;
    revise_one(sets, supports, 256 * k + 16 * u + v, z)
}

// Prunes by constraint number k, whose first set has one value: the other two by the sixteen sets of the table for that value.
fn revise_rest(
    sets: &mut [u16; 16],
    supports: &Supports,
    k: usize,
    x: usize,
    y: usize,
    z: usize,
) -> Option<u64>
    requires sets { Sets 16 sets.old }
    requires one_value { OneValue (at sets.old x) × (at sets.old z ≡ 0 → ⊥) }
    requires scoped { (c : Constraint) × Scoped c supports.now k (x ∷ y ∷ z ∷ []) }
    ensures { (c : Constraint) → Scoped c supports.now k (x ∷ y ∷ z ∷ []) → Revision c sets.old sets.new result }
{
    let a = ValueSet { bits: sets[x] };
    let b = ValueSet { bits: sets[y] };
    let e = ValueSet { bits: sets[z] };
    let base = 256 * k + 16 * (a.lowest() as usize);
    if quiet16(supports, base, b, e) {
        return Some(0);
    }
    let r = supported2(supports, base, b, e);
    let second = r.first;
    let last = r.last;
    if last.is_empty() {
        return None;
    }
    sets[y] = second.bits;
    sets[z] = last.bits;
    Some(moved(b, second, y) | moved(e, last, z))
}

// Leaves of each of three sets the values t that go together with some of the other two.
fn leave(sets: &mut [u16; 16], x: usize, y: usize, z: usize, t: Three) -> Option<u64>
    requires sets { Sets 16 sets.old }
    requires x_bound { (x < 16) × (y < 16) × (z < 16) }
    ensures { (c : Constraint) (supports : List ℕ) (k : ℕ) → Scoped c supports k (x ∷ y ∷ z ∷ []) → Supported3
        (Together3 supports (256 * k) (at sets.old x) (at sets.old y) (at sets.old z)) t.first.bits t.second.bits
        t.last.bits → Revision c sets.old sets.new result }
{
    let a = ValueSet { bits: sets[x] };
    let b = ValueSet { bits: sets[y] };
    let e = ValueSet { bits: sets[z] };
    let first = t.first;
    let second = t.second;
    let last = t.last;
    if last.is_empty() {
        return None;
    }
    if ((first.bits ^ a.bits) | (second.bits ^ b.bits) | (last.bits ^ e.bits)) == 0 {
        return Some(0);
    }
    sets[x] = first.bits;
    sets[y] = second.bits;
    sets[z] = last.bits;
    Some(moved(a, first, x) | moved(b, second, y) | moved(e, last, z))
}

// Prunes by constraint number k: all three sets along the lanes by the first variable.
fn across(
    sets: &mut [u16; 16],
    numbers: &Numbers,
    k: usize,
    x: usize,
    y: usize,
    z: usize,
) -> Option<u64>
    requires sets { Sets 16 sets.old }
    requires by_index { (supports : List ℕ) × Words numbers.now supports × (at numbers.now (SCOPES + k) % 256 ≡ 3) × (c : Constraint) × Scoped c supports k
        (x ∷ y ∷ z ∷ []) }
    requires fact { at sets.old z ≡ 0 → ⊥ }
    requires x_bound { (at sets.old x < 256) × (at sets.old y < 256) × (at sets.old z < 256) }
    ensures { (c : Constraint) (supports : List ℕ) → Words numbers.now supports → Scoped c supports k (x ∷ y ∷ z ∷ []) → Revision c
        sets.old sets.new result }
{
    let a = ValueSet { bits: sets[x] };
    let b = ValueSet { bits: sets[y] };
    let e = ValueSet { bits: sets[z] };
    let by_second = in_lanes(numbers, UNIONS + 64 * k, b, a, e);
    let by_third = in_lanes(numbers, UNIONS + 64 * k + 32, e, a, b);
    let second = union_of(by_third);
    let last = union_of(by_second);
    if fills(numbers, by_second, a) {
        if second.bits == b.bits {
            if last.bits == e.bits {
                return Some(0);
            }
        }
    }
    let t = Three {
        first: full_lanes(by_second),
        second,
        last,
    };
    leave(sets, x, y, z, t)
}

// Prunes by constraint number k, on one or two variables.
fn revise_few(sets: &mut [u16; 16], numbers: &Numbers, supports: &Supports, k: usize) -> Option<u64>
    requires sets { Sets 16 sets.old }
    requires fact { at numbers.now (SCOPES + k) % 256 ≡ 3 → ⊥ }
    requires constraints_held { (p : Problem) × ConstraintsHeld p numbers.now supports.now × (k < length p.constraints) }
    ensures { (p : Problem) → ConstraintsHeld p numbers.now supports.now → k < length p.constraints → Revision
        (constraint_at p k) sets.old sets.new result }
{
    let w = numbers[SCOPES + k];
    let x = scope_at(w, 0);
    if arity(w) == 2 {
        let y = scope_at(w, 1);
        return revise_two(sets, supports, k, x, y);
    }
    revise_one(sets, supports, 256 * k, x)
}

// Prunes by constraint number k: None where a set would be empty, else the set of the variables whose sets changed. It has two callers, so that the compiler
// leaves it out of the loops; for that revise8 asks it for constraints on one variable.
fn revise_any(sets: &mut [u16; 16], numbers: &Numbers, supports: &Supports, k: usize) -> Option<u64>
    requires sets { Sets 16 sets.old }
    requires constraints_held { (p : Problem) × ConstraintsHeld p numbers.now supports.now × (k < length p.constraints) }
    ensures { (p : Problem) → ConstraintsHeld p numbers.now supports.now → k < length p.constraints → Revision
        (constraint_at p k) sets.old sets.new result }
{
    let w = numbers[SCOPES + k];
    if arity(w) != 3 {
        return revise_few(sets, numbers, supports, k);
    }
    let x = scope_at(w, 0);
    let y = scope_at(w, 1);
    let z = scope_at(w, 2);
    let a = ValueSet { bits: sets[x] };
    let b = ValueSet { bits: sets[y] };
    let e = ValueSet { bits: sets[z] };
    let t = supported3(supports, 256 * k, a, b, e);
    leave(sets, x, y, z, t)
}

// The same, where a first set of one value leaves less to do.
fn revise16(sets: &mut [u16; 16], numbers: &Numbers, supports: &Supports, k: usize) -> Option<u64>
    requires sets { Sets 16 sets.old }
    requires constraints_held { (p : Problem) × ConstraintsHeld p numbers.now supports.now × (k < length p.constraints) × Nonempty (constraint_at p k).scope
        sets.old }
    ensures { (p : Problem) → ConstraintsHeld p numbers.now supports.now → k < length p.constraints → Revision
        (constraint_at p k) sets.old sets.new result }
{
    let w = numbers[SCOPES + k];
    if arity(w) != 3 {
        return revise_few(sets, numbers, supports, k);
    }
    let x = scope_at(w, 0);
    let y = scope_at(w, 1);
    let z = scope_at(w, 2);
    let a = ValueSet { bits: sets[x] };
    let b = ValueSet { bits: sets[y] };
    if a.without_lowest().is_empty() {
        if b.without_lowest().is_empty() {
            return revise_last(sets, supports, k, x, y, z);
        }
        return revise_rest(sets, supports, k, x, y, z);
    }
    revise_any(sets, numbers, supports, k)
}

// The same for sets of values below 8, by numbers of lanes: one where the first set has one value, else two; and no store where nothing is lost.
fn revise8(sets: &mut [u16; 16], numbers: &Numbers, supports: &Supports, k: usize) -> Option<u64>
    requires sets { Sets 16 sets.old }
    requires constraints_held { (p : Problem) × ConstraintsHeld p numbers.now supports.now × (k < length p.constraints) × Nonempty (constraint_at p k).scope
        sets.old × Narrow (constraint_at p k).scope sets.old × (at numbers.now VALUES < 9) }
    ensures { (p : Problem) → ConstraintsHeld p numbers.now supports.now → k < length p.constraints → Revision
        (constraint_at p k) sets.old sets.new result }
{
    let w = numbers[SCOPES + k];
    if arity(w) != 3 {
        if arity(w) == 2 {
            return revise_two(sets, supports, k, scope_at(w, 0), scope_at(w, 1));
        }
        return revise_any(sets, numbers, supports, k);
    }
    let x = scope_at(w, 0);
    let y = scope_at(w, 1);
    let z = scope_at(w, 2);
    let a = ValueSet { bits: sets[x] };
    let b = ValueSet { bits: sets[y] };
    if a.without_lowest().is_empty() {
        if b.without_lowest().is_empty() {
            return revise_last(sets, supports, k, x, y, z);
        }
        return along(sets, numbers, k, x, y, z);
    }
    across(sets, numbers, k, x, y, z)
}

// The constraints, but those pruned by variable, that have one of the changed variables in their scope.
pub fn touched(numbers: &Numbers, changed: u64) -> u64
    ensures { Touched numbers.now changed result }
{
    let mut all = 0u64;
    let mut m = changed;
    while m != 0 {
        all |= numbers[OTHERS + (u64::trailing_zeros(m) as usize)];
        m &= m - 1;
    }
    all
}

// The constraints that have one of the changed variables in their scope and wait for the next round: not number k, nor those left of this one.
fn waiting(numbers: &Numbers, changed: u64, k: u32, left: u64) -> u64
    requires { k < 64 }
    ensures { Waiting numbers.now changed k left result }
{
    touched(numbers, changed) & !((1u64 << k) | left)
}

// The constraints of the next round: those of `soon` among all that are due, or all.
fn round(due: u64, soon: u64) -> u64
    requires { due ≡ 0 → ⊥ }
    ensures { Round due result }
{
    let first = due & soon;
    if first != 0 { first } else { due }
}

// Prunes by the constraints of todo, and again by those that have a changed variable in their scope, until nothing moves.
// One that must be pruned by again waits for the next round.
fn constrain16(
    sets: &mut [u16; 16],
    numbers: &Numbers,
    supports: &Supports,
    todo: u64,
) -> Option<u64>
    requires { (p : Problem) × ConstraintsPending p numbers.now supports.now sets.old todo }
    ensures { (p : Problem) → ConstraintsPending p numbers.now supports.now sets.old todo → Constrained p
        sets.old sets.new result }
{
    let mut left = todo;
    let mut next = 0u64;
    let mut all = 0u64;
    loop {
        if left == 0 {
            if next == 0 {
                return Some(all);
            }
            left = next;
            next = 0;
        }
        let k = u64::trailing_zeros(left);
        let changed = revise16(sets, numbers, supports, k as usize)?;
        left &= left - 1;
        if changed != 0 {
            all |= changed;
            next |= waiting(numbers, changed, k, left);
        }
    }
}

// The same for values below 8. A constraint that has none of the settled variables waits for those that have one: scopes ascend, so their first is settled.
fn constrain8(
    sets: &mut [u16; 16],
    numbers: &Numbers,
    supports: &Supports,
    todo: u64,
    settled: u64,
) -> Option<u64>
    requires numbers_bound { at numbers.now VALUES < 9 }
    requires constraints_pending { (p : Problem) × ConstraintsPending p numbers.now supports.now sets.old todo }
    ensures { (p : Problem) → ConstraintsPending p numbers.now supports.now sets.old todo → Constrained p
        sets.old sets.new result }
{
    let mut soon = 0u64;
    let mut left = todo;
    let mut next = 0u64;
    let mut all = 0u64;
    loop {
        if left == 0 {
            if next == 0 {
                return Some(all);
            }
            if soon == 0 {
                soon = touched(numbers, settled);
            }
            left = round(next, soon);
            next &= !left;
        }
        let k = u64::trailing_zeros(left);
        let changed = revise8(sets, numbers, supports, k as usize)?;
        left &= left - 1;
        if changed != 0 {
            all |= changed;
            next |= waiting(numbers, changed, k, left);
        }
    }
}

// Prunes by the constraints of todo until nothing moves. The settled variables say which come first, where the values are below 8.
pub fn constrain(
    sets: &mut [u16; 16],
    numbers: &Numbers,
    supports: &Supports,
    todo: u64,
    settled: u64,
) -> Option<u64>
    requires { (p : Problem) × ConstraintsPending p numbers.now supports.now sets.old todo }
    ensures { (p : Problem) → ConstraintsPending p numbers.now supports.now sets.old todo → Constrained p
        sets.old sets.new result }
{
    if numbers[VALUES] < 9 {
        return constrain8(sets, numbers, supports, todo, settled);
    }
    constrain16(sets, numbers, supports, todo)
}

// Prunes by constraint number k on three variables, whose first two sets have one value each, the first that of the prefix, the second the value v.
fn look_up(
    sets: &mut [u16; 16],
    work: &Work,
    numbers: &Numbers,
    supports: &Supports,
    k: usize,
    v: usize,
) -> Option<u64>
    requires sets { Sets 16 sets.old }
    requires constraints_held { (p : Problem) × ConstraintsHeld p numbers.now supports.now × LookUp p sets.old work.now k v }
    ensures { (p : Problem) → ConstraintsHeld p numbers.now supports.now → LookUp p sets.old
        work.now k v → Revision (constraint_at p k) sets.old sets.new result }
{
    let w = numbers[SCOPES + k];
    let x = scope_at(w, 0);
    let z = scope_at(w, 2);
    let first = work[x] as usize;
    revise_one(sets, supports, 256 * k + 16 * first + v, z)
}

// The same for each constraint of `some`, once: None where a set would be empty, else the set of the variables whose sets changed.
pub fn look_ups(
    sets: &mut [u16; 16],
    work: &Work,
    numbers: &Numbers,
    supports: &Supports,
    some: u64,
    v: usize,
) -> Option<u64>
    requires { (p : Problem) × (todo : ℕ) × LookUpsPending p numbers.now supports.now sets.old work.now todo some v }
    ensures { (p : Problem) (todo : ℕ) → LookUpsPending p numbers.now supports.now sets.old
        work.now todo some v → LookedUp p numbers.now supports.now sets.old sets.new todo some result }
{
    let mut all = 0u64;
    let mut left = some;
    while left != 0 {
        let k = u64::trailing_zeros(left) as usize;
        let changed = look_up(sets, work, numbers, supports, k, v)?;
        all |= changed;
        left &= left - 1;
    }
    Some(all)
}
