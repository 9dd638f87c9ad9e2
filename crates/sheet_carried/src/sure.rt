// Pairs that are blocked with two others by one constraint on three variables, found for all values of a variable at once.
ghost use Rattle.std.specs.Prelude.{◌≡◌, List, [], ◌∷◌, ℕ, ◌+◌, ◌*◌, ◌/◌, ◌<◌};
ghost use Rattle.model.specs.Problem.{Problem};
ghost use Rattle.arrays.specs.Inner.Places.{SUPPORTS};
ghost use Rattle.sheet_table.specs.Inner.Table.{Ready};
ghost use Rattle.sheet_table.specs.Inner.Forbidden.{PairCode, MaybePair, Triple, Lacking, On, Sure, blocked as blockedBy, number_of};

use super::forbidden::{blocked, complement, support};
use arrays::{Numbers, Supports};
use model::ValueSet;
use sheet_table::table::number;

// The values v for which the set at base + step * v lacks a value w.
fn lacking(supports: &Supports, base: usize, step: usize, w: u16) -> ValueSet
    requires { (base + 15 * step < SUPPORTS) × (w < 16) }
    ensures { Lacking supports.now base step w 16 result.bits }
{
    let mut set = ValueSet::EMPTY;
    for v in 0..16 {
        if !support(supports, base + step * v).contains(w) {
            set = set.union(ValueSet::full(16).only(v as u16));
        }
    }
    set
}

// Values of variable y with which the pairs a and b are no row of constraint k, which is on the three variables.
fn missing(supports: &Supports, k: usize, a: usize, b: usize, y: usize) -> ValueSet
    requires { k < 32 }
    ensures { (p : Problem) (numbers : List ℕ) → On p numbers supports.now k a b y → a / 16 < b / 16 → Sure p a b y result.bits }
{
    let first = 256 * k + 16 * (a % 16);
    if b / 16 < y {
        return complement(support(supports, first + b % 16));
    }
    if y < a / 16 {
        return lacking(supports, 256 * k + a % 16, 16, (b % 16) as u16);
    }
    if a / 16 < y {
        if y < b / 16 {
            return lacking(supports, first, 1, (b % 16) as u16);
        }
    }
    ValueSet::EMPTY
}

// The same for pairs in any order.
pub fn refusing(supports: &Supports, k: usize, a: usize, b: usize, y: usize) -> ValueSet
    requires { k < 32 }
    ensures { (p : Problem) (numbers : List ℕ) → On p numbers supports.now k a b y → Sure p a b y result.bits }
{
    if a / 16 < b / 16 {
        return missing(supports, k, a, b, y);
    }
    if b / 16 < a / 16 {
        return missing(supports, k, b, a, y);
    }
    ValueSet::EMPTY
}

// Values of variable y whose pairs are surely blocked with the pairs a and b, by a constraint on the three variables.
fn surely(numbers: &Numbers, supports: &Supports, a: usize, b: usize, y: usize) -> ValueSet
    requires { (p : Problem) × Ready p numbers.now supports.now × MaybePair p a × MaybePair p b × (y < 16) }
    ensures { (p : Problem) → Ready p numbers.now supports.now → MaybePair p a → MaybePair p b → Sure p a b y result.bits }
{
    let set = number(numbers, a / 16) & number(numbers, b / 16) & number(numbers, y);
    if set == 0 {
        return ValueSet::EMPTY;
    }
    refusing(supports, usize::trailing_zeros(set) as usize, a, b, y)
}

// The same, where those of variable z are known.
pub fn surely_after(
    numbers: &Numbers,
    supports: &Supports,
    a: usize,
    b: usize,
    y: usize,
    z: usize,
    known: ValueSet,
) -> ValueSet
    requires { (p : Problem) × Ready p numbers.now supports.now × MaybePair p a × MaybePair p b × (y < 16) }
    ensures { (p : Problem) → Ready p numbers.now supports.now → MaybePair p a → MaybePair p b → Sure p a b z known.bits
        → Sure p a b y result.bits }
{
    if y == z {
        known
    } else {
        surely(numbers, supports, a, b, y)
    }
}

// Whether some forbidden set lies among three pairs, where values of the third's variable are known that are surely blocked.
pub fn third_blocked(
    numbers: &Numbers,
    supports: &Supports,
    a: usize,
    b: usize,
    e: usize,
    sure: ValueSet,
) -> bool
    requires { (p : Problem) × Triple p numbers.now supports.now a b e }
    ensures { (p : Problem) → Triple p numbers.now supports.now a b e → PairCode p e → Sure p a b (e / 16) sure.bits
        → result ≡ blockedBy p (number_of p a ∷ number_of p b ∷ number_of p e ∷ []) }
{
    if sure.contains((e % 16) as u16) {
        return true;
    }
    blocked(numbers, supports, a, b, e)
}
