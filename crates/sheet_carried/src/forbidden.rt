// Whether a forbidden set lies among up to three pairs, given by their codes; 255 stands for none.
ghost use Rattle.std.specs.Prelude.{◌≡◌, [], ◌∷◌, not, ◌+◌, ◌*◌, ◌^◌, ◌<◌, length};
ghost use Rattle.model.specs.Lists.{at};
ghost use Rattle.model.specs.ValueSets.{has, mask_of};
ghost use Rattle.model.specs.Problem.{Problem};
ghost use Rattle.model.specs.Problem.{constraint_at};
ghost use Rattle.arrays.specs.Inner.Places.{SUPPORTS};
ghost use Rattle.sheet_table.specs.Inner.Table.{Framed, Ready};
ghost use Rattle.sheet_table.specs.Inner.Forbidden.{Refusing, Triple, clashes, value_in, refused_by, blocked as blockedBy, number_of};

use arrays::{Numbers, SCOPES, Supports};
use model::ValueSet;
use sheet_table::table::number;

// A support set.
pub fn support(supports: &Supports, i: usize) -> ValueSet
    requires { i < SUPPORTS }
    ensures { result.bits ≡ at supports.now i }
{
    ValueSet { bits: supports[i] }
}

// The values that a set lacks.
pub fn complement(set: ValueSet) -> ValueSet
    ensures { result.bits ≡ mask_of (λ v. not (has set.bits v)) }
{
    ValueSet {
        bits: 65535 - set.bits,
    }
}

// How many variables a constraint has, and the variable at a place of its scope.
pub fn arity(numbers: &Numbers, k: usize) -> usize
    requires { (p : Problem) × Framed p numbers.now × (k < length p.constraints) }
    ensures { (p : Problem) → Framed p numbers.now → k < length p.constraints → result ≡ length (constraint_at p k).scope }
{
    arrays::arity(numbers[SCOPES + k])
}

pub fn scope_at(numbers: &Numbers, k: usize, i: usize) -> usize
    requires { (p : Problem) × Framed p numbers.now × (k < length p.constraints) × (i < length (constraint_at p k).scope) }
    ensures { (p : Problem) → Framed p numbers.now → k < length p.constraints → i < length (constraint_at p k).scope → result ≡ at
        (constraint_at p k).scope i }
{
    arrays::scope_at(numbers[SCOPES + k], i)
}

// Two pairs of one variable.
pub fn clash(a: usize, b: usize) -> bool
    ensures { result ≡ clashes a b }
{
    if a / 16 == b / 16 { a != b } else { false }
}

// The value that the first of three pairs with a variable gives to it, 16 where none has it.
fn value_in(a: usize, b: usize, e: usize, x: usize) -> usize
    ensures { result ≡ value_in a b e x }
{
    if a / 16 == x {
        return a % 16;
    }
    if b / 16 == x {
        return b % 16;
    }
    if e / 16 == x {
        return e % 16;
    }
    16
}

// Whether a constraint's scope lies among the variables of three pairs, whose values are no row of it.
fn refused(numbers: &Numbers, supports: &Supports, k: usize, a: usize, b: usize, e: usize) -> bool
    requires { (p : Problem) × Ready p numbers.now supports.now × (k < length p.constraints) }
    ensures { (p : Problem) → Ready p numbers.now supports.now → k < length p.constraints → result ≡ refused_by
        (constraint_at p k) a b e }
{
    let count = arity(numbers, k);
    let mut key = 0usize;
    for i in 0..count {
        let v = value_in(a, b, e, scope_at(numbers, k, i));
        if 16 <= v {
            return false;
        }
        key = 16 * key + v;
    }
    !support(supports, 256 * k + key / 16).contains((key % 16) as u16)
}

// Whether a constraint of a set refuses three pairs.
fn any_refuses(
    numbers: &Numbers,
    supports: &Supports,
    set: usize,
    a: usize,
    b: usize,
    e: usize,
) -> bool
    requires { (p : Problem) × Triple p numbers.now supports.now a b e × (set < 2 ^ length p.constraints) }
    ensures { (p : Problem) → Triple p numbers.now supports.now a b e → set < 2 ^ length p.constraints
        → Refusing p a b e set result }
{
    let mut pending = set;
    while pending != 0 {
        let k = usize::trailing_zeros(pending) as usize;
        if refused(numbers, supports, k, a, b, e) {
            return true;
        }
        pending &= pending - 1;
    }
    false
}

// Whether some forbidden set lies among three pairs: the constraints on two of their variables are asked first, as most often one of
// these refuses.
pub fn blocked(numbers: &Numbers, supports: &Supports, a: usize, b: usize, e: usize) -> bool
    requires { (p : Problem) × Triple p numbers.now supports.now a b e }
    ensures { (p : Problem) → Triple p numbers.now supports.now a b e → result ≡ blockedBy p
        (number_of p a ∷ number_of p b ∷ number_of p e ∷ []) }
{
    if clash(a, b) {
        return true;
    }
    if clash(a, e) {
        return true;
    }
    if clash(b, e) {
        return true;
    }
    let s = number(numbers, a / 16);
    let t = number(numbers, b / 16);
    let u = number(numbers, e / 16);
    if any_refuses(numbers, supports, (s & t) | (s & u) | (t & u), a, b, e) {
        return true;
    }
    any_refuses(numbers, supports, s | t | u, a, b, e)
}
