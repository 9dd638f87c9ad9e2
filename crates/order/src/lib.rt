// The settling order (paper 02, request 108): from pairs "this place before that place", lent as bytes, the order of n places, or the refusal 28, 29 or 30.
#![tactic(auto)]

ghost use Rattle.std.specs.Prelude.{◌≡◌, List, ℕ, ◌/◌, ◌≤◌, ◌<◌, IfSome, ltb, length};
ghost use Rattle.model.specs.Lists.{all, at};
ghost use Rattle.model.specs.ValueSets.{has, least};
ghost use Rattle.order.specs.Order.{can_follow};
ghost use Rattle.order.specs.Inner.Settled.{SetOf, Befores, NextIs, Settled, Ordered};

use model::refusals::Question;

// The member test of a set of places.
fn contains(s: u64, x: usize) -> bool
    ensures { result ≡ has s x }
{
    x < 64 && (s >> x) & 1 == 1
}

// Question 29.
fn all_below(pairs: &[u8], n: usize) -> bool
    ensures { result ≡ all (λ x. ltb x n) pairs.now }
{
    pairs.iter().all(|x| usize::from(*x) < n)
}

// For each place the set of its forerunners.
fn forerunners(pairs: &[u8], befores: &mut [u64; 16])
    requires { ((i : ℕ) → i < length pairs.now → at pairs.now i < 16) × ((y : ℕ) → at befores.old y ≡ 0) }
    ensures { Befores pairs.now (length pairs.now / 2) befores.new }
{
    for pair in pairs.chunks_exact(2) {
        befores[usize::from(pair[1])] |= 1u64 << pair[0];
    }
}

// y is not settled, and its forerunners all are.
fn can_follow(befores: &[u64; 16], settled: u64, y: usize) -> bool
    requires { y < 16 }
    ensures { (pairs l : List ℕ) → Befores pairs (length pairs / 2) befores.now → SetOf settled l → result ≡ can_follow pairs l y }
{
    !contains(settled, y) && befores[y] | settled == settled
}

// The lowest place that can be settled next.
fn next(n: usize, befores: &[u64; 16], settled: u64) -> Option<usize>
    requires { n ≤ 12 }
    ensures below { IfSome result (λ y. y < n) }
    ensures lowest { (pairs l : List ℕ) → Befores pairs (length pairs / 2) befores.now → SetOf settled l → NextIs n (least n (can_follow pairs l)) result }
{
    for y in 0..n {
        if can_follow(befores, settled, y) {
            return Some(y);
        }
    }
    None
}

// Question 30, and the order where the answer is yes.
fn settle(n: usize, pairs: &[u8], places: &mut [u8; 16]) -> bool
    requires { (n ≤ 12) × ((i : ℕ) → i < length pairs.now → at pairs.now i < 16) }
    ensures { Settled n pairs.now places.old places.new result }
{
    let mut befores = [0u64; 16];
    forerunners(pairs, &mut befores);
    let mut settled = 0u64;
    for k in 0..n {
        let Some(x) = next(n, &befores, settled) else {
            return false;
        };
        places[k] = x as u8;
        settled |= 1u64 << x;
    }
    true
}

// The order in the first n bytes, or the first question whose answer is no; then the bytes are as they were.
pub fn settling_order(n: usize, pairs: &[u8], order: &mut [u8; 16]) -> Result<(), Question>
    requires { (n ≤ 12) × (length order.old ≡ 16) }
    ensures { Ordered n pairs.now order.old order.new result }
{
    if pairs.len() > 128 || pairs.len() % 2 != 0 {
        return Err(Question::WholePairs);
    }
    if !all_below(pairs, n) {
        return Err(Question::PairPlaces);
    }
    let mut places = *order;
    if !settle(n, pairs, &mut places) {
        return Err(Question::NoCircle);
    }
    *order = places;
    Ok(())
}
