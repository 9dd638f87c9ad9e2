// Whether a forbidden set lies among two pairs.
ghost use Rattle.std.specs.Prelude.{◌≡◌, true, [], ◌∷◌, ◌/◌, ◌<◌, T};
ghost use Rattle.model.specs.ValueSets.{members};
ghost use Rattle.model.specs.Problem.{Problem};
ghost use Rattle.sheet_table.specs.Inner.Forbidden.{Triple, Beside, blocked as blockedBy, number_of, all_blocked};

use super::forbidden::{arity, blocked, support};
use arrays::{Numbers, Supports};
use model::ValueSet;
use sheet_table::moves::place;
use sheet_table::table::number;

// True only where a constraint on two variables refuses the pairs a and b, of which a has the lower.
fn refused_two(numbers: &Numbers, supports: &Supports, a: usize, b: usize) -> bool
    requires { ((p : Problem) × Triple p numbers.now supports.now 255 a b) × (a / 16 < b / 16) }
    ensures { result ≡ true → (p : Problem) → Triple p numbers.now supports.now 255 a b → T
        (blockedBy p (number_of p a ∷ number_of p b ∷ [])) }
{
    let set = number(numbers, a / 16) & number(numbers, b / 16);
    if set == 0 {
        return false;
    }
    let k = usize::trailing_zeros(set) as usize;
    if arity(numbers, k) != 2 {
        return false;
    }
    !support(supports, 256 * k + a % 16).contains((b % 16) as u16)
}

// Whether some forbidden set lies among two pairs.
fn pair_blocked(numbers: &Numbers, supports: &Supports, a: usize, b: usize) -> bool
    requires { (p : Problem) × Triple p numbers.now supports.now 255 a b }
    ensures { (p : Problem) → Triple p numbers.now supports.now 255 a b → result ≡ blockedBy p
        (number_of p 255 ∷ number_of p a ∷ number_of p b ∷ []) }
{
    if a / 16 < b / 16 {
        if refused_two(numbers, supports, a, b) {
            return true;
        }
    }
    if b / 16 < a / 16 {
        if refused_two(numbers, supports, b, a) {
            return true;
        }
    }
    blocked(numbers, supports, 255, a, b)
}

// Whether the pair b is blocked with the image of (x, v) for each v of a set.
pub fn pairs_blocked(
    numbers: &Numbers,
    supports: &Supports,
    codes: &[u8; 256],
    x: usize,
    set: ValueSet,
    b: usize,
) -> bool
    requires { (p : Problem) × Beside p numbers.now supports.now codes.now x set.bits 255 b }
    ensures { (p : Problem) → Beside p numbers.now supports.now codes.now x set.bits 255 b → result ≡ all_blocked p
        codes.now x 255 b (members set.bits) }
{
    for v in set.members() {
        if !pair_blocked(numbers, supports, b, place(codes, 16 * x + v as usize)) {
            return false;
        }
    }
    true
}
