// Whether a run's exchanges are closed, or the first two that aren't (paper 02, #112): on the images of a compiled problem, and for callers.
#![tactic(auto)]

ghost use Rattle.std.specs.Prelude.{◌≡◌, ℕ, ◌+◌, ◌*◌, ◌≤◌, ◌<◌, length, List};
ghost use Rattle.model.specs.Lists.{at};
ghost use Rattle.model.specs.Problem.{Problem};
ghost use Rattle.arrays.specs.Inner.Layout.{pair_code_of};
ghost use Rattle.model.specs.Problem.{symmetry_at};
ghost use Rattle.families.specs.Families.{makes, moves_nothing};
ghost use Rattle.run_input.specs.Lent.{problem_with};
ghost use Rattle.families_closed.specs.Open.{made, first_open};
ghost use Rattle.families_closed.specs.Inner.Held.{Held, Passed};
ghost use Rattle.families_closed.specs.Lent.{open_of};
ghost use Rattle.families_closed.specs.Calls.{CallClosed};

use arrays::{IMAGES, Images, NUMBERS, Numbers, SUPPORTS, VALUES, VARIABLES, WIDE, Wide};
use model::refusals::Refusal;

// The first two symmetries, by number, whose product is missing.
#[derive(Clone, Copy, Debug, PartialEq, Eq)]
pub struct Missing {
    pub first: usize,
    pub second: usize,
}

// The symmetries of a run: how many there are, and the images of the pairs under each.
#[derive(Clone, Copy)]
struct Symmetries<'a> {
    images: &'a Wide,
    variables: usize,
    values: usize,
    count: usize,
}

impl<'a> Symmetries<'a> {
    // The code of number q: 16 times its variable and its value.
    fn code(&self, q: usize) -> usize
        requires { (1 ≤ self.now.values) × (q < 192) }
        ensures { result ≡ pair_code_of self.now.values q }
    {
        16 * (q / self.values) + q % self.values
    }

    // The code to which symmetry e takes a code.
    fn goes(&self, e: usize, code: usize) -> usize
        requires { (e < 136) × (code < 192) × (at self.now.images.now (192 * e + code) < 192) }
        ensures { result ≡ at self.now.images.now (192 * e + code) }
    {
        usize::from(self.images[192 * e + code])
    }

    // Whether symmetry a and then symmetry b take each number to where symmetry c takes it.
    fn makes_one(&self, a: usize, b: usize, c: usize) -> bool
        requires { (p : Problem) × Held p self.now.images.now self.now.variables self.now.values × (a < length p.symmetries) × (b < length p.symmetries) ×
            (c < length p.symmetries) }
        ensures { (p : Problem) → Held p self.now.images.now self.now.variables self.now.values → a < length p.symmetries → b < length p.symmetries → c < length
            p.symmetries → result ≡ makes p (symmetry_at p a) (symmetry_at p b) (symmetry_at p c) }
    {
        for q in 0..self.variables * self.values {
            let place = self.code(q);
            if self.goes(b, self.goes(a, place)) != self.goes(c, place) {
                return false;
            }
        }
        true
    }

    // Whether symmetry a and then symmetry b leave each number where it is.
    fn moves_none(&self, a: usize, b: usize) -> bool
        requires { (p : Problem) × Held p self.now.images.now self.now.variables self.now.values × (a < length p.symmetries) × (b < length p.symmetries) }
        ensures { (p : Problem) → Held p self.now.images.now self.now.variables self.now.values → a < length p.symmetries → b < length p.symmetries
            → result ≡ moves_nothing p (symmetry_at p a) (symmetry_at p b) }
    {
        for q in 0..self.variables * self.values {
            let place = self.code(q);
            if self.goes(b, self.goes(a, place)) != place {
                return false;
            }
        }
        true
    }

    // Whether symmetry a and then symmetry b make one of the symmetries, or move nothing.
    fn is_made(&self, a: usize, b: usize) -> bool
        requires { (p : Problem) × Held p self.now.images.now self.now.variables self.now.values × (self.now.count ≡ length p.symmetries) ×
            (a < self.now.count) × (b < self.now.count) }
        ensures { (p : Problem) → Held p self.now.images.now self.now.variables self.now.values → self.now.count ≡ length p.symmetries →
            a < self.now.count → b < self.now.count → result ≡ made p a b }
    {
        if self.moves_none(a, b) {
            return true;
        }
        for c in 0..self.count {
            if self.makes_one(a, b, c) {
                return true;
            }
        }
        false
    }

    // The first two that make none of them one after the other: pair number k is symmetry k / count and then symmetry k % count.
    fn first_missing(&self) -> Option<Missing>
        requires { (p : Problem) × Held p self.now.images.now self.now.variables self.now.values × (self.now.count ≡ length p.symmetries) }
        ensures { (p : Problem) → Held p self.now.images.now self.now.variables self.now.values → self.now.count ≡ length p.symmetries →
            open_of result ≡ first_open p }
    {
        for k in 0..self.count * self.count {
            let first = k / self.count;
            let second = k % self.count;
            if !self.is_made(first, second) {
                return Some(Missing { first, second });
            }
        }
        None
    }
}

// The test of a run whose questions are passed.
fn test(block: &[u8], numbers: &Numbers, images: &Images) -> Option<Missing>
    requires { (b : List ℕ) × (pairs : List ℕ) × Passed b pairs block.now numbers.now images.now }
    ensures { (b pairs : List ℕ) → Passed b pairs block.now numbers.now images.now → open_of result ≡
        first_open (problem_with b block.now) }
{
    let mut wide = [0u8; WIDE];
    arrays_block::widen(images, &mut wide);
    let count = arrays_block::put_images(block, numbers, &mut wide);
    let symmetries = Symmetries {
        images: &wide,
        variables: numbers[VARIABLES] as usize,
        values: numbers[VALUES] as usize,
        count,
    };
    symmetries.first_missing()
}

// The first two exchanges of a run that is lent a sheet, pairs and a block whose product is missing, none where they are closed: the sheet's own
// exchanges, then the block's rows.
pub fn closed(sheet: &[u8], pairs: &[u8], block: &[u8]) -> Result<Option<Missing>, Refusal>
    ensures { CallClosed sheet.now pairs.now block.now result }
{
    let mut numbers = [0u64; NUMBERS];
    let mut supports = [0u16; SUPPORTS];
    let mut images = [0u8; IMAGES];
    let mut order = [0u8; 16];
    run_input::ask(
        sheet,
        pairs,
        block,
        &mut numbers,
        &mut supports,
        &mut images,
        &mut order,
    )?;
    Ok(test(block, &numbers, &images))
}
