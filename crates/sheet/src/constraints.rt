// Questions 9 to 13, and what they store of each constraint: its scope, and the set of constraints that touch a variable.
ghost use Rattle.std.specs.Prelude.{◌+◌, ◌*◌, ◌≤◌, ◌<◌, ◌≡◌, length, leb};
ghost use Rattle.model.specs.Lists.{both};
ghost use Rattle.model.specs.Sheet.{header_of};
ghost use Rattle.sheet.specs.Inner.Fill.{touch as touchAt, ScopeAsked};
ghost use Rattle.sheet.specs.Inner.Parts.{Fit};
ghost use Rattle.reader.specs.Inner.Read.{stated};
ghost use Rattle.sheet.specs.Inner.Steps.{ConstraintAsked, ConstraintsAsked};

use crate::rows;
use arrays::{Numbers, SCOPES, Supports};
use model::refusals::{Question, Refusal};
use reader::{Header, read_word};

// Question 10: one to three variables, at most 256 rows.
fn counts_fit(a: usize, r: usize) -> bool
    ensures { result ≡ both (both (leb 1 a) (leb a 3)) (leb r 256) }
{
    1 <= a && a <= 3 && r <= 256
}

// Constraint k into the set of those that touch a variable.
fn touch(k: usize, x: usize, numbers: &mut Numbers)
    requires { (k < 32) × (x < 16) }
    ensures { numbers.new ≡ touchAt k x numbers.old }
{
    numbers[x] |= 1u64 << k;
}

// Question 11 to the scope of a variables at an offset: below n, strictly ascending.
fn scope(sheet: &[u8], from: usize, a: usize, n: usize, k: usize, numbers: &mut Numbers) -> bool
    requires { (1 ≤ a) × (a ≤ 3) × (n ≤ 12) × (k < 32) × (from + 2 * a ≤ length sheet.now) }
    ensures { ScopeAsked sheet.now from a n k numbers.old numbers.new result }
{
    let mut packed = a;
    let mut unit = 256;
    let mut least = 0;
    for i in 0..a {
        let x = read_word(sheet, from + 2 * i);
        if x < least {
            return false;
        }
        if n <= x {
            return false;
        }
        touch(k, x, numbers);
        packed += x * unit;
        unit *= 256;
        least = x + 1;
    }
    numbers[SCOPES + k] = packed as u64;
    true
}

// Questions 9 to 13 to constraint k at an offset, and where the next stands.
fn constraint(
    sheet: &[u8],
    n: usize,
    d: usize,
    third: usize,
    o: usize,
    k: usize,
    numbers: &mut Numbers,
    supports: &mut Supports,
) -> Result<usize, Question>
    requires { Fit sheet.now × (n ≡ (header_of sheet.now).variables) × (d ≡ (header_of sheet.now).values) × (third ≡ (header_of sheet.now).third) ×
        (o ≤ third) × (k < 32) }
    ensures { ConstraintAsked sheet.now o k numbers.old supports.old numbers.new supports.new result }
{
    if third < o + 4 {
        return Err(Question::ConstraintEnd);
    }
    let a = read_word(sheet, o);
    let r = read_word(sheet, o + 2);
    if !counts_fit(a, r) {
        return Err(Question::ConstraintSize);
    }
    let from = o + 4 + 2 * a;
    let next = from + 2 * (r * a);
    if third < next {
        return Err(Question::ConstraintEnd);
    }
    if !scope(sheet, o + 4, a, n, k, numbers) {
        return Err(Question::Scope);
    }
    rows::ask(sheet, from, a, r, d, 256 * k, supports)?;
    Ok(next)
}

// Questions 9 to 13 to each constraint in turn; after the last, whether it ends at the third offset.
pub fn ask(
    sheet: &[u8],
    h: Header,
    numbers: &mut Numbers,
    supports: &mut Supports,
) -> Result<(), Refusal>
    requires { Fit sheet.now × (stated h ≡ header_of sheet.now) }
    ensures { ConstraintsAsked sheet.now numbers.old supports.old numbers.new supports.new result }
{
    let c = h.constraints;
    let mut o = h.second;
    for k in 0..c {
        o = constraint(
            sheet,
            h.variables,
            h.values,
            h.third,
            o,
            k,
            numbers,
            supports,
        )
        .map_err(move |question| Refusal { question, item: k })?;
    }
    if o != h.third {
        return Err(Refusal {
            question: Question::ConstraintEnd,
            item: c,
        });
    }
    Ok(())
}
