// Question 8, and the initial sets, into `numbers` from 16 on.
ghost use Rattle.std.specs.Prelude.{not, ◌≡◌, leb, eqb};
ghost use Rattle.model.specs.Lists.{both};
ghost use Rattle.model.specs.Sheet.{header_of};
ghost use Rattle.sheet.specs.Inner.Parts.{Fit, SetsAsked, ZeroSets};

use arrays::{INITIAL, Numbers};
use model::ValueSet;
use model::refusals::{Question, Refusal};
use reader::read_word;

// Whether a number is a set that is not empty, of values of the full set.
fn is_set(s: usize, full: ValueSet) -> bool
    ensures { result ≡ both (leb s full.bits) (not (eqb s 0)) }
{
    s <= full.bits as usize && s != 0
}

// The set {0} for each of the sixteen variables: it stays for those from n up.
fn fill(numbers: &mut Numbers)
    ensures { ZeroSets numbers.old numbers.new }
{
    let first = ValueSet::full(1);
    for x in 0..16 {
        numbers[INITIAL + x] = first.bits as u64;
    }
}

pub fn ask(sheet: &[u8], n: usize, d: usize, numbers: &mut Numbers) -> Result<(), Refusal>
    requires { Fit sheet.now × (n ≡ (header_of sheet.now).variables) × (d ≡ (header_of sheet.now).values) }
    ensures { SetsAsked sheet.now n numbers.old numbers.new result }
{
    fill(numbers);
    let full = ValueSet::full(d as u16);
    for x in 0..n {
        let s = read_word(sheet, 16 + 2 * x);
        if !is_set(s, full) {
            return Err(Refusal {
                question: Question::InitialSet,
                item: x,
            });
        }
        numbers[INITIAL + x] = s as u64;
    }
    Ok(())
}
