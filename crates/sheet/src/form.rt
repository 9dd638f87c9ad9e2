// Questions 1 to 14, and the numbers and support sets of the compiled problem (its layout is in crate arrays).
ghost use Rattle.std.specs.Prelude.{◌^◌, ◌≤◌, ◌<◌, ◌≡◌, length};
ghost use Rattle.model.specs.Sheet.{header_of, tables_fit};
ghost use Rattle.arrays.specs.Inner.Places.{SUPPORTS, NUMBERS};
ghost use Rattle.reader.specs.Inner.Read.{stated};
ghost use Rattle.sheet.specs.Inner.Form.{Zeros, counted, FormAsked, FormRead};

use crate::{constraints, heading, sets};
use arrays::{CONSTRAINTS, Numbers, SYMMETRIES, Supports, VALUES, VARIABLES};
use model::refusals::{Question, Refusal};
use reader::{Header, read_header};

// Question 14: the symmetries' tables fill the rest.
fn tables_fit(h: Header) -> bool
    requires { (h.variables ≤ 12) × (h.values ≤ 16) × (h.symmetries ≤ 16) × (h.third < 2 ^ 63) }
    ensures { result ≡ tables_fit (stated h) }
{
    h.size == h.third + 2 * (h.symmetries * (h.variables * h.values))
}

fn store_counts(h: Header, numbers: &mut Numbers)
    ensures { numbers.new ≡ counted h.variables h.values h.constraints h.symmetries numbers.old }
{
    numbers[VARIABLES] = h.variables as u64;
    numbers[VALUES] = h.values as u64;
    numbers[CONSTRAINTS] = h.constraints as u64;
    numbers[SYMMETRIES] = h.symmetries as u64;
}

// Questions 2 to 14 to a sheet that passed question 1. The arrays are lent full of zeros.
fn ask(
    sheet: &[u8],
    h: Header,
    numbers: &mut Numbers,
    supports: &mut Supports,
) -> Result<(), Refusal>
    requires { (16 ≤ length sheet.now) × (stated h ≡ header_of sheet.now) × Zeros NUMBERS numbers.old × Zeros SUPPORTS supports.old }
    ensures { FormAsked sheet.now numbers.new supports.new result }
{
    heading::ask(h, sheet.len())?;
    sets::ask(sheet, h.variables, h.values, numbers)?;
    constraints::ask(sheet, h, numbers, supports)?;
    if !tables_fit(h) {
        return Err(Question::TableLength.into());
    }
    store_counts(h, numbers);
    Ok(())
}

// Question 1, the one reading of the header, and the other questions with it.
pub fn read(sheet: &[u8], numbers: &mut Numbers, supports: &mut Supports) -> Result<Header, Refusal>
    requires { Zeros NUMBERS numbers.old × Zeros SUPPORTS supports.old }
    ensures { FormRead sheet.now numbers.new supports.new result }
{
    if sheet.len() < 16 {
        return Err(Question::Header.into());
    }
    let h = read_header(sheet);
    ask(sheet, h, numbers, supports)?;
    Ok(h)
}
