// Questions put to a sheet (paper 01), and the compiled problem of an accepted one.
#![tactic(auto)]

ghost use Rattle.std.specs.Prelude.{◌≡◌, length};
ghost use Rattle.sheet.specs.Calls.{CallQuestion};
ghost use Rattle.sheet.specs.Inner.Form.{Zeros, Compilation, Recompilation};
ghost use Rattle.arrays.specs.Inner.Places.{IMAGES, NUMBERS, SUPPORTS};

mod constraints; // questions 9 to 13
mod form; // questions 1 to 14
mod heading; // questions 2 to 7
mod rows; // questions 12 and 13 to one constraint
mod sets; // question 8
mod tables; // questions 15 and 16, and the images

use arrays::{Images, NUMBERS, Numbers, SUPPORTS, Supports};
use model::refusals::Refusal;

// All questions, in their order, to any bytes: refused by the first whose answer is no.
pub fn question(sheet: &[u8]) -> Result<(), Refusal>
    ensures { CallQuestion sheet.now result }
{
    let mut numbers = [0u64; NUMBERS];
    let mut supports = [0u16; SUPPORTS];
    let h = form::read(sheet, &mut numbers, &mut supports)?;
    tables::ask(sheet, h, &numbers, &supports)
}

// The same, and for an accepted sheet the arrays of the compiled problem (crate arrays).
// `numbers` and `supports` are lent full of zeros; after a refusal the arrays hold nothing that is meant.
pub fn compile(
    sheet: &[u8],
    numbers: &mut Numbers,
    supports: &mut Supports,
    images: &mut Images,
) -> Result<(), Refusal>
    requires { Zeros NUMBERS numbers.old × Zeros SUPPORTS supports.old × (length images.old ≡ IMAGES) }
    ensures { Compilation sheet.now numbers.new supports.new images.new result }
{
    let h = form::read(sheet, numbers, supports)?;
    tables::ask(sheet, h, numbers, supports)?;
    tables::decode_all(sheet, h, numbers, true, images);
    Ok(())
}

// The same without question 16: the arrays of the compiled problem of bytes that pass questions 1 to 15, and whether they do.
pub fn recompile(
    sheet: &[u8],
    numbers: &mut Numbers,
    supports: &mut Supports,
    images: &mut Images,
) -> bool
    requires { Zeros NUMBERS numbers.old × Zeros SUPPORTS supports.old × (length images.old ≡ IMAGES) }
    ensures { Recompilation sheet.now numbers.new supports.new images.new result }
{
    match form::read(sheet, numbers, supports) {
        Ok(h) => tables::decode_all(sheet, h, numbers, false, images),
        Err(_) => false,
    }
}
