// Questions 15 and 16 (paper 01), for one table of a sheet.
#![tactic(auto)]

mod walk;

ghost use Rattle.std.specs.Prelude.{◌≡◌};
ghost use Rattle.model.specs.Problem.{Problem};
ghost use Rattle.sheet_table.specs.Inner.Table.{Asked, table_answer};

use arrays::{Numbers, Supports};
use model::refusals::Question;
use sheet_table::{moves, table};

// The first of both questions whose answer is no for the table at an offset, if there is one.
pub fn table_question(
    sheet: &[u8],
    offset: usize,
    numbers: &Numbers,
    supports: &Supports,
) -> Result<(), Question>
    requires { (p : Problem) × Asked p sheet.now offset numbers.now supports.now }
    ensures { (p : Problem) → Asked p sheet.now offset numbers.now supports.now → result ≡ table_answer p
        sheet.now offset }
{
    let mut codes = [0u8; 256];
    let mut moves = [0u8; 256];
    if !table::decode(sheet, offset, numbers, &mut codes, &mut moves) {
        return Err(Question::PairsPermuted);
    }
    moves::targets(numbers, &codes, &mut moves);
    if !walk::variables(numbers, supports, &codes, &moves) {
        return Err(Question::Respected);
    }
    if !walk::constraints(numbers, supports, &codes, &moves) {
        return Err(Question::Respected);
    }
    Ok(())
}
