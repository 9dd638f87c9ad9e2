// Whether the exchanges of a run are closed (paper 02, #112).
#![tactic(auto)]

ghost use Rattle.export_closed.specs.Calls.{CallClosedBytes};

use wire::{WRONG_LENGTH, refusal_code, three};

// The exchanges of a run that is lent a sheet, pairs and a block: the sheet's own, then the block's rows. The answer has 12 bytes, three numbers of
// four bytes, low byte first: 1, 0, 0 where they are closed; else 2 and the first two, by number, whose product is missing. Returns 0; or a refusal, and
// then the answer is as it came; or, asked first, 255 times 256 where the answer has not 12 bytes.
pub fn closed(sheet: &[u8], pairs: &[u8], block: &[u8], answer: &mut [u8]) -> u32
    ensures { CallClosedBytes sheet.now pairs.now block.now answer.old result answer.new }
{
    if answer.len() != 12 {
        return WRONG_LENGTH;
    }
    match families_closed::closed(sheet, pairs, block) {
        Ok(None) => {
            three(answer, 1, 0, 0);
            0
        }
        Ok(Some(missing)) => {
            three(answer, 2, missing.first, missing.second);
            0
        }
        Err(refusal) => refusal_code(refusal),
    }
}
