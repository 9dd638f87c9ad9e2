// The number of families of a run (paper 02, #104).
#![tactic(auto)]

ghost use Rattle.export_families.specs.Families.{CallFigured};

use wire::{WRONG_LENGTH, refusal_code, three};

// The families of a run that is lent a sheet, pairs and a block, where it and the run without exchanges, both with this node limit and room for 4,096
// plans, are finished. The answer has 12 bytes, three numbers of four bytes, low byte first: 1, their number, 0; else 2, 0, 0, the dash. Returns 0; or
// a refusal, and then the answer is as it came; or, asked first, 255 times 256 where the answer has not 12 bytes.
pub fn families(sheet: &[u8], pairs: &[u8], block: &[u8], limit: u32, answer: &mut [u8]) -> u32
    ensures { CallFigured sheet.now pairs.now block.now limit answer.old result answer.new }
{
    if answer.len() != 12 {
        return WRONG_LENGTH;
    }
    match families_count::families(sheet, pairs, block, limit) {
        Ok(None) => {
            three(answer, 2, 0, 0);
            0
        }
        Ok(Some(k)) => {
            three(answer, 1, k, 0);
            0
        }
        Err(refusal) => refusal_code(refusal),
    }
}
