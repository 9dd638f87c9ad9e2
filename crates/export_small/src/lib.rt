// Every small sheet (paper 02, #114).
#![tactic(auto)]

ghost use Rattle.export_small.specs.Calls.{CallSmallBytes};

use wire::{WRONG_LENGTH, refusal_code, three};

// Writes the small sheet at position k, from 0, to the front of the room. The answer has 12 bytes, three numbers of four bytes, low byte
// first: 1, the number of bytes written, 0. Answers 0; or a refusal, and then both buffers are as they came; or, asked first, 255 times
// 256 where the answer has not 12 bytes.
pub fn small_sheet(k: u32, out: &mut [u8], answer: &mut [u8]) -> u32
    ensures { CallSmallBytes k out.old answer.old result out.new answer.new }
{
    if answer.len() != 12 {
        return WRONG_LENGTH;
    }
    match sheet_small::small_sheet(k as usize, out) {
        Err(question) => refusal_code(question.into()),
        Ok(bytes) => {
            three(answer, 1, bytes, 0);
            0
        }
    }
}
