// One list from two (paper 02, #106). The answer has 12 bytes, three numbers of four bytes, low byte first: 1, then the number of bytes
// written, its low half and its high half.
#![tactic(auto)]

ghost use Rattle.export_merge.specs.Merged.{CallMerged};

use wire::{WRONG_LENGTH, refusal_code, three};

// Writes the rows of either list, ascending, each once. Returns 0; or a refusal, and then every buffer is as it came; or, asked first, 255 times
// 256 where the answer has not 12 bytes.
pub fn merge<'a>(
    variables: u32,
    pairs: &[u8],
    first: &'a [u8],
    second: &'a [u8],
    out: &mut [u8],
    answer: &mut [u8],
) -> u32
    ensures { CallMerged variables pairs.now first.now second.now out.old answer.old result
        out.new answer.new }
{
    if answer.len() != 12 {
        return WRONG_LENGTH;
    }
    match list_merge::merge(variables as usize, pairs, first, second, out) {
        Err(question) => refusal_code(question.into()),
        Ok(count) => {
            three(answer, 1, count % 4294967296, count / 4294967296);
            0
        }
    }
}
