// The heads of parts joined, with the answer in lent bytes.
#![tactic(auto)]

mod pieces;

ghost use Rattle.export_join.specs.Joined.{CallJoinBytes};

use crate::pieces::{kind, put_missing, put_sums, put_zeros};
use wire::{WRONG_LENGTH, refusal_code};

// Joins heads of 115 bytes each. The answer has 152 bytes: 1 joined or 2 missing, the sums in 64 bits, the missing range. Returns 0, or the
// number of the refusal times 256, or, asked first, 255 times 256 where the answer has not 152 bytes; the answer is then as it came.
pub fn join_heads(heads: &[u8], answer: &mut [u8]) -> u32
    ensures { CallJoinBytes heads.now answer.old result answer.new }
{
    if answer.len() != 152 {
        return WRONG_LENGTH;
    }
    match run_join::join(heads) {
        Err(question) => refusal_code(question.into()),
        Ok(joining) => {
            let kind = kind(joining.missing);
            put_sums(answer, kind, joining.plans, joining.nodes, joining.counts);
            put_missing(answer, heads, joining.missing);
            put_zeros(answer);
            0
        }
    }
}
