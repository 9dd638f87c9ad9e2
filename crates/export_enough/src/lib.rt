// At least m plans (paper 02, #101)?
#![tactic(auto)]

ghost use Rattle.std.specs.Prelude.{◌≡◌, Ok, length};
ghost use Rattle.run.specs.Meaning.{said_enough};
ghost use Rattle.export_enough.specs.Enough.{said_bytes};
ghost use Rattle.export_enough.specs.Calls.{CallEnoughBytes};
ghost use Rattle.export_enough.specs.Inner.Inner.{SmallSaid};

use run::Enough;
use wire::{WRONG_LENGTH, refusal_code, three};

// What was said, as three numbers.
fn said(out: &mut [u8], e: Enough)
    requires { (length out.old ≡ 12) × SmallSaid (said_enough (Ok e)) }
    ensures { out.new ≡ said_bytes (said_enough (Ok e)) out.old }
{
    match e {
        Enough::Yes(plans, nodes) => three(out, 1, plans, nodes),
        Enough::No(plans, nodes) => three(out, 2, plans, nodes),
        Enough::Spent(plans, nodes) => three(out, 3, plans, nodes),
    }
}

// Are there at least so many plans? Returns 0, or the refusal, or, asked first, 255 times 256 where the answer has not 12 bytes; the answer is then
// as it came.
pub fn at_least(
    sheet: &[u8],
    pairs: &[u8],
    block: &[u8],
    plans: u32,
    limit: u32,
    answer: &mut [u8],
) -> u32
    ensures { CallEnoughBytes sheet.now pairs.now block.now plans limit answer.old result answer.new }
{
    if answer.len() != 12 {
        return WRONG_LENGTH;
    }
    match run::at_least(sheet, pairs, block, plans as usize, limit) {
        Ok(e) => {
            said(answer, e);
            0
        }
        Err(refusal) => refusal_code(refusal),
    }
}
