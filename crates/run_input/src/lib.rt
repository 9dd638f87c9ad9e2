// A run that is lent a sheet, pairs and a block (paper 02, #108 and #111): its questions, and the compiled problem whose tree the run walks.
#![tactic(auto)]

ghost use Rattle.std.specs.Prelude.{◌≡◌, length};
ghost use Rattle.model.specs.Problem.{Problem};
ghost use Rattle.arrays.specs.Inner.Places.{IMAGES, NUMBERS, SUPPORTS};
ghost use Rattle.sheet.specs.Inner.Form.{Zeros};
ghost use Rattle.arrays_block.specs.Inner.Asked.{Held};
ghost use Rattle.run_input.specs.Calls.{CallQuestionLent};
ghost use Rattle.run_input.specs.Inner.Compile.{Lendings, AskedLent, CompiledLent};

use arrays::{IMAGES, Images, NUMBERS, Numbers, SUPPORTS, Supports, VARIABLES};
use model::refusals::Refusal;

// Questions 28 to 30, and the order of the variables in the first bytes; then the block's questions.
fn lendings(
    pairs: &[u8],
    block: &[u8],
    numbers: &Numbers,
    supports: &Supports,
    order: &mut [u8; 16],
) -> Result<(), Refusal>
    requires { (p : Problem) × Held p numbers.now supports.now }
    ensures { (p : Problem) → Held p numbers.now supports.now → Lendings p pairs.now block.now
        order.new result }
{
    let n = numbers[VARIABLES] as usize;
    order::settling_order(n, pairs, order).map_err(|question| Refusal { question, item: 0 })?;
    arrays_block::question(block, numbers, supports)
}

// All questions in their order; where there is no "no", the arrays hold the sheet's problem, its variables by place.
pub fn ask(
    sheet: &[u8],
    pairs: &[u8],
    block: &[u8],
    numbers: &mut Numbers,
    supports: &mut Supports,
    images: &mut Images,
    order: &mut [u8; 16],
) -> Result<(), Refusal>
    requires { Zeros NUMBERS numbers.old × Zeros SUPPORTS supports.old × (length images.old ≡ IMAGES) × (length order.old ≡ 16) }
    ensures { AskedLent sheet.now pairs.now block.now numbers.new supports.new
        images.new order.new result }
{
    sheet::compile(sheet, numbers, supports, images)?;
    lendings(pairs, block, numbers, supports, order)
}

// All questions, in their order, to any bytes.
pub fn question(sheet: &[u8], pairs: &[u8], block: &[u8]) -> Result<(), Refusal>
    ensures { CallQuestionLent sheet.now pairs.now block.now result }
{
    let mut numbers = [0u64; NUMBERS];
    let mut supports = [0u16; SUPPORTS];
    let mut images = [0u8; IMAGES];
    let mut order = [0u8; 16];
    ask(
        sheet,
        pairs,
        block,
        &mut numbers,
        &mut supports,
        &mut images,
        &mut order,
    )
}

// The same, and for an accepted lending the arrays of the compiled problem (crate arrays) with its variables in the settling order, and that order in the
// first bytes of `order`. `numbers` and `supports` are lent full of zeros; after a refusal the arrays hold nothing that is meant.
// Without pairs the order is 0, 1, .., and the problem is the sheet's own.
pub fn compile(
    sheet: &[u8],
    pairs: &[u8],
    block: &[u8],
    numbers: &mut Numbers,
    supports: &mut Supports,
    images: &mut Images,
    order: &mut [u8; 16],
) -> Result<(), Refusal>
    requires { Zeros NUMBERS numbers.old × Zeros SUPPORTS supports.old × (length images.old ≡ IMAGES) × (length order.old ≡ 16) }
    ensures { CompiledLent sheet.now pairs.now block.now numbers.new supports.new
        images.new order.new result }
{
    ask(sheet, pairs, block, numbers, supports, images, order)?;
    if !pairs.is_empty() {
        arrays_order::reorder(order, numbers, supports, images);
    }
    Ok(())
}
