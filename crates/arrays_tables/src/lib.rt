// The search's tables, made once from the compiled problem: constraints on two variables by variable, constraints on three by unions in numbers of
// eight lanes and by the depth of their look-ups, and for each symmetry and pair the images of the smaller values.
#![tactic(auto)]

ghost use Rattle.model.specs.Problem.{Problem};
ghost use Rattle.arrays_tables.specs.Inner.Index.{Compact, Made};

use arrays::{Images, LOOSE, Numbers, Supports, Tables};

mod image_tables;
mod linked;
mod looks;
mod loose;
mod rows;
mod sets;
mod spreads;
mod unions;
mod words;

pub fn index(numbers: &mut Numbers, supports: &Supports, images: &Images, tables: &mut Tables)
    requires { (p : Problem) × Compact p numbers.old supports.now images.now tables.old }
    ensures { (p : Problem) → Compact p numbers.old supports.now images.now tables.old → Made p
        numbers.old supports.now tables.old numbers.new tables.new }
{
    linked::linked(numbers);
    rows::rows(numbers, supports, tables);
    let set = loose::loose(numbers, tables);
    numbers[LOOSE] = set;
    looks::looks(numbers);
    spreads::by_lanes(supports, numbers);
    image_tables::image_tables(numbers, images, tables);
}
