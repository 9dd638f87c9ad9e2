// Where a table takes the variables, and which values its images come from.
ghost use Rattle.std.specs.Prelude.{◌≡◌, ◌+◌, ◌*◌, ◌<◌};
ghost use Rattle.model.specs.Lists.{at};
ghost use Rattle.model.specs.Problem.{Problem};
ghost use Rattle.sheet_table.specs.Inner.Table.{Framed};
ghost use Rattle.sheet_table.specs.Inner.Forbidden.{Blank, Target, Targets};

use super::table::{initial, number};
use arrays::{Numbers, VARIABLES};
use model::wide;

// From here on, for each variable the one that all of its pairs go to, or 15.
pub const TO: usize = 192;

// An element of the codes, or of what is made of them here.
pub fn place(bytes: &[u8; 256], i: usize) -> usize
    requires { i < 256 }
    ensures { (result ≡ at bytes.now i) × (result < 256) }
{
    wide(bytes[i])
}

// The variable that all pairs of variable x go to, 15 where they go to several.
fn goes_to(numbers: &Numbers, codes: &[u8; 256], x: usize) -> usize
    requires { (p : Problem) × Framed p numbers.now × (x < p.variables) }
    ensures { (result < 16) × ((p : Problem) → Framed p numbers.now → x < p.variables → Target p codes.now x result) }
{
    let values = initial(numbers, x);
    let y = place(codes, 16 * x + values.lowest() as usize) / 16;
    for v in values.members() {
        if place(codes, 16 * x + v as usize) / 16 != y {
            return 15;
        }
    }
    y
}

// The same for each variable, into `moves`, which has the values that images come from.
pub fn targets(numbers: &Numbers, codes: &[u8; 256], moves: &mut [u8; 256])
    requires { ((p : Problem) × Framed p numbers.now) × Blank codes.now moves.old }
    ensures { Targets numbers.now codes.now moves.old moves.new }
{
    let n = number(numbers, VARIABLES);
    for x in 0..n {
        moves[TO + x] = goes_to(numbers, codes, x) as u8;
    }
}
