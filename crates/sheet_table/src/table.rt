// A table of a sheet as its words stand there, and its images as codes.
ghost use Rattle.std.specs.Prelude.{◌≡◌, ◌+◌, ◌*◌, ◌<◌};
ghost use Rattle.model.specs.Lists.{at};
ghost use Rattle.model.specs.Problem.{Problem, is_pair};
ghost use Rattle.arrays.specs.Inner.Places.{NUMBERS};
ghost use Rattle.sheet_table.specs.Inner.Table.{Framed, TableAt};
ghost use Rattle.sheet_table.specs.Inner.Forbidden.{Blank, Decoding};

use crate::pair_code;
use arrays::{INITIAL, Numbers, VALUES, VARIABLES};
use model::ValueSet;
use reader::read_word;

// An element of `numbers`.
pub fn number(numbers: &Numbers, i: usize) -> usize
    requires { i < NUMBERS }
    ensures { result ≡ at numbers.now i }
{
    numbers[i] as usize
}

// The initial set of a variable.
pub fn initial(numbers: &Numbers, x: usize) -> ValueSet
    requires { (p : Problem) × Framed p numbers.now × (x < p.variables) }
    ensures { (p : Problem) → Framed p numbers.now → x < p.variables → result.bits ≡ at p.initial x }
{
    ValueSet {
        bits: number(numbers, INITIAL + x) as u16,
    }
}

// Whether a number is that of a pair.
pub fn is_pair(numbers: &Numbers, q: usize) -> bool
    requires { (p : Problem) × Framed p numbers.now }
    ensures { (p : Problem) → Framed p numbers.now → result ≡ is_pair p q }
{
    let n = number(numbers, VARIABLES);
    let d = number(numbers, VALUES);
    q < n * d && initial(numbers, q / d).contains((q % d) as u16)
}

// Whether each number that is no pair stands for itself, and the pairs are permuted among themselves. If so, `codes` has the codes
// of the pairs' images, that of the image of (x, v) at 16 x + v, and `moves` at each of these codes the value v.
pub fn decode(
    sheet: &[u8],
    offset: usize,
    numbers: &Numbers,
    codes: &mut [u8; 256],
    moves: &mut [u8; 256],
) -> bool
    requires { ((p : Problem) × TableAt p sheet.now offset numbers.now) × Blank codes.old moves.old }
    ensures { Decoding sheet.now offset numbers.now codes.new moves.new result }
{
    let d = number(numbers, VALUES);
    let count = number(numbers, VARIABLES) * d;
    let mut seen = [0u8; 192];
    for q in 0..count {
        let y = read_word(sheet, offset + 2 * q);
        if is_pair(numbers, q) {
            if !is_pair(numbers, y) {
                return false;
            }
            if seen[y] == 1 {
                return false;
            }
            seen[y] = 1;
            let e = pair_code(y, d);
            codes[pair_code(q, d)] = e as u8;
            moves[e] = (q % d) as u8;
        } else if y != q {
            return false;
        }
    }
    true
}
