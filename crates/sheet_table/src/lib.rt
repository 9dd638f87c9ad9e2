// The pairs of a sheet, a table of them, and question 15 (paper 01) to it.
#![tactic(auto)]

pub mod moves;
pub mod table;

ghost use Rattle.std.specs.Prelude.{◌≡◌, ◌+◌, ◌*◌, ◌≤◌, ◌<◌};
ghost use Rattle.model.specs.Problem.{Problem, is_pair};
ghost use Rattle.model.specs.Sheet.{permutes_pairs};
ghost use Rattle.arrays.specs.Inner.Layout.{pair_code_of};
ghost use Rattle.sheet_table.specs.Inner.Table.{Framed, TableAt, table_of};

use arrays::Numbers;

// The code of a pair number among d values: 16 times its variable plus its value.
pub fn pair_code(q: usize, d: usize) -> usize
    requires { (1 ≤ d) × (d ≤ 16) × (q < 12 * d) }
    ensures { (result ≡ pair_code_of d q) × (result < 192) }
{
    16 * (q / d) + q % d
}

// Whether a number is that of a pair.
pub fn is_pair(numbers: &Numbers, q: usize) -> bool
    requires { (p : Problem) × Framed p numbers.now }
    ensures { (p : Problem) → Framed p numbers.now → result ≡ is_pair p q }
{
    table::is_pair(numbers, q)
}

// Question 15 to the table at an offset.
pub fn permutes(sheet: &[u8], offset: usize, numbers: &Numbers) -> bool
    requires { (p : Problem) × TableAt p sheet.now offset numbers.now }
    ensures { (p : Problem) → TableAt p sheet.now offset numbers.now → result ≡ permutes_pairs p
        (table_of p sheet.now offset) }
{
    let mut codes = [0u8; 256];
    let mut moves = [0u8; 256];
    table::decode(sheet, offset, numbers, &mut codes, &mut moves)
}
