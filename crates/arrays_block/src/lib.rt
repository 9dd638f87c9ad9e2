// Questions 36, 15 and 16 to a block (paper 02, #111), on the arrays of the compiled problem; the places of its variables in an order; its images.
#![tactic(auto)]

ghost use Rattle.std.specs.Prelude.{◌≡◌, ◌+◌, ◌*◌, ◌≤◌, ◌<◌, T, length};
ghost use Rattle.model.specs.Lists.{at};
ghost use Rattle.model.specs.Inner.Filling.{Gathered};
ghost use Rattle.model.specs.Problem.{Problem};
ghost use Rattle.model.specs.Verdict.{accepted};
ghost use Rattle.arrays.specs.Inner.Places.{WIDE};
ghost use Rattle.model.specs.Refusals.{verdict_from};
ghost use Rattle.block.specs.Block.{ordering, factorial, in_block, image_of, ordering_table, with_block, is_block_at, block_verdict, block_lent, in_lent};
ghost use Rattle.block.specs.Block.{with_lent};
ghost use Rattle.arrays_block.specs.Inner.Asked.{Held, Row, BlockRow, TableBytes, row_answer, Widened, RowPut, Imaged, PutOn};

use arrays::{IMAGES, Images, Numbers, SYMMETRIES, Supports, VALUES, VARIABLES, Wide};
use model::refusals::{Question, Refusal};
use model::wide;
use sheet_symmetries::table_question;
use sheet_table::{is_pair, pair_code};

// Where the ordering of a row takes variable first + i of a block of m.
fn image(rows: &[u8; 600], row: usize, first: usize, m: usize, i: usize) -> usize
    requires { Row rows.now row m × (i < m) × (first ≤ 255) }
    ensures { result ≡ image_of first m (ordering row) (first + i) }
{
    first + rows[5 * row + (5 - m + i)] as usize - (5 - m)
}

// Where the table of a row takes number q.
fn moved(rows: &[u8; 600], row: usize, first: usize, m: usize, numbers: &Numbers, q: usize) -> usize
    requires { (p : Problem) × BlockRow p rows.now row first m numbers.now × (q < p.variables * p.values) }
    ensures { (p : Problem) → BlockRow p rows.now row first m numbers.now → q < p.variables * p.values →
        (result ≡ at (ordering_table p first m row) q) × (result < 192) }
{
    let d = numbers[VALUES] as usize;
    let x = q / d;
    if !is_pair(numbers, q) {
        return q;
    }
    if x < first {
        return q;
    }
    if first + m <= x {
        return q;
    }
    image(rows, row, first, m, x - first) * d + q % d
}

// The table of a row, two bytes a number.
fn table(rows: &[u8; 600], row: usize, first: usize, m: usize, numbers: &Numbers) -> [u8; 384]
    requires { (p : Problem) × BlockRow p rows.now row first m numbers.now }
    ensures { (p : Problem) → BlockRow p rows.now row first m numbers.now → TableBytes p first m row result }
{
    let size = numbers[VARIABLES] as usize * numbers[VALUES] as usize;
    let mut bytes = [0u8; 384];
    for q in 0..size {
        bytes[2 * q] = moved(rows, row, first, m, numbers, q) as u8;
    }
    bytes
}

// Questions 15 and 16 to a row.
fn row_question(
    rows: &[u8; 600],
    row: usize,
    first: usize,
    m: usize,
    numbers: &Numbers,
    supports: &Supports,
) -> Result<(), Question>
    requires { (p : Problem) × Held p numbers.now supports.now × BlockRow p rows.now row first m numbers.now }
    ensures { (p : Problem) → Held p numbers.now supports.now → BlockRow p rows.now row first m
        numbers.now → result ≡ row_answer p first m row }
{
    let bytes = table(rows, row, first, m, numbers);
    table_question(&bytes, 0, numbers, supports)
}

// Questions 15 and 16 to a block's orderings: to the trades of neighbours, rows 1, 2, 6 and 24, of which the first that is refused decides.
fn trades(first: usize, m: usize, numbers: &Numbers, supports: &Supports) -> Result<(), Refusal>
    requires { (p : Problem) × Held p numbers.now supports.now × T (is_block_at p first m) }
    ensures { (p : Problem) → Held p numbers.now supports.now → T (is_block_at p first m) → verdict_from result ≡ block_verdict p first m }
{
    let rows = block::rows();
    let g = numbers[SYMMETRIES] as usize;
    let mut row = 1;
    for k in 1..m {
        let item = g + row;
        row_question(&rows, row, first, m, numbers, supports).map_err(move |question| Refusal {
            question,
            item,
        })?;
        row *= k + 1;
    }
    Ok(())
}

// Question 36 of a problem of n variables.
fn is_block(n: usize, first: usize, m: usize) -> bool
    requires { (first ≤ 255) × (m ≤ 255) }
    ensures { (p : Problem) → n ≡ p.variables → result ≡ is_block_at p first m }
{
    2 <= m && m <= 5 && first + m <= n
}

// The questions to a block of m variables from `first` on.
fn ask(first: usize, m: usize, numbers: &Numbers, supports: &Supports) -> Result<(), Refusal>
    requires { ((p : Problem) × Held p numbers.now supports.now) × (first ≤ 255) × (m ≤ 255) }
    ensures { (p : Problem) → Held p numbers.now supports.now → verdict_from result ≡ block_verdict p first m }
{
    if !is_block(numbers[VARIABLES] as usize, first, m) {
        return Err(Question::Block.into());
    }
    trades(first, m, numbers, supports)
}

// The questions to a block as it is lent.
pub fn question(block: &[u8], numbers: &Numbers, supports: &Supports) -> Result<(), Refusal>
    requires { (p : Problem) × Held p numbers.now supports.now }
    ensures { (p : Problem) → Held p numbers.now supports.now → verdict_from result ≡ block_lent p block.now }
{
    if block.is_empty() {
        return Ok(());
    }
    if block.len() != 2 {
        return Err(Question::Block.into());
    }
    ask(block[0] as usize, block[1] as usize, numbers, supports)
}

// Whether x is one of m variables from `first` on.
fn is_inside(first: usize, m: usize, x: usize) -> bool
    requires { (first ≤ 255) × (m ≤ 255) }
    ensures { result ≡ in_block first m x }
{
    first <= x && x < first + m
}

// The set of the positions, of the first n of an order, at which a variable of a block of m stands.
fn gather(first: usize, m: usize, n: usize, order: &[u8; 16]) -> u64
    requires { (first ≤ 255) × (m ≤ 255) × (n ≤ 16) }
    ensures { Gathered (λ i. in_block first m (at order.now i)) n result }
{
    let mut set = 0u64;
    for i in 0..n {
        if is_inside(first, m, wide(order[i])) {
            set |= 1u64 << i;
        }
    }
    set
}

// The same of a block as it is lent.
pub fn positions(block: &[u8], n: usize, order: &[u8; 16]) -> u64
    requires { n ≤ 16 }
    ensures { Gathered (λ i. in_lent block.now (at order.now i)) n result }
{
    if block.len() != 2 {
        return 0;
    }
    gather(block[0] as usize, block[1] as usize, n, order)
}

// Copies the images of a sheet's symmetries to where those of a block have room after them.
pub fn widen(images: &Images, wide: &mut Wide)
    requires { length wide.old ≡ WIDE }
    ensures { Widened images.now wide.old wide.new }
{
    for j in 0..IMAGES {
        wide[j] = images[j];
    }
}

// Writes the codes of the images of a row's table, 192 bytes from `base` on.
fn put_row(
    rows: &[u8; 600],
    row: usize,
    first: usize,
    m: usize,
    numbers: &Numbers,
    base: usize,
    images: &mut Wide,
)
    requires { ((p : Problem) × BlockRow p rows.now row first m numbers.now) × (base + 192 ≤ WIDE) }
    ensures { (p : Problem) → BlockRow p rows.now row first m numbers.now → RowPut p first m row base images.old
        images.new }
{
    let d = numbers[VALUES] as usize;
    let size = numbers[VARIABLES] as usize * d;
    for q in 0..size {
        let y = moved(rows, row, first, m, numbers, q);
        images[base + pair_code(q, d)] = pair_code(y, d) as u8;
    }
}

// How many rows a block of m uses.
fn row_count(m: usize) -> usize
    requires { (2 ≤ m) × (m ≤ 5) }
    ensures { (result ≡ factorial m) × (result ≤ 120) }
{
    let mut count = 1;
    for k in 1..m {
        count *= k + 1;
    }
    count
}

// Writes the images of a block's tables after the problem's own, and nothing else; how many there are then.
fn put_rows(first: usize, m: usize, numbers: &Numbers, images: &mut Wide) -> usize
    requires { (p : Problem) × Imaged p numbers.now images.old × T (is_block_at p first m) }
    ensures { (p : Problem) → Imaged p numbers.now images.old → T (is_block_at p first m) → PutOn (with_block first m p)
        images.old images.new result }
{
    let rows = block::rows();
    let g = numbers[SYMMETRIES] as usize;
    let count = row_count(m);
    for row in 0..count {
        put_row(&rows, row, first, m, numbers, 192 * (g + row), images);
    }
    g + count
}

// The same of a block as it is lent, of which the questions are passed.
pub fn put_images(block: &[u8], numbers: &Numbers, images: &mut Wide) -> usize
    requires { (p : Problem) × Imaged p numbers.now images.old × (block_lent p block.now ≡ accepted) }
    ensures { (p : Problem) → Imaged p numbers.now images.old → block_lent p block.now ≡ accepted → PutOn
        (with_lent block.now p) images.old images.new result }
{
    if block.len() != 2 {
        return numbers[SYMMETRIES] as usize;
    }
    put_rows(block[0] as usize, block[1] as usize, numbers, images)
}
