// For each symmetry and pair its image, and the sets of the images of the variable's smaller values.
ghost use Rattle.std.specs.Prelude.{◌≡◌, List, ℕ, ◌+◌, ◌≤◌, ◌<◌};
ghost use Rattle.model.specs.Lists.{at};
ghost use Rattle.model.specs.Inner.Filling.{Filled};
ghost use Rattle.arrays.specs.Inner.Places.{VARIABLES, SYMMETRIES, TABLES};
ghost use Rattle.arrays_tables.specs.Inner.Steps.{PairsStored, VariableStored, EarlierKept, SymmetryStored, SymmetriesStored};

use crate::sets::initial;
use arrays::{Images, Numbers, OWN, SMALLER, SYMMETRIES, Tables, VARIABLES};
use model::ValueSet;

// Sixteen sets into the tables.
fn store_sets(tables: &mut Tables, from: usize, sets: &[u16; 16])
    requires { from + 16 ≤ TABLES }
    ensures { Filled (λ i. from + i) (λ i r. r ≡ at sets.now i) 16 tables.old tables.new }
{
    tables[from..from + 16].copy_from_slice(sets);
}

// Read by a function, whose result is known to be a byte.
fn image(images: &Images, q: usize) -> u8
    requires { q < 3072 }
    ensures { result ≡ at images.now q }
{
    images[q]
}

// The pair of value v, if that is in the set m; its image then goes into the sets.
fn pair(
    images: &Images,
    m: ValueSet,
    from: usize,
    v: u16,
    tables: &mut Tables,
    sets: &mut [u16; 16],
)
    requires { (from + 16 ≤ 3072) × (v < 16) }
    ensures { (old : List ℕ) → PairsStored images.now m.bits from v old tables.old sets.old → PairsStored
        images.now m.bits from (v + 1) old tables.new sets.new }
{
    if !m.contains(v) {
        return;
    }
    let q = from + (v as usize);
    let y = image(images, q);
    store_sets(tables, SMALLER + 16 * q, sets);
    tables[OWN + q] = y as u16;
    let slot = (y / 16) as usize;
    let one = ValueSet::full(16).only((y % 16) as u16);
    let more = ValueSet { bits: sets[slot] }.union(one);
    sets[slot] = more.bits;
}

// The pairs of a variable whose initial set is m.
fn variable(images: &Images, m: ValueSet, from: usize, tables: &mut Tables)
    requires { from + 16 ≤ 3072 }
    ensures { VariableStored images.now m.bits from tables.new × EarlierKept from tables.old tables.new }
{
    let mut sets = [0u16; 16];
    for v in 0..16 {
        pair(images, m, from, v, tables, &mut sets);
    }
}

// The pairs of the symmetry whose images start there.
fn symmetry(numbers: &Numbers, images: &Images, from: usize, tables: &mut Tables)
    requires { (from + 192 ≤ 3072) × (at numbers.now VARIABLES ≤ 12) }
    ensures { SymmetryStored numbers.now images.now from (at numbers.now VARIABLES) tables.old
        tables.new }
{
    let n = numbers[VARIABLES] as usize;
    for x in 0..n {
        variable(images, initial(numbers, x), from + 16 * x, tables);
    }
}

// The pairs of every symmetry.
pub fn image_tables(numbers: &Numbers, images: &Images, tables: &mut Tables)
    requires { (at numbers.now VARIABLES ≤ 12) × (at numbers.now SYMMETRIES ≤ 16) }
    ensures { SymmetriesStored numbers.now images.now (at numbers.now VARIABLES)
        (at numbers.now SYMMETRIES) tables.old tables.new }
{
    let g = numbers[SYMMETRIES] as usize;
    for e in 0..g {
        symmetry(numbers, images, 192 * e, tables);
    }
}
