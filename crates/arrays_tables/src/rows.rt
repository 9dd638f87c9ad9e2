// For each pair the values of every variable that go with it, by the constraints that are pruned by variable.
ghost use Rattle.std.specs.Prelude.{◌≡◌, ◌+◌, ◌*◌, ◌≤◌, ◌<◌, length};
ghost use Rattle.model.specs.Lists.{at};
ghost use Rattle.model.specs.ValueSets.{has, mask_of};
ghost use Rattle.model.specs.Problem.{Problem};
ghost use Rattle.model.specs.Inner.Filling.{Filled};
ghost use Rattle.arrays.specs.Inner.Places.{CONSTRAINTS, SMALLER, TABLES};
ghost use Rattle.arrays.specs.Inner.Tables.{Rows};
ghost use Rattle.arrays_tables.specs.Inner.Steps.{RowsSource, RowsTo};

use crate::sets::{contains, one_if};
use arrays::{BY_ROWS, CONSTRAINTS, Numbers, SCOPES, SMALLER, Supports, Tables, scope_at};
use model::ValueSet;

// At first every value goes with every pair.
fn clear(tables: &mut Tables)
    ensures { Filled (λ i. i) (λ i r. r ≡ 65535) SMALLER tables.old tables.new }
{
    tables[..SMALLER].fill(65535);
}

// The values whose sets have w, of sixteen sets.
fn column(sets: &[u16; 16], w: u16) -> ValueSet
    requires { w < 16 }
    ensures { result.bits ≡ mask_of (λ v. has (at sets.now v) w) }
{
    let one = ValueSet::full(16).only(w);
    let mut all = 0u64;
    for v in 0..16 {
        let set = ValueSet { bits: sets[v] };
        all |= one_if(!set.common(one).is_empty(), v);
    }
    ValueSet {
        bits: (all % 65536) as u16,
    }
}

// Sixteen support sets into the rows of a variable, each at the other variable.
fn across(sets: &[u16; 16], from: usize, tables: &mut Tables)
    requires { from + 256 ≤ TABLES }
    ensures { Filled (λ v. from + 16 * v) (λ v r. r ≡ at sets.now v) 16 tables.old tables.new }
{
    for v in 0..16 {
        tables[from + 16 * v] = sets[v];
    }
}

// The same the other way round.
fn back(sets: &[u16; 16], from: usize, tables: &mut Tables)
    requires { from + 256 ≤ TABLES }
    ensures { Filled (λ w. from + 16 * w) (λ w r. r ≡ mask_of (λ v. has (at sets.now v) w)) 16 tables.old
        tables.new }
{
    for w in 0..16 {
        let set = column(sets, w as u16);
        tables[from + 16 * w] = set.bits;
    }
}

// The rows of constraint k, if it is pruned by variable.
fn link(numbers: &Numbers, supports: &Supports, k: usize, tables: &mut Tables)
    requires { (p : Problem) × RowsSource p numbers.now supports.now × (k < length p.constraints) }
    ensures { (length tables.new ≡ length tables.old) ×
        ((p : Problem) → RowsSource p numbers.now supports.now → k < length p.constraints → RowsTo p k tables.old
        → RowsTo p (k + 1) tables.new) }
{
    if !contains(numbers[BY_ROWS], k) {
        return;
    }
    let w = numbers[SCOPES + k];
    let x = scope_at(w, 0);
    let y = scope_at(w, 1);
    let mut sets = [0u16; 16];
    sets.copy_from_slice(&supports[256 * k..256 * k + 16]);
    across(&sets, 256 * x + y, tables);
    back(&sets, 256 * y + x, tables);
}

// The rows of every variable, value and other variable.
pub fn rows(numbers: &Numbers, supports: &Supports, tables: &mut Tables)
    requires { (p : Problem) × RowsSource p numbers.now supports.now }
    ensures { (length tables.new ≡ length tables.old) ×
        ((p : Problem) → RowsSource p numbers.now supports.now → Rows p tables.new) }
{
    clear(tables);
    let c = numbers[CONSTRAINTS] as usize;
    for k in 0..c {
        link(numbers, supports, k, tables);
    }
}
