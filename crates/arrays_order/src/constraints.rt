// Scopes: each variable named by its position, the names sorted, and the support table's coordinates along with them.
ghost use Rattle.std.specs.Prelude.{◌≡◌, List, [], ◌∷◌, ℕ, ◌+◌, ◌*◌, ◌≤◌, ◌<◌, length};
ghost use Rattle.model.specs.Lists.{at};
ghost use Rattle.arrays_order.specs.Inner.Steps.{Narrow, Sorting, Framed, Scope, ScopeMoved, Renamed};

use crate::places::entry;
use crate::supports::{Table, transpose};
use arrays::{Numbers, SCOPES, Supports, arity, scope_at};

// Two names.
fn two(table: Table, x: u64, y: u64, supports: &mut Supports) -> u64
    requires { (x < 16) × (y < 16) × (x ≡ y → ⊥) }
    ensures { Sorting (x ∷ y ∷ []) table.base supports.old supports.new result × Framed table.base supports.old supports.new }
{
    if x < y {
        return 2 + 256 * x + 65536 * y;
    }
    transpose(table.base, supports);
    2 + 256 * y + 65536 * x
}

// Three names, of which the last is the greatest.
fn third(table: Table, x: u64, y: u64, z: u64, supports: &mut Supports) -> u64
    requires { Narrow table.values table.base supports.old × (x < z) × (y < z) × (z < 16) × (x ≡ y → ⊥) }
    ensures { Sorting (x ∷ y ∷ z ∷ []) table.base supports.old supports.new result × Framed table.base supports.old
        supports.new }
{
    if x < y {
        return 3 + 256 * x + 65536 * y + 16777216 * z;
    }
    table.swap(supports);
    3 + 256 * y + 65536 * x + 16777216 * z
}

// Three names, of which the first is less than the second.
fn second(table: Table, x: u64, y: u64, z: u64, supports: &mut Supports) -> u64
    requires { Narrow table.values table.base supports.old × (x < y) × (y < 16) × (z < 16) × (x ≡ z → ⊥) × (y ≡ z → ⊥) }
    ensures { Sorting (x ∷ y ∷ z ∷ []) table.base supports.old supports.new result × Framed table.base supports.old
        supports.new }
{
    if y < z {
        return third(table, x, y, z, supports);
    }
    table.transpose_each(supports);
    third(table, x, z, y, supports)
}

// Three names.
fn three(table: Table, x: u64, y: u64, z: u64, supports: &mut Supports) -> u64
    requires { Narrow table.values table.base supports.old × (x < 16) × (y < 16) × (z < 16) × (x ≡ y → ⊥) × (x ≡ z → ⊥) × (y ≡ z → ⊥) }
    ensures { Sorting (x ∷ y ∷ z ∷ []) table.base supports.old supports.new result × Framed table.base supports.old
        supports.new }
{
    if x < y {
        return second(table, x, y, z, supports);
    }
    table.swap(supports);
    second(table, y, x, z, supports)
}

// The scope's number of one constraint, and its support table.
fn scope(stands: &[u8; 16], w: u64, table: Table, supports: &mut Supports) -> u64
    requires { (names : List ℕ) × Scope stands.now w names × (length names ≡ 3 → Narrow table.values table.base supports.old) }
    ensures { ScopeMoved stands.now w table.base supports.old supports.new result × Framed table.base supports.old
        supports.new }
{
    let a = arity(w);
    let x = entry(stands, scope_at(w, 0)) as u64;
    if a == 1 {
        return 1 + 256 * x;
    }
    let y = entry(stands, scope_at(w, 1)) as u64;
    if a == 2 {
        return two(table, x, y, supports);
    }
    let z = entry(stands, scope_at(w, 2)) as u64;
    three(table, x, y, z, supports)
}

// Every constraint.
pub fn rename(stands: &[u8; 16], c: usize, d: usize, numbers: &mut Numbers, supports: &mut Supports)
    requires { (c ≤ 32) × (d ≤ 16) × ((k : ℕ) → k < c → (names : List ℕ) × Scope stands.now (at numbers.old (32 + k)) names ×
        (length names ≡ 3 → Narrow d (256 * k) supports.old)) }
    ensures { Renamed stands.now c numbers.old supports.old numbers.new supports.new }
{
    for k in 0..c {
        let table = Table {
            base: 256 * k,
            values: d,
        };
        numbers[SCOPES + k] = scope(stands, numbers[SCOPES + k], table, supports);
    }
}
