// Numbers and paths in lent bytes.
ghost use Rattle.std.specs.Prelude.{◌≡◌, ◌+◌, ◌*◌, ◌^◌, ◌≤◌, ◌<◌, length};
ghost use Rattle.model.specs.Lists.{same};
ghost use Rattle.run_cut.specs.Parts.{after};
ghost use Rattle.run_join.specs.Join.{four_at, path_at, path_shaped};
ghost use Rattle.run_join.specs.Inner.Inner.{Path};

use model::long;

// The number in four bytes.
pub fn four_at(l: &[u8], o: usize) -> u64
    requires { o + 4 ≤ length l.now }
    ensures { (result ≡ four_at l.now o) × (result < 2 ^ 32) }
{
    let a = long(l[o]);
    let b = long(l[o + 1]);
    let c = long(l[o + 2]);
    let d = long(l[o + 3]);
    a + 256 * b + 65536 * c + 16777216 * d
}

// Whether a path stands there: at most twelve values, and zeros behind them.
pub fn path_shaped(l: &[u8], o: usize) -> bool
    requires { o + 13 ≤ length l.now }
    ensures { result ≡ path_shaped l.now o }
{
    let length = usize::from(l[o]);
    length <= 12 && (length..12).all(|i| l[o + 1 + i] == 0)
}

// The path there: as many values as the first byte says.
pub fn path(l: &[u8], o: usize) -> &[u8]
    requires { Path l.now o }
    ensures { result.now ≡ path_at l.now o }
{
    let length = usize::from(l[o]);
    &l[o + 1..o + 1 + length]
}

// The thirteen bytes of the path there: how many values, the values, and zeros.
pub fn padded(l: &[u8], o: usize) -> &[u8; 13]
    requires { Path l.now o }
    ensures { Path result.now 0 × (path_at result.now 0 ≡ path_at l.now o) }
{
    l[o..o + 13].first_chunk().unwrap()
}

// Whether two paths of thirteen bytes are the same. The values come first, as they differ more often than how many there are.
pub fn padded_same(a: &[u8; 13], b: &[u8; 13]) -> bool
    requires { Path a.now 0 × Path b.now 0 }
    ensures { result ≡ same (path_at a.now 0) (path_at b.now 0) }
{
    (1..13).all(|i| a[i] == b[i]) && a[0] == b[0]
}

// Whether two paths are the same.
pub fn are_same(a: &[u8], b: &[u8]) -> bool
    ensures { result ≡ same a.now b.now }
{
    a == b
}

// Whether the second of two paths comes after the first. Not inlined: the loops over heads need it rarely, and run faster without it.
#[inline(never)]
pub fn comes_after(a: &[u8], b: &[u8]) -> bool
    ensures { result ≡ after a.now b.now }
{
    a < b
}
