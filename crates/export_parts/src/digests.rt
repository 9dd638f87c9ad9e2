// The digest of bytes, which names what a part was lent.
ghost use Rattle.std.specs.Prelude.{◌≡◌, ◌+◌, ◌*◌, ◌%◌, ◌<◌};
ghost use Rattle.export_parts.specs.Head.{digest};

use model::wide;

// The digest with one byte more.
fn with_byte(h: usize, base: usize, x: usize) -> usize
    requires { (h < 2147483647) × (base < 2147483648) × (x < 256) }
    ensures { (result ≡ (h * base + x + 1) % 2147483647) × (result < 2147483647) }
{
    (h * base + x + 1) % 2147483647
}

pub fn digest(bytes: &[u8], base: usize) -> usize
    requires { base < 2147483648 }
    ensures { (result ≡ digest base bytes.now) × (result < 2147483647) }
{
    let mut h: usize = 1;
    for byte in bytes {
        h = with_byte(h, base, wide(*byte));
    }
    h
}
