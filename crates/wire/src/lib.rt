// Bytes and numbers, low byte first, put into lent bytes, and a refusal as one number: what the exported functions answer with.
#![tactic(auto)]

ghost use Rattle.std.specs.Prelude.{◌≡◌, ◌+◌, ◌*◌, ◌^◌, ◌≤◌, ◌<◌, length};
ghost use Rattle.model.specs.Bytes.{four_bytes};
ghost use Rattle.model.specs.Written.{Written, placed};
ghost use Rattle.model.specs.Refusals.{number_of};
ghost use Rattle.wire.specs.Wire.{three_numbers};

use model::refusals::Refusal;

// What is answered where a lent buffer has another length than the call asks for: refusal 255.
pub const WRONG_LENGTH: u32 = 255 * 256;

// A refusal as one number.
pub fn code(number: u8, item: usize) -> u32
    requires { item < 256 }
    ensures { result ≡ number * 256 + item }
{
    u32::from(number) * 256 + item as u32
}

// The same of a refusal by name.
pub fn refusal_code(refusal: Refusal) -> u32
    requires { refusal.item < 256 }
    ensures { result ≡ number_of refusal.question * 256 + refusal.item }
{
    code(refusal.question.number(), refusal.item)
}

// Puts a number in four bytes; answers the place after it.
pub fn four(out: &mut [u8], at: usize, x: usize) -> usize
    requires { (at + 4 ≤ length out.old) × (x < 2 ^ 32) }
    ensures { Written out.old at (four_bytes x) out.new result }
{
    let second = at + 1;
    let third = second + 1;
    let fourth = third + 1;
    out[at] = (x % 256) as u8;
    out[second] = (x / 256 % 256) as u8;
    out[third] = (x / 65536 % 256) as u8;
    out[fourth] = (x / 16777216) as u8;
    fourth + 1
}

// Puts three numbers.
pub fn three(out: &mut [u8], kind: usize, a: usize, b: usize)
    requires { (length out.old ≡ 12) × (kind < 2 ^ 32) × (a < 2 ^ 32) × (b < 2 ^ 32) }
    ensures { out.new ≡ three_numbers kind a b }
{
    let first = four(out, 0, kind);
    let second = four(out, first, a);
    four(out, second, b);
}

// Puts bytes at a place; answers the place after them.
pub fn put(out: &mut [u8], at: usize, bytes: &[u8]) -> usize
    requires { at + length bytes.now ≤ length out.old }
    ensures { Written out.old at bytes.now out.new result }
{
    let end = at + bytes.len();
    out[at..end].copy_from_slice(bytes);
    end
}

// Copies bytes to a place.
pub fn place(from: &[u8], to: &mut [u8], at: usize)
    requires { at + length from.now ≤ length to.old }
    ensures { to.new ≡ placed to.old at from.now }
{
    put(to, at, from);
}
