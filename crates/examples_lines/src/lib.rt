// Lines that the examples' programs read, and what they print.
#![tactic(auto)]

ghost use Rattle.std.specs.Prelude.{◌≡◌, ◌≤◌, ◌<◌, IfOk, length, take};
ghost use Rattle.std.specs.Io.KnownBytes.{IsAtEnd};

use model::wide;
use std::io;
use std::io::Read;

// A number of a line, and where it ends; done where there is none.
#[derive(Clone, Copy)]
pub struct Found {
    pub value: usize,
    pub end: usize,
    pub done: bool,
}

// The number after the spaces from a position on.
pub fn number(line: &[u8], from: usize) -> Found
    requires { from ≤ length line.now }
    ensures { (result.value < 65536) × (result.end ≤ length line.now) }
{
    for at in from..line.len() {
        if line[at] != b' ' {
            return digits(line, at);
        }
    }
    Found {
        value: 0,
        end: line.len(),
        done: true,
    }
}

fn digits(line: &[u8], from: usize) -> Found
    requires { from ≤ length line.now }
    ensures { (result.value < 65536) × (result.end ≤ length line.now) }
{
    let mut value = 0;
    for at in from..line.len() {
        let c = wide(line[at]);
        if c < 48 {
            return Found {
                value,
                end: at,
                done: at == from,
            };
        }
        value = (10 * value + (c - 48)) % 65536;
    }
    Found {
        value,
        end: line.len(),
        done: line.len() == from,
    }
}

// Where a byte stands for the first time from a position on, or the end.
pub fn find(text: &[u8], from: usize, byte: u8) -> usize
    requires { from ≤ length text.now }
    ensures { (from ≤ result) × (result ≤ length text.now) }
{
    for at in from..text.len() {
        if text[at] == byte {
            return at;
        }
    }
    text.len()
}

// Reads until the buffer is full or the input ends.
pub fn read_text<R: Read>(input: &mut R, text: &mut [u8]) -> io::Result<usize>
    ensures inside { IfOk result (λ n. (n ≤ length text.new) × (n ≡ length (take n text.new))) }
    ensures ended { IfOk result (λ n. n < length text.new → IsAtEnd (R.remaining input.new)) }
{
    let mut done = 0;
    while done < text.len() {
        let n = input.read(&mut text[done..])?;
        if n == 0 {
            break;
        }
        done += n;
    }
    Ok(done)
}

pub fn say<P: Print>(out: &P, text: &[u8]) -> io::Result<()> {
    out.write_all(text)
}

pub fn say_number<P: Print>(out: &P, n: usize) -> io::Result<()> {
    out.print(n)
}
