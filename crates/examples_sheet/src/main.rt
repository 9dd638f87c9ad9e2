// Puts the questions (paper 01) to the sheets that standard input names, one a line, and prints each line with the answer.
// A line is a letter, A for sheet A of paper 01 or L for the longest sheet, the number of bytes lent, and any number of changes:
// an offset and the number that stands there instead. What follows is a remark.
#![tactic(auto)]

ghost use Rattle.std.specs.Prelude.{◌≤◌, length};

use examples_lines::{number, read_text, say, say_number};
use model::wide;
use std::io;

// A 16-bit number, low byte first; nothing past the end.
fn put(b: &mut [u8; 65536], at: usize, v: u16) {
    if at < 65535 {
        b[at..at + 2].copy_from_slice(&v.to_le_bytes());
    }
}

// Numbers below 256, one after another.
fn put_all(b: &mut [u8; 65536], at: usize, values: &[u8])
    requires { (at ≤ 65536) × (length values.now ≤ 65536) }
{
    for (i, value) in values.iter().enumerate() {
        put(b, at + 2 * i, u16::from(*value));
    }
}

// Sheet A: 64 bytes.
fn sheet_a(b: &mut [u8; 65536]) {
    put_all(b, 0, &[2, 3, 1, 1, 16, 20, 52, 64]);
    put_all(
        b,
        16,
        &[
            7, 7, 2, 6, 0, 1, 0, 1, 0, 2, 1, 0, 1, 2, 2, 0, 2, 1, 3, 4, 5, 0, 1, 2,
        ],
    );
}

// Numbers that a sheet is filled with.
#[derive(Clone, Copy, Debug, PartialEq, Eq)]
enum Series {
    // full sets
    Sets,
    // the rows 000, 001, .. of three values
    Rows,
    // tables of 192 pairs that stand for themselves
    Tables,
}

impl Series {
    // Number j of the series.
    fn value(self, j: u16) -> u16 {
        match self {
            Series::Sets => 65535,
            Series::Rows => match j % 3 {
                0 => 0,
                1 => j / 48,
                _ => j / 3 % 16,
            },
            Series::Tables => j % 192,
        }
    }
}

// The first numbers of a series.
fn put_series(b: &mut [u8; 65536], at: usize, count: u16, series: Series)
    requires { at ≤ 65536 }
{
    for j in 0..count {
        put(b, at + 2 * usize::from(j), series.value(j));
    }
}

// 32 constraints on the variables 0, 1, 2, of 256 rows each.
fn constraints(b: &mut [u8; 65536]) {
    for constraint in 0..32 {
        let at = 40 + 1546 * constraint;
        put_all(b, at, &[3, 0, 0, 1, 2]);
        put(b, at + 2, 256);
        put_series(b, at + 10, 768, Series::Rows);
    }
}

// The longest sheet, 55,656 bytes: twelve variables, sixteen values, 32 constraints of 256 rows, sixteen symmetries.
fn longest(b: &mut [u8; 65536]) {
    put_all(b, 0, &[12, 16, 32, 16, 16, 40]);
    put(b, 12, 49512);
    put(b, 14, 55656);
    put_series(b, 16, 12, Series::Sets);
    constraints(b);
    put_series(b, 49512, 3072, Series::Tables);
}

// The changes of a line from a position on.
fn change(b: &mut [u8; 65536], line: &[u8], from: usize)
    requires { from ≤ length line.now }
{
    let mut at = from;
    while at < line.len() {
        let offset = number(line, at);
        let v = number(line, offset.end);
        if offset.done || v.done {
            return;
        }
        put(b, offset.value, v.value as u16);
        if v.end <= at {
            return;
        }
        at = v.end;
    }
}

// The answer to the first len bytes.
fn ask<P: Print>(out: &P, b: &[u8], len: usize) -> io::Result<()> {
    let Some(sheet) = b.get(..len) else {
        return Ok(());
    };
    match sheet::question(sheet) {
        Ok(()) => say(out, b": accepted\n"),
        Err(refusal) => {
            say(out, b": refused ")?;
            say_number(out, wide(refusal.question.number()))?;
            say(out, b" ")?;
            say_number(out, refusal.item)?;
            say(out, b"\n")
        }
    }
}

fn answer<P: Print>(out: &P, b: &mut [u8; 65536], line: &[u8]) -> io::Result<()> {
    if line.is_empty() {
        return Ok(());
    }
    if line[0] == b'A' {
        sheet_a(b);
    } else {
        longest(b);
    }
    let len = number(line, 1);
    change(b, line, len.end);
    say(out, line)?;
    ask(out, b, len.value)
}

fn answers<P: Print>(out: &P, b: &mut [u8; 65536], text: &[u8]) -> io::Result<()> {
    for line in text.split(|byte| *byte == b'\n') {
        answer(out, b, line)?;
    }
    Ok(())
}

fn main(rt: HostRuntime) -> io::Result<()> {
    let mut text = [0u8; 4096];
    let n = read_text(&mut rt.stdin(), &mut text)?;
    let mut b = [0u8; 65536];
    answers(&rt, &mut b, &text[..n])
}
