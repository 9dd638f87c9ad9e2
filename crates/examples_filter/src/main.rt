// Puts the cases of standard input to the filter (paper 01), one a line, and prints of each its name, the answer, and the sets afterwards.
// A line is a name, a colon, and four lists of numbers with a slash between them: the sets, and of the entries the variables, the values of
// the equalities and those of the disequalities, 255 the mark of an absent one. A line that begins with # is a remark.
#![tactic(auto)]

ghost use Rattle.std.specs.Prelude.{◌≤◌, length};

use examples_lines::{find, number, read_text, say, say_number};
use filter::Ending;
use model::refusals::Refusal;
use model::wide;
use std::io;

// How many numbers a list has, and where it ends.
#[derive(Clone, Copy)]
struct Listed {
    count: usize,
    end: usize,
}

// The position after the separator at a position.
fn after(line: &[u8], at: usize) -> usize
    requires { at ≤ length line.now }
    ensures { result ≤ length line.now }
{
    if at < line.len() { at + 1 } else { at }
}

// The list of sets after a position.
fn read_sets(sets: &mut [u16], line: &[u8], from: usize) -> Listed
    requires { from ≤ length line.now }
    ensures { (result.count ≤ length sets.new) × (result.end ≤ length line.now) }
{
    let mut at = after(line, from);
    for count in 0..sets.len() {
        let found = number(line, at);
        if found.done {
            return Listed {
                count,
                end: found.end,
            };
        }
        sets[count] = found.value as u16;
        at = found.end;
    }
    Listed {
        count: sets.len(),
        end: at,
    }
}

// The list of bytes after a position.
fn read_bytes(bytes: &mut [u8], line: &[u8], from: usize) -> Listed
    requires { from ≤ length line.now }
    ensures { (result.count ≤ length bytes.new) × (result.end ≤ length line.now) }
{
    let mut at = after(line, from);
    for count in 0..bytes.len() {
        let found = number(line, at);
        if found.done {
            return Listed {
                count,
                end: found.end,
            };
        }
        bytes[count] = (found.value % 256) as u8;
        at = found.end;
    }
    Listed {
        count: bytes.len(),
        end: at,
    }
}

fn say_answer<P: Print>(out: &P, answer: Result<Ending, Refusal>) -> io::Result<()> {
    match answer {
        Ok(Ending::Failed) => say(out, b": failed"),
        Ok(Ending::Entailed) => say(out, b": entailed"),
        Ok(Ending::Consistent) => say(out, b": consistent"),
        Err(refusal) => {
            say(out, b": refused ")?;
            say_number(out, wide(refusal.question.number()))?;
            say(out, b" ")?;
            say_number(out, refusal.item)
        }
    }
}

fn say_set<P: Print>(out: &P, set: u16) -> io::Result<()> {
    say(out, b" ")?;
    say_number(out, set as usize)
}

fn say_sets<P: Print>(out: &P, sets: &[u16]) -> io::Result<()> {
    for set in sets {
        say_set(out, *set)?;
    }
    Ok(())
}

fn show<P: Print>(
    out: &P,
    sets: &mut [u16],
    index: &[u8],
    equal: &[u8],
    not_equal: &[u8],
) -> io::Result<()> {
    say_answer(out, filter::filter(sets, index, equal, not_equal))?;
    say(out, b", sets")?;
    say_sets(out, sets)?;
    say(out, b"\n")
}

fn answer<P: Print>(out: &P, line: &[u8]) -> io::Result<()> {
    let mut sets = [0u16; 16];
    let mut index = [0u8; 200];
    let mut equal = [0u8; 200];
    let mut not_equal = [0u8; 200];
    let colon = find(line, 0, b':');
    let s = read_sets(&mut sets, line, colon);
    let i = read_bytes(&mut index, line, s.end);
    let e = read_bytes(&mut equal, line, i.end);
    let n = read_bytes(&mut not_equal, line, e.end);
    say(out, &line[..colon])?;
    show(
        out,
        &mut sets[..s.count],
        &index[..i.count],
        &equal[..e.count],
        &not_equal[..n.count],
    )
}

fn answers<P: Print>(out: &P, text: &[u8]) -> io::Result<()> {
    let mut at = 0;
    while at < text.len() {
        let end = find(text, at, b'\n');
        if text[at] != b'#' {
            answer(out, &text[at..end])?;
        }
        at = end + 1;
    }
    Ok(())
}

fn main(rt: HostRuntime) -> io::Result<()> {
    let mut text = [0u8; 65536];
    let n = read_text(&mut rt.stdin(), &mut text)?;
    answers(&rt, &text[..n])
}
