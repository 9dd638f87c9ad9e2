// The text of the report, made in a lent buffer (paper 01, "The report").
#![tactic(auto)]

ghost use Rattle.std.specs.Prelude.{◌≡◌, [], ◌∷◌, ◌++◌, ◌+◌, ◌*◌, ◌≤◌, ◌<◌, min, length};
ghost use Rattle.model.specs.Run.{finished, spent, full};
ghost use Rattle.families_figure.specs.Figure.{number, dash};
ghost use Rattle.report.specs.Report.{decimal, line, figure_line, plan_word, refused_word};
ghost use Rattle.report.specs.Inner.Text.{field, fields, plan_lines, ended_text, room, Fitted};
ghost use Rattle.model.specs.Written.{Written, Fronted};

use wire::put;

// The limit of a report's run, and the plans that it has room for.
pub const REPORT_LIMIT: u32 = 1000000;

pub const REPORT_PLANS: usize = 4096;

// The room that every report fits.
pub const REPORT_ROOM: usize = 217160;

// Puts a byte; answers the place after it, as every function here does.
fn put_byte(out: &mut [u8], at: usize, byte: u8) -> usize
    requires { at < length out.old }
    ensures { Written out.old at (byte ∷ []) out.new result }
{
    out[at] = byte;
    at + 1
}

// Puts a number in decimal.
fn put_digits(out: &mut [u8], at: usize, x: usize) -> usize
    requires { at + length (decimal x) ≤ length out.old }
    ensures { Written out.old at (decimal x) out.new result }
{
    if x < 10 {
        return put_byte(out, at, b'0' + x as u8);
    }
    let next = put_digits(out, at, x / 10);
    put_byte(out, next, b'0' + (x % 10) as u8)
}

// Puts a space and a number in decimal.
fn put_number(out: &mut [u8], at: usize, x: usize) -> usize
    requires { at + length (field x) ≤ length out.old }
    ensures { Written out.old at (field x) out.new result }
{
    let next = put_byte(out, at, b' ');
    put_digits(out, next, x)
}

// Puts a row of values, a space before each.
fn put_row(out: &mut [u8], at: usize, row: &[u8]) -> usize
    requires { at + length (fields row.now) ≤ length out.old }
    ensures { Written out.old at (fields row.now) out.new result }
{
    let mut next = at;
    for value in row {
        next = put_number(out, next, usize::from(*value));
    }
    next
}

// Puts the line of a plan.
fn plan_line(out: &mut [u8], at: usize, row: &[u8]) -> usize
    requires { at + length (line plan_word row.now) ≤ length out.old }
    ensures { Written out.old at (line plan_word row.now) out.new result }
{
    let word = put(out, at, b"plan");
    let values = put_row(out, word, row);
    put_byte(out, values, b'\n')
}

// Puts at the front the lines of the plans listed, which are rows of n bytes.
fn plan_lines(out: &mut [u8], list: &[u8], n: usize, plans: usize) -> usize
    requires { (plans * n ≤ length list.now) × (length (plan_lines n plans list.now) ≤ length out.old) }
    ensures { Written out.old 0 (plan_lines n plans list.now) out.new result }
{
    let mut next = 0;
    for i in 0..plans {
        let at = i * n;
        next = plan_line(out, next, &list[at..at + n]);
    }
    next
}

// How many digits a byte has in decimal.
fn digit_count(x: u8) -> usize
    ensures { (result ≡ length (decimal x)) × (result ≤ 3) }
{
    match x {
        0..=9 => 1,
        10..=99 => 2,
        _ => 3,
    }
}

// The length of the lines of the plans listed: five bytes each, and for each value a space and its digits.
fn lines_length(list: &[u8], n: usize, plans: usize) -> usize
    requires { (n ≤ 12) × (plans ≤ 4096) × (plans * n ≤ length list.now) }
    ensures { (result ≡ length (plan_lines n plans list.now)) × (result ≤ 53 * plans) }
{
    let values = plans * n;
    let mut length = 5 * plans;
    for value in &list[..values] {
        length += 1 + digit_count(*value);
    }
    length
}

// Puts at the front the lines of the plans listed and the last line, which the buffer holds.
fn put_lines(list: &[u8], n: usize, plans: usize, last: &[u8], out: &mut [u8]) -> usize
    requires { (plans * n ≤ length list.now) × (length (plan_lines n plans list.now) + length last.now ≤ min room (length out.old)) }
    ensures { Fitted out.old (plan_lines n plans list.now ++ last.now) out.new result }
{
    let at = plan_lines(out, list, n, plans);
    put(out, at, last)
}

// The same where there is room for them; answers their length either way, which is worked out only where 53 bytes a plan may not fit.
fn put_report(list: &[u8], n: usize, plans: usize, last: &[u8], out: &mut [u8]) -> usize
    requires { (n ≤ 12) × (plans ≤ 4096) × (plans * n ≤ length list.now) × (length last.now ≤ 72) }
    ensures { Fitted out.old (plan_lines n plans list.now ++ last.now) out.new result }
{
    if 53 * plans + last.len() <= out.len() {
        return put_lines(list, n, plans, last, out);
    }
    let length = lines_length(list, n, plans) + last.len();
    if out.len() < length {
        return length;
    }
    put_lines(list, n, plans, last, out)
}

// Puts the line of an ending: its word, plans, nodes and families.
fn ending_line(out: &mut [u8], word: &[u8], plans: usize, nodes: usize, families: usize) -> usize
    requires { length word.now + 64 ≤ length out.old }
    ensures { Fronted out.old (figure_line word.now plans nodes (number families)) out.new result }
{
    let word_end = put(out, 0, word);
    let listed = put_number(out, word_end, plans);
    let made = put_number(out, listed, nodes);
    let counted = put_number(out, made, families);
    put_byte(out, counted, b'\n')
}

// The same with a dash for the families.
fn dash_line(out: &mut [u8], word: &[u8], plans: usize, nodes: usize) -> usize
    requires { length word.now + 64 ≤ length out.old }
    ensures { Fronted out.old (figure_line word.now plans nodes dash) out.new result }
{
    let word_end = put(out, 0, word);
    let listed = put_number(out, word_end, plans);
    let made = put_number(out, listed, nodes);
    put(out, made, b" -\n")
}

// The line of a refusal: its number and item.
fn refused_line(out: &mut [u8], number: usize, item: usize) -> usize
    requires { 50 ≤ length out.old }
    ensures { Fronted out.old (line refused_word (number ∷ item ∷ [])) out.new result }
{
    let word = put(out, 0, b"refused");
    let numbered = put_number(out, word, number);
    let ended = put_number(out, numbered, item);
    put_byte(out, ended, b'\n')
}

// The report of a finished run: the plans listed, then its ending with the number of families. Answers its length, as those below do; where the buffer
// is shorter it is as it came.
pub fn finished(
    plans: usize,
    nodes: usize,
    families: usize,
    list: &[u8],
    n: usize,
    out: &mut [u8],
) -> usize
    requires { (n ≤ 12) × (plans ≤ 4096) × (plans * n ≤ length list.now) }
    ensures { Fitted out.old (ended_text (finished plans nodes) (number families) n list.now) out.new result }
{
    let mut last = [0u8; 72];
    let length = ending_line(&mut last, b"finished", plans, nodes, families);
    put_report(list, n, plans, &last[..length], out)
}

// The report of a finished run whose families aren't counted.
pub fn uncounted(plans: usize, nodes: usize, list: &[u8], n: usize, out: &mut [u8]) -> usize
    requires { (n ≤ 12) × (plans ≤ 4096) × (plans * n ≤ length list.now) }
    ensures { Fitted out.old (ended_text (finished plans nodes) dash n list.now) out.new result }
{
    let mut last = [0u8; 72];
    let length = dash_line(&mut last, b"finished", plans, nodes);
    put_report(list, n, plans, &last[..length], out)
}

// The report of a spent run.
pub fn spent(plans: usize, nodes: usize, list: &[u8], n: usize, out: &mut [u8]) -> usize
    requires { (n ≤ 12) × (plans ≤ 4096) × (plans * n ≤ length list.now) }
    ensures { Fitted out.old (ended_text (spent plans nodes) dash n list.now) out.new result }
{
    let mut last = [0u8; 72];
    let length = dash_line(&mut last, b"spent", plans, nodes);
    put_report(list, n, plans, &last[..length], out)
}

// The report of a full run.
pub fn full(plans: usize, nodes: usize, list: &[u8], n: usize, out: &mut [u8]) -> usize
    requires { (n ≤ 12) × (plans ≤ 4096) × (plans * n ≤ length list.now) }
    ensures { Fitted out.old (ended_text (full plans nodes) dash n list.now) out.new result }
{
    let mut last = [0u8; 72];
    let length = dash_line(&mut last, b"full", plans, nodes);
    put_report(list, n, plans, &last[..length], out)
}

// The report of a refusal.
pub fn refused(number: usize, item: usize, out: &mut [u8]) -> usize
    ensures { Fitted out.old (line refused_word (number ∷ item ∷ [])) out.new result }
{
    let none = [0u8; 0];
    let mut last = [0u8; 72];
    let length = refused_line(&mut last, number, item);
    put_report(&none, 0, 0, &last[..length], out)
}
