// The lister (paper 01, "The report"): prints the report on the sheet that stands on standard input. The planner makes all of the text.
// It ends with status 0 whatever happens: what fails is said on standard error.
#![tactic(auto)]

ghost use Rattle.std.specs.Prelude.{◌≡◌, ◌≤◌, ◌<◌, ℕ, IfOk, MatchResult, length, take};
ghost use Rattle.std.specs.Io.KnownBytes.{Consumes, IsAtEnd};
ghost use Rattle.report.specs.Inner.Text.{room};
ghost use Rattle.export_report.specs.Report.{length_told};

use std::io;
use std::io::Read;

// Room for every report. The contract gives only the length, which lending a part of it needs.
fn report_room() -> [u8; report::REPORT_ROOM]
    ensures { room ≡ length result }
{
    [0; report::REPORT_ROOM]
}

// The report's length, as the answer tells it.
fn length_told(answer: &[u8]) -> usize
    requires { length answer.now ≡ 12 }
    ensures { result ≡ length_told answer.now }
{
    answer[4] as usize
        + 256 * answer[5] as usize
        + 65536 * answer[6] as usize
        + 16777216 * answer[7] as usize
}

// Reads until the buffer is full, the input ends or a read fails; answers how many bytes stand at the front of the buffer.
fn read_input<R: Read>(from: &mut R, sheet: &mut [u8]) -> io::Result<usize>
    ensures inside { IfOk result (λ n. n ≤ length sheet.new) }
    ensures front { IfOk result (λ n. n ≡ length (take n sheet.new)) }
    ensures bytes { MatchResult result
        (λ n. Consumes (R.remaining from.old) (R.remaining from.new) (take n sheet.new))
        (λ e. (n : ℕ) × (n ≤ length sheet.new) × Consumes (R.remaining from.old) (R.remaining from.new) (take n sheet.new)) }
    ensures ended { IfOk result (λ n. n < length sheet.new → IsAtEnd (R.remaining from.new)) }
{
    let mut done = 0;
    while done < sheet.len() {
        let n = from.read(&mut sheet[done..])?;
        if n == 0 {
            break;
        }
        done += n;
    }
    Ok(done)
}

// What can't be said on standard error stays unsaid.
fn complain<E: Eprint>(rt: &E, text: &str) {
    let _ = rt.eprintln(text);
}

// Of a longer input the first 65,536 bytes are the sheet. Where a read fails there is no report.
fn main(rt: HostRuntime) {
    let mut sheet = [0u8; 65536];
    let Ok(n) = read_input(&mut rt.stdin(), &mut sheet) else {
        complain(&rt, "lister: standard input could not be read");
        return;
    };
    let mut out = report_room();
    let mut answer = [0u8; 12];
    let code = export_report::write_report(&sheet[..n], &mut out, &mut answer);
    if code != 0 {
        complain(&rt, "lister: the report has no room");
        return;
    }
    let k = length_told(&answer);
    if rt.write_all(&out[..k]).is_err() {
        complain(&rt, "lister: the report was not written whole");
    }
}
