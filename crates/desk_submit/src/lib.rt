// A job into the lowest free slot (paper 02, #113). What any bytes mean: crate desk.
#![tactic(auto)]

ghost use Rattle.std.specs.Prelude.{◌≡◌, ◌+◌, ◌≤◌, ◌<◌, IfSome, length};
ghost use Rattle.model.specs.Written.{placed};
ghost use Rattle.desk.specs.Inner.Places.{SHEET, SHEET_BYTES};
ghost use Rattle.desk.specs.Queue.{size, lowest_free};
ghost use Rattle.desk.specs.Inner.Layout.{slot_bytes, queue_of};
ghost use Rattle.desk.specs.Inner.Finding.{found};
ghost use Rattle.desk.specs.Calls.{SubmitDone};

use desk::{LENGTH, LIMIT, QUEUE_BYTES, SHEET, SLOT};
use model::refusals::{Question, Refusal};
use wire::{four, place};

// The lowest free slot.
fn lowest_free(queue: &[u8]) -> Option<usize>
    requires { length queue.now ≡ size }
    ensures slot { found result ≡ lowest_free (queue_of queue.now) }
    ensures inside { IfSome result (λ k. k < 8) }
{
    (0..8).find(|&k| queue[SLOT * k] == 0)
}

// Puts a new job's sheet and limit into the slot at p, whose run stands at its start.
fn fill(queue: &mut [u8], p: usize, sheet: &[u8], limit: u32)
    requires { (p + SHEET + length sheet.now ≤ length queue.old) × (length sheet.now ≤ SHEET_BYTES) }
    ensures { queue.new ≡ placed queue.old p (slot_bytes sheet.now limit) }
{
    let n = sheet.len();
    let mut head = [0u8; SHEET];
    head[0] = 1;
    head[LENGTH] = (n % 256) as u8;
    head[LENGTH + 1] = (n / 256) as u8;
    four(&mut head, LIMIT, limit as usize);
    place(&head, queue, p);
    place(sheet, queue, p + SHEET);
}

// Puts a job, a sheet and a limit (the paper's allowance), into the lowest free slot; answers the slot.
pub fn submit(queue: &mut [u8], sheet: &[u8], limit: u32) -> Result<usize, Refusal>
    ensures { SubmitDone queue.old sheet.now limit queue.new result }
{
    if queue.len() != QUEUE_BYTES {
        return Err(Question::BufferLength.into());
    }
    let Some(k) = lowest_free(queue) else {
        return Err(Question::FreeSeat.into());
    };
    sheet::question(sheet)?;
    fill(queue, SLOT * k, sheet, limit);
    Ok(k)
}
