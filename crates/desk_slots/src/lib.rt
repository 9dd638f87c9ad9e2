// A slot's status, and a slot freed (paper 02, #113). What any bytes mean: crate desk.
#![tactic(auto)]

ghost use Rattle.std.specs.Prelude.{◌≡◌, ◌+◌, ◌*◌, ◌≤◌, ◌<◌, length};
ghost use Rattle.desk.specs.Inner.Places.{LIST, LIST_BYTES};
ghost use Rattle.desk.specs.Inner.Layout.{plans_at, width_at};
ghost use Rattle.desk.specs.StatusCalls.{StatusDone};
ghost use Rattle.desk.specs.Calls.{ReleaseDone};

use desk::{
    LIST, LIST_PLANS, PLANS, QUEUE_BYTES, SHEET, SLOT, STANDING, SlotStatus, Stands, bounded, byte,
    counts_at, nodes_at,
};
use model::refusals::Question;
use wire::place;

// The bytes of the plans that the slot at p has listed.
fn list_length(queue: &[u8], p: usize) -> usize
    requires { p + LIST < length queue.now }
    ensures { (result ≡ plans_at queue.now p * width_at queue.now p) × (result ≤ LIST_BYTES) }
{
    bounded(queue, p + PLANS, LIST_PLANS) * bounded(queue, p + SHEET, 12)
}

// How a slot stands.
pub fn status(queue: &[u8], slot: u32) -> Result<SlotStatus, Question>
    ensures { StatusDone queue.now slot result }
{
    if queue.len() != QUEUE_BYTES {
        return Err(Question::BufferLength);
    }
    if 8 <= slot {
        return Err(Question::HeldSeat);
    }
    let p = SLOT * slot as usize;
    if queue[p] == 0 {
        return Err(Question::HeldSeat);
    }
    let stands = Stands {
        slot: slot as usize,
        standing: byte(queue, p + STANDING, 3),
        plans: bounded(queue, p + PLANS, LIST_PLANS),
        nodes: nodes_at(queue, p),
    };
    Ok(SlotStatus {
        stands,
        counts: counts_at(queue, p),
    })
}

// Frees a slot: the plans listed so far go to the front of the room; answers their bytes.
pub fn release(queue: &mut [u8], slot: u32, room: &mut [u8]) -> Result<usize, Question>
    ensures { ReleaseDone queue.old slot room.old queue.new room.new result }
{
    if queue.len() != QUEUE_BYTES {
        return Err(Question::BufferLength);
    }
    if 8 <= slot {
        return Err(Question::HeldSeat);
    }
    let p = SLOT * slot as usize;
    if queue[p] == 0 {
        return Err(Question::HeldSeat);
    }
    let n = list_length(queue, p);
    if room.len() < n {
        return Err(Question::Room);
    }
    let list = p + LIST;
    place(&queue[list..list + n], room, 0);
    queue[p] = 0;
    Ok(n)
}
