// The slots whose run hasn't ended.
#![tactic(auto)]

ghost use Rattle.std.specs.Prelude.{◌≡◌, ◌<◌, IfSome, length};
ghost use Rattle.model.specs.ValueSets.{mask_of, one_if};
ghost use Rattle.desk.specs.Queue.{waits, slot_at, to_serve, size};
ghost use Rattle.desk.specs.Inner.Layout.{slot_of, queue_of};
ghost use Rattle.desk.specs.Inner.Finding.{found};

use desk::{NEXT, SLOT, STANDING};

// Whether slot k has a job whose run hasn't ended.
pub fn waits(queue: &[u8], k: usize) -> bool
    requires { (length queue.now ≡ size) × (k < 8) }
    ensures { result ≡ waits (slot_of queue.now k) }
{
    let p = SLOT * k;
    queue[p] != 0 && queue[p + STANDING] == 0
}

// The slot that the next turn serves.
pub fn to_serve(queue: &[u8]) -> Option<usize>
    requires { length queue.now ≡ size }
    ensures slot { found result ≡ to_serve (queue_of queue.now) }
    ensures inside { IfSome result (λ k. k < 8) }
{
    let next = queue[NEXT] as usize;
    for i in 0..8 {
        let k = (next + i) % 8;
        if waits(queue, k) {
            return Some(k);
        }
    }
    None
}

// Slot k alone, or no slot.
fn slot_if(b: bool, k: usize) -> u16
    requires { k < 8 }
    ensures { result ≡ one_if b k }
{
    if b { 1u16 << k } else { 0 }
}

// The slots whose run hasn't ended.
pub fn waiting(queue: &[u8]) -> u16
    requires { length queue.now ≡ size }
    ensures { result ≡ mask_of (λ k. waits (slot_at (queue_of queue.now) k)) }
{
    let mut set = 0u16;
    for k in 0..8 {
        set |= slot_if(waits(queue, k), k);
    }
    set
}
