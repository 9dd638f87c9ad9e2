// Turns of all slots, going round.
ghost use Rattle.std.specs.Prelude.{◌≡◌, ◌<◌, length};
ghost use Rattle.model.specs.Lists.{at};
ghost use Rattle.desk.specs.Queue.{round_from, size};
ghost use Rattle.desk.specs.Rounds.{rounds_queue};
ghost use Rattle.desk.specs.Inner.Places.{NEXT};
ghost use Rattle.desk.specs.Inner.Layout.{queue_of, round_bytes};
ghost use Rattle.desk_turns.specs.Inner.Served.{GivenAt};

use crate::serve::serve;
use desk::NEXT;
use desk_waits::waits;

// Gives slot k up to so many turns, where its run hasn't ended; answers how many it took.
fn give(queue: &mut [u8], k: usize, turns: u32) -> usize
    requires { (length queue.old ≡ size) × (k < 8) }
    ensures { GivenAt queue.old k turns queue.new result }
{
    if turns == 0 {
        return 0;
    }
    if !waits(queue, k) {
        return 0;
    }
    serve(queue, k, turns).turns
}

// Gives each slot up to so many turns, going round; answers where the turn after them begins to look.
pub fn go_round(queue: &mut [u8], turns: u32) -> u8
    requires { length queue.old ≡ size }
    ensures { (queue.new ≡ round_bytes turns (round_from (at queue.old NEXT)) queue.old) ×
        (result ≡ (rounds_queue (queue_of queue.old) turns).next) }
{
    let first = queue[NEXT] as usize;
    let mut next = queue[NEXT];
    let mut best = 1;
    for i in 0..8 {
        let k = (first + i) % 8;
        let took = give(queue, k, turns);
        if best <= took {
            best = took;
            next = ((k + 1) % 8) as u8;
        }
    }
    next
}
