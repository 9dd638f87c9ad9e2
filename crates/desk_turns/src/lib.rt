// Turns of the queue (paper 02, #113): the run of a slot goes on from its last node, by 64 nodes (the paper's trials) a turn.
#![tactic(auto)]

mod round;
mod serve;

ghost use Rattle.desk_turns.specs.Calls.{Turned};
ghost use Rattle.desk_turns.specs.RoundsCalls.{Rounded};

use desk::{NEXT, QUEUE_BYTES, Stands};
use desk_waits::{to_serve, waiting};
use model::refusals::Question;
use round::go_round;
use serve::serve;

// What rounds answer: the slots whose run ended in them and those whose run goes on, bit k for slot k.
#[derive(Clone, Copy, Debug, PartialEq, Eq)]
pub struct Given {
    pub ended: u16,
    pub going: u16,
}

// Gives a turn to the next slot whose run hasn't ended; none where no run waits for one.
pub fn turn(queue: &mut [u8]) -> Result<Option<Stands>, Question>
    ensures { Turned queue.old queue.new result }
{
    if queue.len() != QUEUE_BYTES {
        return Err(Question::BufferLength);
    }
    let Some(k) = to_serve(queue) else {
        return Ok(None);
    };
    let s = serve(queue, k, 1);
    queue[NEXT] = ((k + 1) % 8) as u8;
    Ok(Some(Stands {
        slot: k,
        standing: s.standing,
        plans: s.plans,
        nodes: s.nodes,
    }))
}

// Gives each slot whose run hasn't ended up to so many turns; each sheet is prepared once.
pub fn rounds(queue: &mut [u8], turns: u32) -> Result<Given, Question>
    ensures { Rounded queue.old turns queue.new result }
{
    if queue.len() != QUEUE_BYTES {
        return Err(Question::BufferLength);
    }
    let before = waiting(queue);
    let next = go_round(queue, turns);
    queue[NEXT] = next;
    let going = waiting(queue);
    Ok(Given {
        ended: before & !going,
        going,
    })
}
