// Turns of the queue (paper 02, #113), as the other calls on it: crate export_desk.
#![tactic(auto)]

ghost use Rattle.desk.specs.Queue.{turn};
ghost use Rattle.export_desk.specs.Told.{CallQueue, CallRounds};

use desk_turns::Given;
use export_desk::turned;
use wire::{WRONG_LENGTH, refusal_code, three};

// Gives a turn to the next slot whose run hasn't ended. The answer has 16 bytes: its kind, its number, its plans, its nodes (the paper's trials); four
// zeros where no run waits.
pub fn turn(queue: &mut [u8], answer: &mut [u8]) -> u32
    ensures { CallQueue queue.old turn answer.old result queue.new answer.new }
{
    if answer.len() != 16 {
        return WRONG_LENGTH;
    }
    match desk_turns::turn(queue) {
        Ok(served) => {
            turned(answer, served);
            0
        }
        Err(question) => refusal_code(question.into()),
    }
}

// Gives each slot whose run hasn't ended up to so many turns. The answer has 12 bytes: 1, the slots whose run ended, those whose run goes on, bit k for
// slot k.
pub fn rounds(queue: &mut [u8], turns: u32, answer: &mut [u8]) -> u32
    ensures { CallRounds queue.old turns answer.old result queue.new answer.new }
{
    if answer.len() != 12 {
        return WRONG_LENGTH;
    }
    match desk_turns::rounds(queue, turns) {
        Ok(Given { ended, going }) => {
            three(answer, 1, ended as usize, going as usize);
            0
        }
        Err(question) => refusal_code(question.into()),
    }
}
