// The desk for eight halls (paper 02, #113): crates export_desk and export_turns say what the calls answer and leave.
ghost use Rattle.desk.specs.Queue.{submit, turn};
ghost use Rattle.export_desk.specs.Told.{CallQueue, CallRelease, CallStatus, CallRounds};

// Sits down at the lowest free seat.
pub fn planner_desk_sit(desk: &mut [u8], sheet: &[u8], limit: u32, answer: &mut [u8]) -> u32
    ensures { CallQueue desk.old (submit sheet.now limit) answer.old result desk.new answer.new }
{
    export_desk::submit(desk, sheet, limit, answer)
}

// Gives a turn to the next seat whose run hasn't ended.
pub fn planner_desk_turn(desk: &mut [u8], answer: &mut [u8]) -> u32
    ensures { CallQueue desk.old turn answer.old result desk.new answer.new }
{
    export_turns::turn(desk, answer)
}

// Gives each seat whose run hasn't ended up to so many turns.
pub fn planner_desk_rounds(desk: &mut [u8], rounds: u32, answer: &mut [u8]) -> u32
    ensures { CallRounds desk.old rounds answer.old result desk.new answer.new }
{
    export_turns::rounds(desk, rounds, answer)
}

// How a seat stands.
pub fn planner_desk_look(desk: &[u8], seat: u32, answer: &mut [u8]) -> u32
    ensures { CallStatus desk.now seat answer.old result answer.new }
{
    export_desk::status(desk, seat, answer)
}

// Leaves a seat: the plans listed so far go to the front of the room.
pub fn planner_desk_leave(desk: &mut [u8], seat: u32, room: &mut [u8], answer: &mut [u8]) -> u32
    ensures { CallRelease desk.old seat room.old answer.old result desk.new room.new
        answer.new }
{
    export_desk::release(desk, seat, room, answer)
}
