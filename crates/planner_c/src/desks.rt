// The desk for eight halls (paper 02, #113).
ghost use Rattle.desk.specs.Queue.{submit, turn};
ghost use Rattle.export_desk.specs.Told.{CallQueue, CallRelease, CallStatus, CallRounds};

// Sits down at the lowest free seat.
#[unsafe(no_mangle)]
pub extern "C" fn planner_desk_sit(
    desk: &mut [u8],
    sheet: &[u8],
    limit: u32,
    answer: &mut [u8],
) -> u32
    ensures { CallQueue desk.old (submit sheet.now limit) answer.old result desk.new answer.new }
{
    planner::desks::planner_desk_sit(desk, sheet, limit, answer)
}

// Gives a turn to the next seat whose run hasn't ended.
#[unsafe(no_mangle)]
pub extern "C" fn planner_desk_turn(desk: &mut [u8], answer: &mut [u8]) -> u32
    ensures { CallQueue desk.old turn answer.old result desk.new answer.new }
{
    planner::desks::planner_desk_turn(desk, answer)
}

// Gives each seat whose run hasn't ended up to so many turns.
#[unsafe(no_mangle)]
pub extern "C" fn planner_desk_rounds(desk: &mut [u8], rounds: u32, answer: &mut [u8]) -> u32
    ensures { CallRounds desk.old rounds answer.old result desk.new answer.new }
{
    planner::desks::planner_desk_rounds(desk, rounds, answer)
}

// How a seat stands.
#[unsafe(no_mangle)]
pub extern "C" fn planner_desk_look(desk: &[u8], seat: u32, answer: &mut [u8]) -> u32
    ensures { CallStatus desk.now seat answer.old result answer.new }
{
    planner::desks::planner_desk_look(desk, seat, answer)
}

// Leaves a seat: the plans listed so far go to the front of the room.
#[unsafe(no_mangle)]
pub extern "C" fn planner_desk_leave(
    desk: &mut [u8],
    seat: u32,
    room: &mut [u8],
    answer: &mut [u8],
) -> u32
    ensures { CallRelease desk.old seat room.old answer.old result desk.new room.new
        answer.new }
{
    planner::desks::planner_desk_leave(desk, seat, room, answer)
}
