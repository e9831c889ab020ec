//! Laws of progress: no schedule of workers and writer gets stuck, and none goes on for ever.
ghost use Rattle.ls_history.specs.Progress.{SchedulesEnd, BoardStepsAreFew, BoardWorkGoesOn};

/// Where a legal history has led, and something is left there, a job can be taken, by whichever worker, or one can be finished, or a reply
/// can leave: there is an answer for it. Each such step leaves fewer. There must be room in the session for an event for each step that is
/// left, and then there is after each step.
pub fn work_goes_on()
    ensures on { BoardWorkGoesOn }
    ensures few { BoardStepsAreFew }
{}

/// So however workers and writer begin behind a legal history with such room, they can go on to where no job waits and nothing is unsent,
/// and they make no more steps than were left, in any order.
pub fn schedules_end()
    ensures { SchedulesEnd }
{}
