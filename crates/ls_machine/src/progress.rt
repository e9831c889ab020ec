//! Laws of progress: no schedule of workers and writer gets stuck, and none goes on for ever.
ghost use Rattle.ls_machine.specs.Progress.{NothingIsLeft, StepsAreFew, TakenJobsCanFinish, WorkGoesOn};

/// While something is left, a job can be taken, by whichever worker, or one can be finished, or an entry can be sent. It is so in every
/// state. A job that a worker has can always be finished, whether memory was refused in it or not. Where nothing is left, no job waits and
/// nothing is unsent.
pub fn work_goes_on()
    ensures on { WorkGoesOn }
    ensures taken { TakenJobsCanFinish }
    ensures end { NothingIsLeft }
{}

/// After each such step fewer are left, so as many as are left anywhere are the most that can follow there.
pub fn steps_are_few()
    ensures { StepsAreFew }
{}
