//! What an answer makes of an attempt's stage, of the locker's hold and of the phases. Nothing here takes memory.

ghost use Rattle.std.specs.Prelude.{◌≡◌};
ghost use Rattle.tool_program.specs.CutoverCore.CutOvers.{is_bad, is_wait, shows_wait, locker_stage, begun, locker_phase, hold_after, renamer_phase, drain_of, drain_stage, with_drain, inspector_stage, finishing, task_of, stands, may_succeed, is_done};

use crate::cutover_core::cutover::{Clearing, Drain, Hold, Leftovers, Phase, Stage};
use server_model::{Answer, Progress, ShownWaiters};

/// Whether the session was lost, or its wait timed out.
pub fn is_bad(answer: &Answer) -> bool
    ensures { result ≡ is_bad answer.now }
{
    matches!(answer, Answer::Lost | Answer::TimedOut { .. })
}

pub(crate) fn is_wait(answer: &Answer) -> bool
    ensures { result ≡ is_wait answer.now }
{
    matches!(answer, Answer::Waits { .. })
}

fn shows_wait(waiters: &ShownWaiters) -> bool
    ensures { result ≡ shows_wait waiters.now }
{
    waiters.as_slice().iter().any(|waiter| waiter.by != 0)
}

fn locker_stage(stage: Stage, answer: &Answer) -> Stage
    ensures { result ≡ locker_stage stage answer.now }
{
    match (stage, answer) {
        (Stage::Guarding, Answer::Ok(_)) => Stage::Locking,
        (Stage::Locking, Answer::Ok(_)) => Stage::Hinting,
        (Stage::Dropping, Answer::Ok(_)) => Stage::Unlocking,
        (Stage::Unlocking, Answer::Ok(_)) => Stage::Exchanging,
        (stage, _) => stage,
    }
}

/// The answer to the CREATE of the sentry begins an attempt.
fn begun(answer: &Answer) -> Phase
    ensures { result ≡ begun answer.now }
{
    match answer {
        Answer::Ok(_) => Phase::Attempting(Stage::Locking),
        Answer::Waits { .. } => Phase::Attempting(Stage::Guarding),
        _ => Phase::Ending(Clearing::Looking),
    }
}

pub(crate) fn locker_phase(phase: Phase, answer: &Answer) -> Phase
    ensures { result ≡ locker_phase phase answer.now }
{
    match phase {
        Phase::Resting => begun(answer),
        Phase::Attempting(stage) => {
            if is_bad(answer) {
                Phase::Ending(Clearing::Looking)
            } else {
                Phase::Attempting(locker_stage(stage, answer))
            }
        }
        phase => phase,
    }
}

/// What the locker has after an answer: it waits for the lock or for the sentry, or holds the lock.
pub(crate) fn hold_after(hold: Hold, phase: Phase, answer: &Answer) -> Hold
    ensures { result ≡ hold_after hold phase answer.now }
{
    let locking = matches!(hold, Hold::WaitsToLock)
        || matches!(hold, Hold::Nothing) && matches!(phase, Phase::Attempting(Stage::Locking));
    match hold {
        Hold::Locks => match phase {
            Phase::Attempting(Stage::Dropping) if !is_bad(answer) => Hold::Locks,
            _ => Hold::Nothing,
        },
        Hold::Nothing | Hold::WaitsToGuard | Hold::WaitsToLock => match answer {
            Answer::Waits { .. } => {
                if locking {
                    Hold::WaitsToLock
                } else {
                    Hold::WaitsToGuard
                }
            }
            Answer::Ok(_) if locking => Hold::Locks,
            _ => Hold::Nothing,
        },
    }
}

pub(crate) fn renamer_phase(phase: Phase, answer: &Answer) -> Phase
    ensures { result ≡ renamer_phase phase answer.now }
{
    match (answer, phase) {
        (Answer::Ok(_), _) => Phase::Finishing(Clearing::Looking),
        (Answer::Waits { .. }, Phase::Attempting(Stage::Drained)) => {
            Phase::Attempting(Stage::Showing)
        }
        (Answer::Lost | Answer::TimedOut { .. }, Phase::Attempting(_)) => {
            Phase::Ending(Clearing::Looking)
        }
        (_, phase) => phase,
    }
}

/// The stage after the hint row, where no counter is carried, or is set already.
fn drain_stage(drain: Drain) -> Stage
    ensures { result ≡ drain_stage drain }
{
    match drain {
        Drain::Turns(turns) => Stage::Draining(turns),
        Drain::Passed => Stage::Drained,
    }
}

/// How far the applier is with the events before the hint row, from when that is written until it is known that it has passed it.
pub(crate) fn drain_of(stage: Stage) -> Option<Drain>
    ensures { result ≡ drain_of stage }
{
    match stage {
        Stage::ReadingCounter(drain) | Stage::SettingCounter { drain, .. } => Some(drain),
        Stage::Draining(turns) => Some(Drain::Turns(turns)),
        _ => None,
    }
}

pub(crate) fn with_drain(stage: Stage, drain: Drain) -> Stage
    ensures { result ≡ with_drain stage drain }
{
    match stage {
        Stage::ReadingCounter(_) => Stage::ReadingCounter(drain),
        Stage::SettingCounter { number, .. } => Stage::SettingCounter { number, drain },
        Stage::Draining(_) => drain_stage(drain),
        stage => stage,
    }
}

pub(crate) fn inspector_stage(has_counter: bool, stage: Stage, answer: &Answer) -> Stage
    ensures { result ≡ inspector_stage has_counter stage answer.now }
{
    match (stage, answer) {
        (Stage::Hinting, Answer::Ok(_)) => {
            if has_counter {
                Stage::ReadingCounter(Drain::Turns(0))
            } else {
                Stage::Draining(0)
            }
        }
        (Stage::ReadingCounter(drain), Answer::At(number)) => Stage::SettingCounter {
            number: *number,
            drain,
        },
        (Stage::SettingCounter { drain, .. }, Answer::Ok(_)) => drain_stage(drain),
        (Stage::Showing, Answer::Waiting(waiters)) => {
            if shows_wait(waiters) {
                Stage::Dropping
            } else {
                Stage::Showing
            }
        }
        (stage, _) => stage,
    }
}

/// After the RENAME: what is left is dropped, or all is done.
pub(crate) fn finishing(left: Leftovers) -> Phase
    ensures { result ≡ finishing left }
{
    if left.is_clear() {
        Phase::Finished
    } else {
        Phase::Finishing(Clearing::Drops(left))
    }
}

/// What it means for the task that an answer led from one phase to another.
pub(crate) fn task_of(before: Phase, after: Phase, answer: &Answer) -> Progress
    ensures { result ≡ task_of before after answer.now }
{
    match after {
        Phase::Finished => Progress::TaskDone,
        Phase::Resting if before.stands() => Progress::TaskDone,
        Phase::Resting => Progress::Going,
        _ if is_bad(answer) => Progress::TaskFailed,
        _ => Progress::Going,
    }
}

impl Phase {
    ghost use Rattle.tool_program.specs.CutoverCore.CutOvers.{is_resting, is_ending, is_finished};

    /// Whether an attempt is under way.
    pub fn stands(self) -> bool
        ensures { result ≡ stands self }
    {
        matches!(self, Phase::Attempting(_) | Phase::Ending(_))
    }

    /// Whether the attempt that is under way may yet succeed.
    pub fn may_succeed(self) -> bool
        ensures { result ≡ may_succeed self }
    {
        matches!(self, Phase::Attempting(_))
    }

    /// Whether the RENAME was done, as the tool knows.
    pub fn is_done(self) -> bool
        ensures { result ≡ is_done self }
    {
        matches!(self, Phase::Finishing(_) | Phase::Finished)
    }

    /// Whether no attempt is under way, and none succeeded.
    pub fn is_resting(self) -> bool
        ensures { result ≡ is_resting self }
    {
        matches!(self, Phase::Resting)
    }

    /// Whether an attempt is under way that won't succeed.
    pub fn is_ending(self) -> bool
        ensures { result ≡ is_ending self }
    {
        matches!(self, Phase::Ending(_))
    }

    /// Whether all is cleared up after the RENAME.
    pub fn is_finished(self) -> bool
        ensures { result ≡ is_finished self }
    {
        matches!(self, Phase::Finished)
    }
}
