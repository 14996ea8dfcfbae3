// What an event (leave, block, resume, tick or view of a task) and a join decide: the advance test, and whether expirations may end.
#![tactic(auto)]

ghost use Rattle.std.specs.Prelude.{◌≡◌, ◌<◌, false};
ghost use Rattle.ledger.specs.Limits.{task_count};
ghost use Rattle.ledger.specs.Tasks.{is_tested};
ghost use Rattle.tasks.specs.Steps.{unmoved, ending_of, planned_after, planned};

mod joining;
mod moves;

pub use joining::{JOINED_TASK, judge_join};
use ledger::{Answer, Event, Refusal, TASK_COUNT};
use moves::{advanced_tasks, advanced_time, is_leave, is_tested, judge, may_end, moved};
use record::codes::state_of;
use record::running::all_ticked;
use record::{GlobalTime, LocalTime, TaskEntry};

// What an event decides: its answer, the task entries and the time that it leaves, and what may end expirations, if anything does.
#[derive(Clone, Copy)]
pub struct Planned {
    pub answer: Answer,
    pub tasks: [TaskEntry; TASK_COUNT],
    pub global: GlobalTime,
    pub ending: Option<Ending>,
}

// What may end expirations: the task's local time, whether the task leaves for good, and whether the global time has advanced.
#[derive(Clone, Copy)]
pub struct Ending {
    pub leaves: bool,
    pub local: LocalTime,
    pub advanced: bool,
}

fn ending_of(event: Event, advanced: bool, local: LocalTime) -> Option<Ending>
    ensures { result ≡ ending_of event advanced local }
{
    if !may_end(event, advanced) {
        return None;
    }
    Some(Ending {
        leaves: is_leave(event),
        local,
        advanced,
    })
}

// What ends nothing.
fn unmoved(answer: Answer, tasks: [TaskEntry; TASK_COUNT], global: GlobalTime) -> Planned
    ensures { result ≡ unmoved answer tasks global }
{
    Planned {
        answer,
        tasks,
        global,
        ending: None,
    }
}

// What an accepted event decides.
#[tactic(auto, unfolding(crate::specs::Steps::planned_after))]
fn accepted(tasks: [TaskEntry; TASK_COUNT], global: GlobalTime, event: Event, task: u8) -> Planned
    requires { task < task_count }
    ensures { result ≡ planned_after event task tasks global }
{
    let mut next = tasks;
    let at = task as usize;
    let e = next[at];
    let m = moved(event, e);
    next[at] = m;
    if !is_tested(event) {
        return unmoved(Answer::Done, next, global);
    }
    let advanced = all_ticked(next);
    let time = advanced_time(advanced, global);
    let local = m.clock;
    Planned {
        answer: Answer::Advanced(advanced),
        tasks: advanced_tasks(advanced, next),
        global: time,
        ending: ending_of(event, advanced, local),
    }
}

// Any event, by the task entries and the time alone: first 1, then the tests of the task's state.
#[tactic(auto, unfolding(crate::specs::Steps::planned))]
pub fn plan(tasks: [TaskEntry; TASK_COUNT], global: GlobalTime, event: Event, task: u8) -> Planned
    ensures { result ≡ planned event task tasks global }
{
    let at = task as usize;
    if TASK_COUNT <= at {
        return unmoved(Answer::Refused(Refusal::NoSuchTask), tasks, global);
    }
    let e = tasks[at];
    match judge(event, state_of(e.state)) {
        Ok(()) => accepted(tasks, global, event, task),
        Err(why) => unmoved(Answer::Refused(why), tasks, global),
    }
}

// A resume or a view alone, which no advance test follows. (Plan has one caller then, and stands there without a call.)
#[tactic(auto, unfolding(crate::specs::Steps::planned, crate::specs::Steps::planned_after))]
pub fn plan_start(
    tasks: [TaskEntry; TASK_COUNT],
    global: GlobalTime,
    event: Event,
    task: u8,
) -> Planned
    requires { is_tested event ≡ false }
    ensures { result ≡ planned event task tasks global }
{
    let at = task as usize;
    if TASK_COUNT <= at {
        return unmoved(Answer::Refused(Refusal::NoSuchTask), tasks, global);
    }
    let e = tasks[at];
    match judge(event, state_of(e.state)) {
        Ok(()) => {
            let mut next = tasks;
            next[at] = moved(event, e);
            unmoved(Answer::Done, next, global)
        }
        Err(why) => unmoved(Answer::Refused(why), tasks, global),
    }
}
