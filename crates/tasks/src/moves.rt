// What an event makes of the task entries and the global time.
ghost use Rattle.std.specs.Prelude.{◌≡◌, map};
ghost use Rattle.ledger.specs.Tasks.{is_tested};
ghost use Rattle.ledger.specs.declared.Event.TheVariants.{Tick};
ghost use Rattle.steps.specs.Events.{verdict_of, cleared_entry, moved_entry, unticked_entry, advanced_tasks, advanced_time};
ghost use Rattle.tasks.specs.Steps.{is_leave, may_end};

use ledger::{Event, Refusal, State, TASK_COUNT};
use record::clock_time::ClockTime;
use record::codes::{RUNNING, VIEWING, WAITING};
use record::{ABSENT_TASK, GlobalTime, TaskEntry};

// R37 to R39 and R49, after 1: leave 3; block and tick 3, 4, 27; resume 3, 5; view 2.
#[tactic(auto, unfolding(ledger::specs::Rules::tests_of, ledger::specs::Refusals::verdict))]
pub fn judge(event: Event, state: State) -> Result<(), Refusal>
    ensures { result ≡ verdict_of event state }
{
    match event {
        Event::Leave => match state {
            State::Absent => Err(Refusal::TaskAbsent),
            State::Running => Ok(()),
            State::Waiting => Ok(()),
            State::Viewing => Ok(()),
        },
        Event::Block => match state {
            State::Absent => Err(Refusal::TaskAbsent),
            State::Running => Ok(()),
            State::Waiting => Err(Refusal::TaskWaiting),
            State::Viewing => Err(Refusal::OnlyViews),
        },
        Event::Resume => match state {
            State::Absent => Err(Refusal::TaskAbsent),
            State::Running => Err(Refusal::TaskRunning),
            State::Waiting => Ok(()),
            State::Viewing => Err(Refusal::TaskRunning),
        },
        Event::Tick => match state {
            State::Absent => Err(Refusal::TaskAbsent),
            State::Running => Ok(()),
            State::Waiting => Err(Refusal::TaskWaiting),
            State::Viewing => Err(Refusal::OnlyViews),
        },
        Event::View => match state {
            State::Absent => Ok(()),
            State::Running => Err(Refusal::TaskPresent),
            State::Waiting => Err(Refusal::TaskPresent),
            State::Viewing => Err(Refusal::TaskPresent),
        },
    }
}

// An entry in this state, not ticked (01: mark).
fn cleared(state: u16, mut e: TaskEntry) -> TaskEntry
    ensures { result ≡ cleared_entry state e }
{
    e.state = state;
    e.ticked = 0;
    e
}

// T13: one tick more, and ticked.
#[tactic(auto, unfolding(ledger::specs::Limits::counter_range))]
fn ticked(mut e: TaskEntry) -> TaskEntry
    ensures { result ≡ moved_entry Tick e }
{
    e.ticked = 1;
    e.clock = e.clock.after(1);
    e
}

// T10 to T13, V1: what each of the five makes of its task.
pub fn moved(event: Event, e: TaskEntry) -> TaskEntry
    ensures { result ≡ moved_entry event e }
{
    match event {
        Event::Leave => ABSENT_TASK,
        Event::Block => cleared(WAITING, e),
        Event::Resume => cleared(RUNNING, e),
        Event::Tick => ticked(e),
        Event::View => cleared(VIEWING, ABSENT_TASK),
    }
}

// T14: whether the advance test follows the event.
pub fn is_tested(event: Event) -> bool
    ensures { result ≡ is_tested event }
{
    matches!(event, Event::Leave | Event::Block | Event::Tick)
}

// E9: whether the task leaves, and all its local expirations end.
pub fn is_leave(event: Event) -> bool
    ensures { result ≡ is_leave event }
{
    matches!(event, Event::Leave)
}

// Whether an accepted event may end expirations of a well-formed record: a leave and a tick may, a block only where the global time
// advances.
pub fn may_end(event: Event, advanced: bool) -> bool
    ensures { result ≡ may_end event advanced }
{
    match event {
        Event::Leave | Event::Tick => true,
        Event::Block => advanced,
        Event::Resume | Event::View => false,
    }
}

fn all_unticked(mut tasks: [TaskEntry; TASK_COUNT]) -> [TaskEntry; TASK_COUNT]
    ensures { result ≡ map unticked_entry tasks }
{
    for task in &mut tasks {
        task.ticked = 0;
    }
    tasks
}

// T18: no task is ticked any more.
pub fn advanced_tasks(advanced: bool, tasks: [TaskEntry; TASK_COUNT]) -> [TaskEntry; TASK_COUNT]
    ensures { result ≡ advanced_tasks advanced tasks }
{
    if advanced {
        return all_unticked(tasks);
    }
    tasks
}

// T17: one more.
#[tactic(auto, unfolding(ledger::specs::Limits::counter_range))]
pub fn advanced_time(advanced: bool, global: GlobalTime) -> GlobalTime
    ensures { result ≡ advanced_time advanced global }
{
    if advanced { global.after(1) } else { global }
}
