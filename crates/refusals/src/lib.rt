// The tests of the rules R, each by numbers that its call has found, and the searches of the blocks that find them. A call is refused by
// the first that holds (R32).
#![tactic(auto)]

ghost use Rattle.std.specs.Prelude.{◌+◌, ltb, ◌≡◌};
ghost use Rattle.ledger.specs.Refusals.{most_extension, is_pinning, is_not_given};
ghost use Rattle.refusals.specs.Verdicts.{refuse_if, by_state, task_verdict, extension_verdict, set_verdict, found_verdict, room_verdict, make_call_verdict, taking_verdict, batch_call_verdict, batch_objects_verdict};

mod batch;
mod search;
mod table;

pub use batch::{BatchFound, find_batch, handle_at};
use ledger::{Kind, LARGE_SIZE, LARGEST_BATCH, Limits, Refusal, State, TASK_COUNT};
use record::codes::state_of;
use record::{BLOCK_COUNT, TaskEntry};
pub use search::{free_place, locate};

fn refuse_if(holds: bool, why: Refusal) -> Result<(), Refusal>
    ensures { result ≡ refuse_if holds why }
{
    if holds { Err(why) } else { Ok(()) }
}

// 3, 4, and 27 where the call is none that a viewer may make
fn by_state(acts: bool, state: State) -> Result<(), Refusal>
    ensures { result ≡ by_state acts state }
{
    match state {
        State::Absent => Err(Refusal::TaskAbsent),
        State::Running => Ok(()),
        State::Waiting => Err(Refusal::TaskWaiting),
        State::Viewing => refuse_if(acts, Refusal::OnlyViews),
    }
}

// 1, 3, 4, and 27 where the task is to act
pub fn task_verdict(acts: bool, task: u8, tasks: [TaskEntry; TASK_COUNT]) -> Result<(), Refusal>
    ensures { result ≡ task_verdict acts task tasks }
{
    let i = task as usize;
    if TASK_COUNT <= i {
        return Err(Refusal::NoSuchTask);
    }
    let e = tasks[i];
    by_state(acts, state_of(e.state))
}

// The longest extension of a kind.
fn most_extension(limits: Limits, kind: Kind) -> u32
    ensures { result ≡ most_extension limits kind }
{
    match kind {
        Kind::Local => limits.extension,
        Kind::Global => limits.extension,
        Kind::Pinned => 0,
    }
}

// 6
fn extension_verdict(limits: Limits, kind: Kind, extension: u8) -> Result<(), Refusal>
    ensures { result ≡ extension_verdict limits kind extension }
{
    refuse_if(
        most_extension(limits, kind) < extension as u32,
        Refusal::ExtensionTooLong,
    )
}

// Whether an expiration of a kind is pinned.
fn is_pinning(kind: Kind) -> bool
    ensures { result ≡ is_pinning kind }
{
    match kind {
        Kind::Local => false,
        Kind::Global => false,
        Kind::Pinned => true,
    }
}

// 21, 6: of one expiration more on an object that stands
pub fn set_verdict(limits: Limits, kind: Kind, extension: u8) -> Result<(), Refusal>
    ensures { result ≡ set_verdict limits kind extension }
{
    refuse_if(is_pinning(kind), Refusal::OnlyMakePins)?;
    extension_verdict(limits, kind, extension)
}

// 11
pub fn is_ungiven(given: u32, handle: u32) -> bool
    ensures { result ≡ is_not_given given handle }
{
    (handle == 0) | (given < handle)
}

// 11, 12
pub fn found_verdict(handle: u32, given: u32, place: usize) -> Result<(), Refusal>
    ensures { result ≡ found_verdict handle given place }
{
    refuse_if(is_ungiven(given, handle), Refusal::HandleNotGiven)?;
    refuse_if(BLOCK_COUNT <= place, Refusal::ObjectGone)
}

// 10
pub fn room_verdict(limits: Limits, standing: usize) -> Result<(), Refusal>
    ensures { result ≡ room_verdict limits standing }
{
    refuse_if(
        limits.expirations as usize <= standing,
        Refusal::NoFreeExpiration,
    )
}

// R40, the tests that look at no block: 1, 3, 4, 27, 6, 7, 28, 8
#[tactic(auto, unfolding(ledger::specs::Limits::last_handle))]
pub fn make_call_verdict(
    limits: Limits,
    task: u8,
    kind: Kind,
    extension: u8,
    length: u32,
    prefix: u32,
    tasks: [TaskEntry; TASK_COUNT],
    given: u32,
) -> Result<(), Refusal>
    ensures { result ≡ make_call_verdict limits task kind extension length prefix tasks given }
{
    task_verdict(true, task, tasks)?;
    extension_verdict(limits, kind, extension)?;
    refuse_if(
        (length == 0) | (LARGE_SIZE < length),
        Refusal::LengthOutOfRange,
    )?;
    refuse_if(length < prefix, Refusal::PrefixTooLong)?;
    refuse_if(u32::MAX <= given, Refusal::HandlesSpent)
}

// and those after them: 26, 9, 10
pub fn taking_verdict(
    limits: Limits,
    limited: bool,
    full: bool,
    standing: usize,
) -> Result<(), Refusal>
    ensures { result ≡ taking_verdict limits limited full standing }
{
    refuse_if(limited, Refusal::AtLimit)?;
    refuse_if(full, Refusal::NoFreeBlock)?;
    room_verdict(limits, standing)
}

// R47, the tests that look at no object: 1, 3, 4, 27, 20, 21, 6
pub fn batch_call_verdict(
    limits: Limits,
    task: u8,
    kind: Kind,
    extension: u8,
    tasks: [TaskEntry; TASK_COUNT],
    count: usize,
) -> Result<(), Refusal>
    ensures { result ≡ batch_call_verdict limits task kind extension tasks count }
{
    task_verdict(true, task, tasks)?;
    refuse_if(
        (count == 0) | (LARGEST_BATCH < count),
        Refusal::BatchOutOfRange,
    )?;
    set_verdict(limits, kind, extension)
}

// and those after them: 11, 12, 10, where so many expirations would stand
pub fn batch_objects_verdict(
    limits: Limits,
    ungiven: bool,
    gone: bool,
    after: usize,
) -> Result<(), Refusal>
    ensures { result ≡ batch_objects_verdict limits ungiven gone after }
{
    refuse_if(ungiven, Refusal::HandleNotGiven)?;
    refuse_if(gone, Refusal::ObjectGone)?;
    refuse_if(
        (limits.expirations as usize) < after,
        Refusal::NoFreeExpiration,
    )
}

// R13: past the object's end, with no sum that could wrap.
pub fn reaches_past(length: u16, offset: u8, count: usize) -> bool
    ensures { result ≡ ltb length (offset + count) }
{
    let length = length as usize;
    let offset = offset as usize;
    (length < offset) || (length - offset < count)
}
