// The calls on a record by value that concern tasks and times: renew and renew_sized, join, leave, block, resume, tick and view; and two
// looks, awaited and share.
#![tactic(auto)]

ghost use Rattle.std.specs.Prelude.{[], ◌∷◌};
ghost use Rattle.ledger.specs.declared.Call.TheVariants.{Join, Schedule};
ghost use Rattle.ledger.specs.declared.Event.TheVariants.{Leave, Block, Resume, Tick, View};
ghost use Rattle.ledger.specs.declared.Request.TheVariants.{Use};
ghost use Rattle.ledger.specs.Limits.{chosen, standard};
ghost use Rattle.ledger.specs.Rows.{share_of};
ghost use Rattle.by_value.specs.Entries.{Does, Renews, TellsAwaited, TellsShare};

mod advancing;

use advancing::advance_or;
use by_value::Numbered;
use by_value::taking::store_head;
use fitness::{fitness_of, is_well_formed};
use ledger::{Event, Limits, Quota, Refusal, STANDARD, Share, TASK_COUNT, is_allowed};
use record::{Pool, fresh, running};
use tested;
use tested::schedule;

// T5, O9: the record as on the first day, with 01's figures, whatever it was.
pub fn renew(p: Pool) -> Numbered
    ensures { Renews standard result.number result.pool }
{
    Numbered {
        number: 0,
        pool: fresh(STANDARD),
    }
}

// R29: the same with the figures of a site. Of figures that a site may not choose the record that is left is not well-formed.
pub fn renew_sized(p: Pool, small: u32, large: u32, expirations: u32, extension: u32) -> Numbered
    ensures { Renews (chosen small large expirations extension) result.number result.pool }
{
    let limits = Limits {
        small,
        large,
        expirations,
        extension,
    };
    if is_allowed(limits) {
        return Numbered {
            number: 0,
            pool: fresh(limits),
        };
    }
    Numbered {
        number: u8::from(Refusal::LimitsOutOfRange),
        pool: fresh(limits),
    }
}

// Join, resume and view change no column: the record lends its own, and gets another head.
pub fn join_into(
    p: Pool,
    task: u8,
    reserve: u8,
    limit: u8,
    largereserve: u8,
    largelimit: u8,
    left: &mut Pool,
) -> u8
    ensures { Does (Use (Join task (share_of reserve limit largereserve largelimit))) p [] result left.new [] }
{
    *left = p;
    let small = Quota { reserve, limit };
    let large = Quota {
        reserve: largereserve,
        limit: largelimit,
    };
    let share = Share { small, large };
    let step = tested::join(left.head, &left.blocks, &left.expirations, task, share);
    store_head(step, left)
}

// The same, given back.
pub fn join(p: Pool, task: u8, reserve: u8, limit: u8, largereserve: u8, largelimit: u8) -> Numbered
    ensures { Does (Use (Join task (share_of reserve limit largereserve largelimit))) p [] result.number result.pool [] }
{
    let mut left = p;
    let number = join_into(p, task, reserve, limit, largereserve, largelimit, &mut left);
    Numbered { number, pool: left }
}

// A leave, a block or a tick, which tell whether time advanced.
fn event_into(p: Pool, event: Event, task: u8, advanced: &mut u8, left: &mut Pool) -> u8
    ensures { Does (Use (Schedule event task)) p (advanced.old ∷ []) result left.new (advanced.new ∷ []) }
{
    *left = p;
    let step = schedule(
        left.head,
        &mut left.blocks,
        &mut left.expirations,
        event,
        task,
    );
    let answer = step.answer;
    *advanced = advance_or(*advanced, answer);
    store_head(step, left)
}

pub fn leave_into(p: Pool, task: u8, advanced: &mut u8, left: &mut Pool) -> u8
    ensures { Does (Use (Schedule Leave task)) p (advanced.old ∷ []) result left.new (advanced.new ∷ []) }
{
    event_into(p, Event::Leave, task, advanced, left)
}

// The same, given back.
pub fn leave(p: Pool, task: u8, advanced: &mut u8) -> Numbered
    ensures { Does (Use (Schedule Leave task)) p (advanced.old ∷ []) result.number result.pool (advanced.new ∷ []) }
{
    let mut left = p;
    let number = leave_into(p, task, advanced, &mut left);
    Numbered { number, pool: left }
}

pub fn block_into(p: Pool, task: u8, advanced: &mut u8, left: &mut Pool) -> u8
    ensures { Does (Use (Schedule Block task)) p (advanced.old ∷ []) result left.new (advanced.new ∷ []) }
{
    event_into(p, Event::Block, task, advanced, left)
}

// The same, given back.
pub fn block(p: Pool, task: u8, advanced: &mut u8) -> Numbered
    ensures { Does (Use (Schedule Block task)) p (advanced.old ∷ []) result.number result.pool (advanced.new ∷ []) }
{
    let mut left = p;
    let number = block_into(p, task, advanced, &mut left);
    Numbered { number, pool: left }
}

pub fn resume_into(p: Pool, task: u8, left: &mut Pool) -> u8
    ensures { Does (Use (Schedule Resume task)) p [] result left.new [] }
{
    *left = p;
    let step = tested::start(
        left.head,
        &left.blocks,
        &left.expirations,
        Event::Resume,
        task,
    );
    store_head(step, left)
}

// The same, given back.
pub fn resume(p: Pool, task: u8) -> Numbered
    ensures { Does (Use (Schedule Resume task)) p [] result.number result.pool [] }
{
    let mut left = p;
    let number = resume_into(p, task, &mut left);
    Numbered { number, pool: left }
}

pub fn tick_into(p: Pool, task: u8, advanced: &mut u8, left: &mut Pool) -> u8
    ensures { Does (Use (Schedule Tick task)) p (advanced.old ∷ []) result left.new (advanced.new ∷ []) }
{
    event_into(p, Event::Tick, task, advanced, left)
}

// The same, given back.
pub fn tick(p: Pool, task: u8, advanced: &mut u8) -> Numbered
    ensures { Does (Use (Schedule Tick task)) p (advanced.old ∷ []) result.number result.pool (advanced.new ∷ []) }
{
    let mut left = p;
    let number = tick_into(p, task, advanced, &mut left);
    Numbered { number, pool: left }
}

// V1: joins as a viewer (02: 0E).
pub fn view_into(p: Pool, task: u8, left: &mut Pool) -> u8
    ensures { Does (Use (Schedule View task)) p [] result left.new [] }
{
    *left = p;
    let step = tested::start(
        left.head,
        &left.blocks,
        &left.expirations,
        Event::View,
        task,
    );
    store_head(step, left)
}

// The same, given back.
pub fn view(p: Pool, task: u8) -> Numbered
    ensures { Does (Use (Schedule View task)) p [] result.number result.pool [] }
{
    let mut left = p;
    let number = view_into(p, task, &mut left);
    Numbered { number, pool: left }
}

// For whom the global time waits. It is no call of the ledger: it changes nothing, and no frame asks it.
pub fn awaited(p: Pool, tasks: &mut u16) -> u8
    ensures { TellsAwaited p tasks.old result tasks.new }
{
    if !is_well_formed(p.head, &p.blocks, &p.expirations) {
        return u8::from(Refusal::NotWellFormed);
    }
    let entries = p.head.tasks;
    *tasks = running::awaited(entries);
    0
}

// What a task made and may have of either store. Like awaited it changes nothing, and no frame asks it.
pub fn share(
    p: Pool,
    task: u8,
    made: &mut u8,
    reserve: &mut u8,
    limit: &mut u8,
    largemade: &mut u8,
    largereserve: &mut u8,
    largelimit: &mut u8,
) -> u8
    ensures { TellsShare p task
        (made.old ∷ reserve.old ∷ limit.old ∷ largemade.old ∷ largereserve.old
        ∷ largelimit.old ∷ []) result
        (made.new ∷ reserve.new ∷ limit.new ∷ largemade.new ∷ largereserve.new
        ∷ largelimit.new ∷ []) }
{
    let Some(holdings) = fitness_of(p.head, &p.blocks, &p.expirations) else {
        return u8::from(Refusal::NotWellFormed);
    };
    if TASK_COUNT <= task as usize {
        return u8::from(Refusal::NoSuchTask);
    }
    let shares = p.head.shares;
    let own = shares[task as usize];
    let small = holdings.small.made;
    let large = holdings.large.made;
    *made = small[task as usize];
    *reserve = own.small.reserve;
    *limit = own.small.limit;
    *largemade = large[task as usize];
    *largereserve = own.large.reserve;
    *largelimit = own.large.limit;
    0
}
