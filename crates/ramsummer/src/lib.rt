// The pool for a host, by a loan of the record and the stores: what a logger in C or Rust links. An entry hands the record by value to the
// call, lends it for what the call leaves, and gives the answer's number: 0, a refusal of 01, or 255 for a buffer too short. There is none
// with a condition: whatever a host passes is carried out or refused.
#![tactic(auto)]

ghost use Rattle.std.specs.Prelude.{[], ◌∷◌, ◌≡◌};
ghost use Rattle.ledger.specs.declared.Call.TheVariants.{Join, Schedule, Release};
ghost use Rattle.ledger.specs.declared.Event.TheVariants.{Leave, Block, Resume, Tick, View};
ghost use Rattle.ledger.specs.declared.Request.TheVariants.{Use, Report, Remaining};
ghost use Rattle.ledger.specs.Limits.{chosen, standard};
ghost use Rattle.ledger.specs.Numbers.{kind_of};
ghost use Rattle.ledger.specs.Rows.{share_of};
ghost use Rattle.by_value.specs.Told.{buffered};
ghost use Rattle.by_value_frame.specs.Carries.{Carries};
ghost use Rattle.by_value.specs.Entries.{Does, Renews, MakesBy, RefreshesBy, RefreshesAllBy, WritesTo, CopiesOut, TellsAwaited, TellsShare};

use record::Pool;

#[unsafe(no_mangle)]
pub extern "C" fn ramsummer_fresh(p: &mut Pool) -> u8
    ensures { Renews standard result p.new }
{
    let r = by_value_tasks::renew(*p);
    *p = r.pool;
    r.number
}

#[unsafe(no_mangle)]
pub extern "C" fn ramsummer_fresh_sized(
    p: &mut Pool,
    small: u32,
    large: u32,
    expirations: u32,
    extension: u32,
) -> u8
    ensures { Renews (chosen small large expirations extension) result p.new }
{
    let r = by_value_tasks::renew_sized(*p, small, large, expirations, extension);
    *p = r.pool;
    r.number
}

#[unsafe(no_mangle)]
pub extern "C" fn ramsummer_join(
    p: &mut Pool,
    task: u8,
    reserve: u8,
    limit: u8,
    largereserve: u8,
    largelimit: u8,
) -> u8
    ensures { Does (Use (Join task (share_of reserve limit largereserve largelimit))) p.old [] result p.new [] }
{
    by_value_tasks::join_into(*p, task, reserve, limit, largereserve, largelimit, p)
}

#[unsafe(no_mangle)]
pub extern "C" fn ramsummer_leave(p: &mut Pool, task: u8, advanced: &mut u8) -> u8
    ensures { Does (Use (Schedule Leave task)) p.old (advanced.old ∷ []) result p.new
        (advanced.new ∷ []) }
{
    by_value_tasks::leave_into(*p, task, advanced, p)
}

#[unsafe(no_mangle)]
pub extern "C" fn ramsummer_block(p: &mut Pool, task: u8, advanced: &mut u8) -> u8
    ensures { Does (Use (Schedule Block task)) p.old (advanced.old ∷ []) result p.new
        (advanced.new ∷ []) }
{
    by_value_tasks::block_into(*p, task, advanced, p)
}

#[unsafe(no_mangle)]
pub extern "C" fn ramsummer_resume(p: &mut Pool, task: u8) -> u8
    ensures { Does (Use (Schedule Resume task)) p.old [] result p.new [] }
{
    by_value_tasks::resume_into(*p, task, p)
}

#[unsafe(no_mangle)]
pub extern "C" fn ramsummer_tick(p: &mut Pool, task: u8, advanced: &mut u8) -> u8
    ensures { Does (Use (Schedule Tick task)) p.old (advanced.old ∷ []) result p.new
        (advanced.new ∷ []) }
{
    by_value_tasks::tick_into(*p, task, advanced, p)
}

// V1: joins as a viewer (02: 0E).
#[unsafe(no_mangle)]
pub extern "C" fn ramsummer_view(p: &mut Pool, task: u8) -> u8
    ensures { Does (Use (Schedule View task)) p.old [] result p.new [] }
{
    by_value_tasks::view_into(*p, task, p)
}

#[unsafe(no_mangle)]
pub extern "C" fn ramsummer_make(
    p: &mut Pool,
    small: &mut [u8],
    large: &mut [u8],
    task: u8,
    kind: u8,
    extension: u8,
    size: u16,
    prefix: u16,
    handle: &mut u32,
) -> u8
    ensures { MakesBy (kind_of kind) task extension size prefix p.old small.old large.old
        (handle.old ∷ []) result p.new small.new large.new (handle.new ∷ []) }
{
    by_value::make_into(
        *p, small, large, task, kind, extension, size, prefix, handle, p,
    )
}

#[unsafe(no_mangle)]
pub extern "C" fn ramsummer_refresh(
    p: &mut Pool,
    task: u8,
    kind: u8,
    extension: u8,
    handle: u32,
) -> u8
    ensures { RefreshesBy (kind_of kind) task extension handle p.old result p.new }
{
    by_value::refresh_into(*p, task, kind, extension, handle, p)
}

// All these objects, or none.
#[unsafe(no_mangle)]
pub extern "C" fn ramsummer_refresh_all(
    p: &mut Pool,
    task: u8,
    kind: u8,
    extension: u8,
    handles: &[u32],
) -> u8
    ensures { RefreshesAllBy (kind_of kind) task extension handles.now p.old result p.new }
{
    by_value::refresh_all_into(*p, task, kind, extension, handles, p)
}

// Ends the pinned expiration of an object.
#[unsafe(no_mangle)]
pub extern "C" fn ramsummer_release(p: &mut Pool, task: u8, handle: u32) -> u8
    ensures { Does (Use (Release task handle)) p.old [] result p.new [] }
{
    by_value_objects::release_into(*p, task, handle, p)
}

// The object's bytes go to the start of a buffer, and how many to `count`. The record stays, and so it is not stored back.
#[unsafe(no_mangle)]
pub extern "C" fn ramsummer_read(
    p: &mut Pool,
    small: &[u8],
    large: &[u8],
    task: u8,
    handle: u32,
    out: &mut [u8],
    count: &mut usize,
) -> u8
    ensures { CopiesOut task handle p.old small.now large.now
        (buffered count.old out.old) result (buffered count.new out.new)
        × (p.new ≡ p.old) }
{
    by_value_objects::read(*p, small, large, task, handle, out, count)
}

// The record gets the block's new sum.
#[unsafe(no_mangle)]
pub extern "C" fn ramsummer_write(
    p: &mut Pool,
    small: &mut [u8],
    large: &mut [u8],
    task: u8,
    handle: u32,
    offset: u8,
    bytes: &[u8],
) -> u8
    ensures { WritesTo task handle offset bytes.now p.old small.old large.old result
        p.new small.new large.new }
{
    by_value_objects::write_into(*p, small, large, task, handle, offset, bytes, p)
}

// The record stays.
#[unsafe(no_mangle)]
pub extern "C" fn ramsummer_report(
    p: &mut Pool,
    small: &mut u8,
    large: &mut u8,
    expirations: &mut u16,
    given: &mut u32,
) -> u8
    ensures { Does Report p.old
        (small.old ∷ large.old ∷ expirations.old ∷ given.old ∷ []) result p.old
        (small.new ∷ large.new ∷ expirations.new ∷ given.new ∷ [])
        × (p.new ≡ p.old) }
{
    by_value_objects::report(*p, small, large, expirations, given)
}

// How long an object has left: ticks of the task that asks, and advances. The record stays.
#[unsafe(no_mangle)]
pub extern "C" fn ramsummer_remaining(
    p: &mut Pool,
    task: u8,
    handle: u32,
    local: &mut u8,
    global: &mut u8,
) -> u8
    ensures { Does (Remaining task handle) p.old (local.old ∷ global.old ∷ []) result p.old
        (local.new ∷ global.new ∷ [])
        × (p.new ≡ p.old) }
{
    by_value_objects::remaining(*p, task, handle, local, global)
}

// For whom the global time waits: the tasks that run and have not ticked, a bit each. It asks nothing of the pool's rules, and the record
// stays.
#[unsafe(no_mangle)]
pub extern "C" fn ramsummer_awaited(p: &mut Pool, tasks: &mut u16) -> u8
    ensures { TellsAwaited p.old tasks.old result tasks.new
        × (p.new ≡ p.old) }
{
    by_value_tasks::awaited(*p, tasks)
}

// What a task made and may have of either store: objects, reserve and limit of the small one, then of the large one. It asks nothing of the
// pool's rules, and the record stays.
#[unsafe(no_mangle)]
pub extern "C" fn ramsummer_share(
    p: &mut Pool,
    task: u8,
    made: &mut u8,
    reserve: &mut u8,
    limit: &mut u8,
    largemade: &mut u8,
    largereserve: &mut u8,
    largelimit: &mut u8,
) -> u8
    ensures { TellsShare p.old task
        (made.old ∷ reserve.old ∷ limit.old ∷ largemade.old ∷ largereserve.old
        ∷ largelimit.old ∷ []) result
        (made.new ∷ reserve.new ∷ limit.new ∷ largemade.new ∷ largereserve.new
        ∷ largelimit.new ∷ [])
        × (p.new ≡ p.old) }
{
    by_value_tasks::share(
        *p,
        task,
        made,
        reserve,
        limit,
        largemade,
        largereserve,
        largelimit,
    )
}

// One line without its LF; the line of its answer goes to the start of a buffer of at least 531 bytes, and how many to `count`.
#[unsafe(no_mangle)]
pub extern "C" fn ramsummer_frame(
    p: &mut Pool,
    small: &mut [u8],
    large: &mut [u8],
    line: &[u8],
    out: &mut [u8],
    count: &mut usize,
) -> u8
    ensures { Carries line.now p.old small.old large.old out.old
        count.old result p.new small.new large.new out.new count.new }
{
    by_value_frame::frame_into(*p, small, large, line, out, count, p)
}
