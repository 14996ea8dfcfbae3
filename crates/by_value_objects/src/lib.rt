// The calls on a record by value that concern the objects that stand: read, write, release, remaining life and report. Write and release
// change the record; the others lend its tables where they are.
#![tactic(auto)]

ghost use Rattle.std.specs.Prelude.{[], ◌∷◌};
ghost use Rattle.ledger.specs.declared.Call.TheVariants.{Release};
ghost use Rattle.ledger.specs.declared.Request.TheVariants.{Use, Report, Remaining};
ghost use Rattle.by_value.specs.Told.{buffered};
ghost use Rattle.by_value.specs.Entries.{Does, CopiesOut, WritesTo};

mod reading;

use by_value::taking::store_head;
use by_value::{Numbered, TOO_SHORT};
use calls;
use expirations::standing;
use fitness::is_well_formed;
use ledger::{Answer, Refusal};
use objects::usage;
pub use reading::read_part;
use record::Pool;
use stores::write_block;
use tested;

// The part that `read_part` hands back, copied out.
pub fn read(
    p: Pool,
    small: &[u8],
    large: &[u8],
    task: u8,
    handle: u32,
    out: &mut [u8],
    count: &mut usize,
) -> u8
    ensures { CopiesOut task handle p small.now large.now (buffered count.old out.old) result
        (buffered count.new out.new) }
{
    let mut number = 0;
    let part = read_part(p, small, large, task, handle, &mut number);
    if number != 0 {
        return number;
    }
    if out.len() < part.len() {
        return TOO_SHORT;
    }
    write_block(out, 0, part);
    *count = part.len();
    0
}

pub fn write_into(
    p: Pool,
    small: &mut [u8],
    large: &mut [u8],
    task: u8,
    handle: u32,
    offset: u8,
    bytes: &[u8],
    left: &mut Pool,
) -> u8
    ensures { WritesTo task handle offset bytes.now p small.old large.old result left.new
        small.new large.new }
{
    *left = p;
    let step = tested::write(
        left.head,
        &mut left.blocks,
        &left.expirations,
        small,
        large,
        task,
        handle,
        offset,
        bytes,
    );
    store_head(step, left)
}

// The same, given back.
pub fn write(
    p: Pool,
    small: &mut [u8],
    large: &mut [u8],
    task: u8,
    handle: u32,
    offset: u8,
    bytes: &[u8],
) -> Numbered
    ensures { WritesTo task handle offset bytes.now p small.old large.old result.number result.pool
        small.new large.new }
{
    let mut left = p;
    let number = write_into(p, small, large, task, handle, offset, bytes, &mut left);
    Numbered { number, pool: left }
}

pub fn release_into(p: Pool, task: u8, handle: u32, left: &mut Pool) -> u8
    ensures { Does (Use (Release task handle)) p [] result left.new [] }
{
    *left = p;
    let step = tested::release(
        left.head,
        &mut left.blocks,
        &mut left.expirations,
        task,
        handle,
    );
    store_head(step, left)
}

// The same, given back.
pub fn release(p: Pool, task: u8, handle: u32) -> Numbered
    ensures { Does (Use (Release task handle)) p [] result.number result.pool [] }
{
    let mut left = p;
    let number = release_into(p, task, handle, &mut left);
    Numbered { number, pool: left }
}

pub fn report(p: Pool, small: &mut u8, large: &mut u8, expirations: &mut u16, given: &mut u32) -> u8
    ensures { Does Report p
        (small.old ∷ large.old ∷ expirations.old ∷ given.old ∷ []) result p
        (small.new ∷ large.new ∷ expirations.new ∷ given.new ∷ []) }
{
    if !is_well_formed(p.head, &p.blocks, &p.expirations) {
        return u8::from(Refusal::NotWellFormed);
    }
    let count = standing(&p.expirations.clocks);
    let usage = usage(p.head.given, &p.blocks.handles, count);
    *small = usage.small;
    *large = usage.large;
    *expirations = usage.expirations;
    *given = usage.given;
    0
}

pub fn remaining(p: Pool, task: u8, handle: u32, local: &mut u8, global: &mut u8) -> u8
    ensures { Does (Remaining task handle) p (local.old ∷ global.old ∷ []) result p
        (local.new ∷ global.new ∷ []) }
{
    if !is_well_formed(p.head, &p.blocks, &p.expirations) {
        return u8::from(Refusal::NotWellFormed);
    }
    let answer = calls::remaining(p.head, &p.blocks, &p.expirations, task, handle);
    let Answer::Lasts(life) = answer else {
        return u8::from(answer);
    };
    *local = life.local;
    *global = life.global;
    0
}
