// Make, refresh and batch of a known kind, each on the record that it leaves.
ghost use Rattle.std.specs.Prelude.{[], ◌∷◌, ◌≡◌};
ghost use Rattle.ledger.specs.declared.Call.TheVariants.{Refresh, Batch};
ghost use Rattle.ledger.specs.declared.Request.TheVariants.{Use};
ghost use Rattle.text.specs.HandleBytes.{handle_bytes};
ghost use Rattle.by_value.specs.Told.{handle_or};
ghost use Rattle.by_value.specs.Entries.{Does, DoesWith, MakesOne};

use super::Numbered;
use super::taking::store_head;
use ledger::{Answer, Kind};
use record::Pool;
use tested;
use text::batches::handle_bytes;

// The handle, where an answer gives one; else the number that was lent.
fn handle_or(old: u32, answer: Answer) -> u32
    ensures { result ≡ handle_or old answer }
{
    match answer {
        Answer::Handle(handle) => handle,
        Answer::Refused(_) => old,
        Answer::Done => old,
        Answer::Advanced(_) => old,
        Answer::Bytes => old,
        Answer::Counted(_) => old,
        Answer::Lasts(_) => old,
    }
}

pub fn make_one_into(
    p: Pool,
    small: &mut [u8],
    large: &mut [u8],
    task: u8,
    kind: Kind,
    extension: u8,
    size: u16,
    prefix: u16,
    handle: &mut u32,
    left: &mut Pool,
) -> u8
    ensures { MakesOne task kind extension size prefix p small.old large.old (handle.old ∷ [])
        result left.new small.new large.new (handle.new ∷ []) }
{
    *left = p;
    let step = tested::make(
        left.head,
        &mut left.blocks,
        &mut left.expirations,
        small,
        large,
        task,
        kind,
        extension,
        size,
        prefix,
    );
    let answer = step.answer;
    *handle = handle_or(*handle, answer);
    store_head(step, left)
}

// The same, given back.
pub fn make_one(
    p: Pool,
    small: &mut [u8],
    large: &mut [u8],
    task: u8,
    kind: Kind,
    extension: u8,
    size: u16,
    prefix: u16,
    handle: &mut u32,
) -> Numbered
    ensures { MakesOne task kind extension size prefix p small.old large.old (handle.old ∷ [])
        result.number result.pool small.new large.new (handle.new ∷ []) }
{
    let mut left = p;
    let number = make_one_into(
        p, small, large, task, kind, extension, size, prefix, handle, &mut left,
    );
    Numbered { number, pool: left }
}

pub fn refresh_one_into(
    p: Pool,
    task: u8,
    kind: Kind,
    extension: u8,
    handle: u32,
    left: &mut Pool,
) -> u8
    ensures { Does (Use (Refresh task kind extension handle)) p [] result left.new [] }
{
    *left = p;
    let step = tested::refresh(
        left.head,
        &left.blocks,
        &mut left.expirations,
        task,
        kind,
        extension,
        handle,
    );
    store_head(step, left)
}

// The same, given back.
pub fn refresh_one(p: Pool, task: u8, kind: Kind, extension: u8, handle: u32) -> Numbered
    ensures { Does (Use (Refresh task kind extension handle)) p [] result.number result.pool [] }
{
    let mut left = p;
    let number = refresh_one_into(p, task, kind, extension, handle, &mut left);
    Numbered { number, pool: left }
}

// The host's handles go on as bytes, which is what a batch brings.
pub fn refresh_each_into(
    p: Pool,
    task: u8,
    kind: Kind,
    extension: u8,
    objects: &[u32],
    left: &mut Pool,
) -> u8
    ensures { DoesWith (Use (Batch task kind extension)) (handle_bytes objects.now) p [] result left.new [] }
{
    *left = p;
    let handed = handle_bytes(objects);
    let bytes = handed.bytes;
    let count = handed.count;
    let step = tested::batch(
        left.head,
        &left.blocks,
        &mut left.expirations,
        task,
        kind,
        extension,
        &bytes[..count],
    );
    store_head(step, left)
}

// The same, given back.
pub fn refresh_each(p: Pool, task: u8, kind: Kind, extension: u8, objects: &[u32]) -> Numbered
    ensures { DoesWith (Use (Batch task kind extension)) (handle_bytes objects.now) p [] result.number result.pool [] }
{
    let mut left = p;
    let number = refresh_each_into(p, task, kind, extension, objects, &mut left);
    Numbered { number, pool: left }
}
