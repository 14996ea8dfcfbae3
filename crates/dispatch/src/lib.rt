// The one dispatch: a call of the fourteen by its request, on a head by value and lent tables and stores.
#![tactic(auto)]

ghost use Rattle.std.specs.Prelude.{◌≡◌};
ghost use Rattle.ledger.specs.declared.Request.TheVariants.{Use};
ghost use Rattle.record.specs.Tables.{pooled, Sized, block_list};
ghost use Rattle.calls.specs.Contract.{Ready};
ghost use Rattle.calls.specs.Served.{Serves};
ghost use Rattle.dispatch.specs.Found.{where_found, given_back};
ghost use Rattle.dispatch.specs.Needs.{holding_for, HoldsFor};

pub mod needs;

use calls::{
    Step, answered, batch, join, make, refresh, refused, release, remaining, schedule, write,
};
use expirations::standing;
use ledger::{Answer, Call, Refusal, Request, SMALL_SIZE};
use objects::{Part, find_for_read, usage};
use record::{BlockTable, ExpirationTable, Head};
use shares::{Holding, Holdings, of_store};

// What a read gives back.
fn where_found(found: Result<Part, Refusal>, h: Head) -> Step
    ensures { result ≡ where_found found h }
{
    match found {
        Err(why) => refused(why, h),
        Ok(part) => Step {
            head: h,
            answer: Answer::Bytes,
            block: part.block,
            length: part.length,
        },
    }
}

// Of the store to which a size goes.
fn holding_for(holdings: Holdings, size: u16) -> Holding
    ensures { result ≡ holding_for holdings size }
{
    of_store(size as u32 <= SMALL_SIZE, holdings.small, holdings.large)
}

fn serve(
    h: Head,
    blocks: &mut BlockTable,
    expirations: &mut ExpirationTable,
    small: &mut [u8],
    large: &mut [u8],
    holdings: Holdings,
    call: Call,
    bytes: &[u8],
) -> Step
    requires { Sized blocks.old expirations.old
        × Ready (Use call) (pooled h blocks.old expirations.old) small.old large.old
        × HoldsFor (Use call) h.shares (block_list blocks.old) holdings }
    ensures { Sized blocks.new expirations.new
        × Serves (Use call) bytes.now
        (pooled h blocks.old expirations.old)
        small.old large.old
        (given_back result blocks.new expirations.new)
        small.new large.new }
{
    match call {
        Call::Schedule { event, task } => schedule(h, blocks, expirations, event, task),
        Call::Make {
            task,
            kind,
            extension,
            length,
            prefix,
        } => {
            let holding = holding_for(holdings, length);
            make(
                h,
                blocks,
                expirations,
                small,
                large,
                holding,
                task,
                kind,
                extension,
                length,
                prefix,
            )
        }
        Call::Refresh {
            task,
            kind,
            extension,
            handle,
        } => refresh(h, blocks, expirations, task, kind, extension, handle),
        Call::Read { task, handle } => where_found(
            find_for_read(h, blocks, expirations, small, large, task, handle),
            h,
        ),
        Call::Write {
            task,
            handle,
            offset,
        } => answered(
            write(
                h,
                blocks,
                expirations,
                small,
                large,
                task,
                handle,
                offset,
                bytes,
            ),
            h,
        ),
        Call::Batch {
            task,
            kind,
            extension,
        } => batch(h, blocks, expirations, task, kind, extension, bytes),
        Call::Release { task, handle } => release(h, blocks, expirations, task, handle),
        Call::Join { task, share } => join(h, holdings, task, share),
    }
}

// One call of the fourteen, by its request. The bytes are those of a write or a batch; other calls leave them aside.
pub fn call(
    h: Head,
    blocks: &mut BlockTable,
    expirations: &mut ExpirationTable,
    small: &mut [u8],
    large: &mut [u8],
    holdings: Holdings,
    request: Request,
    bytes: &[u8],
) -> Step
    requires { Sized blocks.old expirations.old
        × Ready request (pooled h blocks.old expirations.old) small.old large.old
        × HoldsFor request h.shares (block_list blocks.old) holdings }
    ensures { Sized blocks.new expirations.new
        × Serves request bytes.now
        (pooled h blocks.old expirations.old)
        small.old large.old
        (given_back result blocks.new expirations.new)
        small.new large.new }
{
    match request {
        Request::Use(c) => serve(h, blocks, expirations, small, large, holdings, c, bytes),
        Request::Report => answered(
            Answer::Counted(usage(h.given, &blocks.handles, standing(&expirations.clocks))),
            h,
        ),
        Request::Remaining { task, handle } => answered(
            remaining(h, blocks, expirations, task, handle),
            h,
        ),
    }
}
