// Any call by its request, on lent tables: 15 first, then 14 where the request touches a store, then the dispatch.
ghost use Rattle.std.specs.Prelude.{◌≡◌, eqb};
ghost use Rattle.calls.specs.Contract.{is_stored};
ghost use Rattle.record.specs.Tables.{pooled, Sized};
ghost use Rattle.calls.specs.Served.{Serves};
ghost use Rattle.dispatch.specs.Found.{given_back};
ghost use Rattle.tested.specs.Stored.{stored_as};

use calls::{Step, refused};
use dispatch;
use fitness::fitness_of;
use ledger::{Call, Refusal, Request};
use record::{BlockTable, ExpirationTable, Head};
use stores::are_whole;

// R35: the three calls that test 14.
fn is_make(c: Call) -> bool
    ensures { result ≡ eqb (stored_as c) 1 }
{
    let Call::Make {
        task: _,
        kind: _,
        extension: _,
        length: _,
        prefix: _,
    } = c
    else {
        return false;
    };
    true
}

fn is_read(c: Call) -> bool
    ensures { result ≡ eqb (stored_as c) 2 }
{
    let Call::Read { task: _, handle: _ } = c else {
        return false;
    };
    true
}

fn is_write(c: Call) -> bool
    ensures { result ≡ eqb (stored_as c) 3 }
{
    let Call::Write {
        task: _,
        handle: _,
        offset: _,
    } = c
    else {
        return false;
    };
    true
}

// One of them.
fn is_stored(request: Request) -> bool
    ensures { result ≡ is_stored request }
{
    let Request::Use(c) = request else {
        return false;
    };
    is_make(c) | is_read(c) | is_write(c)
}

// One call of the fourteen, by its request. The bytes are those of a write or a batch; other calls leave them aside.
pub fn call(
    h: Head,
    blocks: &mut BlockTable,
    expirations: &mut ExpirationTable,
    small: &mut [u8],
    large: &mut [u8],
    request: Request,
    bytes: &[u8],
) -> Step
    requires { Sized blocks.old expirations.old }
    ensures { Sized blocks.new expirations.new
        × Serves request bytes.now
        (pooled h blocks.old expirations.old)
        small.old large.old
        (given_back result blocks.new expirations.new)
        small.new large.new }
{
    let Some(holdings) = fitness_of(h, blocks, expirations) else {
        return refused(Refusal::NotWellFormed, h);
    };
    if !is_stored(request) {
        return dispatch::call(
            h,
            blocks,
            expirations,
            small,
            large,
            holdings,
            request,
            bytes,
        );
    }
    if !are_whole(h.limits, small.len(), large.len()) {
        return refused(Refusal::WrongStoreLength, h);
    }
    dispatch::call(
        h,
        blocks,
        expirations,
        small,
        large,
        holdings,
        request,
        bytes,
    )
}
