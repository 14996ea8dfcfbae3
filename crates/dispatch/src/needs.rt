// What a call asks of the tasks' holdings, counted: nothing is counted for a call that asks nothing.
ghost use Rattle.std.specs.Prelude.{true, ◌≡◌};
ghost use Rattle.record.specs.Tables.{block_list, BlocksSized};
ghost use Rattle.shares.specs.Holdings.{Holds, LengthsFit};
ghost use Rattle.dispatch.specs.Needs.{is_asked, HoldsFor};

use handles::used_of;
use ledger::{Call, Request, SMALL_SIZE, Share, TASK_COUNT};
use record::{BlockTable, Head};
use shares::{Holding, Holdings, holding_of};

// What stands for the holding of a store that is not asked for.
const NOTHING: Holding = Holding {
    made: [0; TASK_COUNT],
    spoken: 0,
};

// Whether a request asks for the holding of a store.
fn is_asked(request: Request, small: bool) -> bool
    ensures { result ≡ is_asked request small }
{
    match request {
        Request::Use(c) => match c {
            Call::Schedule { event: _, task: _ } => false,
            Call::Make {
                task: _,
                kind: _,
                extension: _,
                length,
                prefix: _,
            } => small == (length as u32 <= SMALL_SIZE),
            Call::Refresh {
                task: _,
                kind: _,
                extension: _,
                handle: _,
            } => false,
            Call::Read { task: _, handle: _ } => false,
            Call::Write {
                task: _,
                handle: _,
                offset: _,
            } => false,
            Call::Batch {
                task: _,
                kind: _,
                extension: _,
            } => false,
            Call::Release { task: _, handle: _ } => false,
            Call::Join { task: _, share: _ } => true,
        },
        Request::Report => false,
        Request::Remaining { task: _, handle: _ } => false,
    }
}

fn holding_if(asked: bool, shares: [Share; TASK_COUNT], blocks: &BlockTable, small: bool) -> Holding
    requires { BlocksSized blocks.now
        × LengthsFit (block_list blocks.now) }
    ensures { asked ≡ true → Holds small shares (block_list blocks.now) result }
{
    if !asked {
        return NOTHING;
    }
    let used = used_of(&blocks.handles);
    holding_of(shares, &used, &blocks.extents, small)
}

pub fn holdings_for(h: Head, blocks: &BlockTable, request: Request) -> Holdings
    requires { BlocksSized blocks.now
        × LengthsFit (block_list blocks.now) }
    ensures { HoldsFor request h.shares (block_list blocks.now) result }
{
    let shares = h.shares;
    let small = holding_if(is_asked(request, true), shares, blocks, true);
    let large = holding_if(is_asked(request, false), shares, blocks, false);
    Holdings { small, large }
}
