// A pool of 01's figures with its stores, which a plan's calls go to.
ghost use Rattle.std.specs.Prelude.{true, ◌≡◌};
ghost use Rattle.ledger.specs.Limits.{standard};
ghost use Rattle.ledger.specs.Ledger.{fresh};
ghost use Rattle.record.specs.Pools.{is_well_formed};
ghost use Rattle.record.specs.Tables.{Sized};

use dispatch::needs::holdings_for;
use ledger::{Answer, Call, Event, Request, STANDARD};
use record::{Pool, fresh};
use stores::{LARGE_BYTES, SMALL_BYTES};

// The record is well-formed, and its figures are 01's: then the stores are as long as its blocks need.
#[derive(Drop)]
pub struct Site {
    pool: Pool,
    small: [u8; SMALL_BYTES],
    large: [u8; LARGE_BYTES],
    pub ghost sized: { Sized pool.blocks pool.expirations },
    pub ghost fit: { is_well_formed pool ≡ true },
    pub ghost figures: { pool.head.limits ≡ standard },
}

impl Site {
    ghost use Rattle.planned.specs.Planned.{ReadsAs, Sends};
    ghost use Rattle.ledger.specs.declared.Call.TheVariants.{Schedule};
    ghost use Rattle.std.specs.Prelude.{[]};

    pub fn fresh() -> Site
        ensures { ReadsAs result (fresh standard) }
    {
        Site {
            pool: fresh(STANDARD),
            small: [0; SMALL_BYTES],
            large: [0; LARGE_BYTES],
        }
    }

    // One call; the bytes are those of a write.
    pub fn send(&mut self, call: Call, bytes: &[u8]) -> Answer
        ensures { Sends call bytes.now self.old result self.new }
    {
        let request = Request::Use(call);
        let holdings = holdings_for(self.pool.head, &self.pool.blocks, request);
        let step = dispatch::call(
            self.pool.head,
            &mut self.pool.blocks,
            &mut self.pool.expirations,
            &mut self.small,
            &mut self.large,
            holdings,
            request,
            bytes,
        );
        self.pool.head = step.head;
        step.answer
    }

    pub fn schedule(&mut self, event: Event, task: u8) -> Answer
        ensures { Sends (Schedule event task) [] self.old result self.new }
    {
        self.send(Call::Schedule { event, task }, &[])
    }
}
