// How a call that changes a record by value leaves it: stored into one that is lent.
ghost use Rattle.std.specs.Prelude.{◌≡◌};
ghost use Rattle.ledger.specs.Numbers.{answer_number};
ghost use Rattle.record.specs.Tables.{pooled};

use calls::Step;
use record::Pool;

// A step on the tables of a lent record leaves its head there; the number of its answer.
pub fn store_head(step: Step, left: &mut Pool) -> u8
    ensures { (result ≡ answer_number step.answer)
        × (left.new ≡ pooled step.head left.old.blocks left.old.expirations) }
{
    left.head = step.head;
    u8::from(step.answer)
}

// The same of a step on the tables of a record by value, whatever the lent one held.
pub fn store(p: Pool, step: Step, left: &mut Pool) -> u8
    ensures { (result ≡ answer_number step.answer)
        × (left.new ≡ pooled step.head p.blocks p.expirations) }
{
    *left = p;
    store_head(step, left)
}
