// The part of a store that a read hands back. The record stays, and so its tables are lent where they are.
ghost use Rattle.calls.specs.Contract.{Locates, ReadsTo};

use fitness::is_well_formed;
use ledger::Refusal;
use objects::{Part, find_for_read};
use record::Pool;
use stores::{are_whole, block_part, no_part};

// Where a read finds its object.
fn locate(p: Pool, small: &[u8], large: &[u8], task: u8, handle: u32) -> Result<Part, Refusal>
    ensures { Locates task handle p small.now large.now result }
{
    if !is_well_formed(p.head, &p.blocks, &p.expirations) {
        return Err(Refusal::NotWellFormed);
    }
    if !are_whole(p.head.limits, small.len(), large.len()) {
        return Err(Refusal::WrongStoreLength);
    }
    find_for_read(
        p.head,
        &p.blocks,
        &p.expirations,
        small,
        large,
        task,
        handle,
    )
}

// O19: hands back the object's part of its store. The answer's number goes to `number`; where it is a refusal, the part is empty.
pub fn read_part<'a>(
    p: Pool,
    small: &'a [u8],
    large: &'a [u8],
    task: u8,
    handle: u32,
    number: &mut u8,
) -> &'a [u8]
    ensures { ReadsTo task handle p small.now large.now number.new result.now }
{
    match locate(p, small, large, task, handle) {
        Err(why) => {
            *number = u8::from(why);
            no_part(small)
        }
        Ok(part) => {
            *number = 0;
            block_part(small, large, part.block, part.length as usize)
        }
    }
}
