// The codes of expirations: those that there are, and the flags of the blocks that they name. Nothing is left before the end, so that many
// are tested at once.
ghost use Rattle.std.specs.Prelude.{◌≡◌, ◌<◌, true, ◌&&◌, fold, zip};
ghost use Rattle.record.specs.Tables.{expiration_entries};
ghost use Rattle.fitness.specs.Checks.{is_coded_by, Codes, CodeAt, slot_by, Slots, Marks, Flags};

use record::codes::{FREE, LOCAL, PINNED};
use record::{BLOCK_COUNT, BYTE_VALUES, EXPIRATION_COUNT};

// The flag that an entry sets that names no block.
const NO_BLOCK: u8 = 255;

// A free entry, or one that has a code that there is and names a block that there is.
fn is_coded(clock: u8, block: u8) -> bool
    ensures { result ≡ is_coded_by clock block }
{
    (clock == FREE) | ((LOCAL <= clock) & (clock <= PINNED) & ((block as usize) < BLOCK_COUNT))
}

pub fn all_coded(clocks: &[u8; EXPIRATION_COUNT], named: &[u8; EXPIRATION_COUNT]) -> bool
    ensures { result ≡ fold (λ fit codes. fit && is_coded_by codes.0 codes.1) true (zip clocks.now named.now) }
{
    clocks
        .iter()
        .zip(named)
        .fold(true, |fit, (clock, block)| fit & is_coded(*clock, *block))
}

// The code of an expiration, which there is.
pub fn code_at(clocks: &[u8; EXPIRATION_COUNT], i: usize) -> usize
    requires { Codes clocks.now
        × (i < expiration_entries) }
    ensures { CodeAt clocks.now i result }
{
    clocks[i] as usize
}

fn slot_for(clock: u8, block: u8) -> u8
    ensures { result ≡ slot_by clock block }
{
    if clock == FREE { NO_BLOCK } else { block }
}

fn slots(clocks: &[u8; EXPIRATION_COUNT], named: &[u8; EXPIRATION_COUNT]) -> [u8; EXPIRATION_COUNT]
    ensures { Slots clocks.now named.now result }
{
    let mut out = [0; EXPIRATION_COUNT];
    for (i, slot) in out.iter_mut().enumerate() {
        *slot = slot_for(clocks[i], named[i]);
    }
    out
}

// Which bytes there are.
fn marks(bytes: &[u8; EXPIRATION_COUNT]) -> [bool; BYTE_VALUES]
    ensures { Marks bytes.now result }
{
    let mut out = [false; BYTE_VALUES];
    for eight in bytes.chunks_exact(8) {
        for byte in eight {
            out[*byte as usize] = true;
        }
    }
    out
}

// Which blocks there are among the entries. The bytes end here: what comes later takes their stack.
pub fn flags_of(
    clocks: &[u8; EXPIRATION_COUNT],
    named: &[u8; EXPIRATION_COUNT],
) -> [bool; BYTE_VALUES]
    ensures { Flags clocks.now named.now result }
{
    let slots = slots(clocks, named);
    marks(&slots)
}
