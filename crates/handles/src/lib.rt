// Whether two blocks in use have one handle.
#![tactic(auto)]

ghost use Rattle.std.specs.Prelude.{true, not, ◌≡◌};
ghost use Rattle.lists.specs.Tests.{all, count};
ghost use Rattle.record.specs.WellFormed.{is_distinct};
ghost use Rattle.handles.specs.Handles.{UsedFlags, Counted, is_few};

mod parting;

use parting::parted;
use record::BLOCK_COUNT;

// The remainders by which handles are told apart first.
const REMAINDERS: usize = 256;

// Which blocks are in use.
pub fn used_of(handles: &[u32; BLOCK_COUNT]) -> [bool; BLOCK_COUNT]
    ensures { UsedFlags handles.now result }
{
    let mut out = [false; BLOCK_COUNT];
    for (i, handle) in handles.iter().enumerate() {
        out[i] = *handle != 0;
    }
    out
}

fn free_count(used: &[bool; BLOCK_COUNT]) -> u8
    ensures { result ≡ count not used.now }
{
    let mut out = 0;
    for used in used {
        out += u8::from(!*used);
    }
    out
}

// How many blocks in use have a handle of each remainder. All are counted, and the free ones, whose handle is 0, are taken off at the end:
// so no turn looks whether its block is in use.
fn counts(handles: &[u32; BLOCK_COUNT], used: &[bool; BLOCK_COUNT]) -> [u8; REMAINDERS]
    requires { UsedFlags handles.now used.now }
    ensures { Counted handles.now result }
{
    let mut out = [0; REMAINDERS];
    for handle in handles {
        out[(*handle % 256) as usize] += 1;
    }
    out[0] -= free_count(used);
    out
}

fn all_few(counts: [u8; REMAINDERS]) -> bool
    ensures { result ≡ all is_few counts }
{
    counts.iter().fold(true, |few, count| few & (*count < 2))
}

// Handles given one after another have remainders of their own. The counts end here: what parts the handles takes their stack.
fn few_each(handles: &[u32; BLOCK_COUNT], used: &[bool; BLOCK_COUNT]) -> bool
    requires { UsedFlags handles.now used.now }
    ensures { result ≡ true → is_distinct handles.now ≡ true }
{
    all_few(counts(handles, used))
}

// Other handles are told apart in full.
pub fn distinct(handles: &[u32; BLOCK_COUNT], used: &[bool; BLOCK_COUNT]) -> bool
    requires { UsedFlags handles.now used.now }
    ensures { result ≡ is_distinct handles.now }
{
    if few_each(handles, used) {
        return true;
    }
    parted(handles, used)
}
