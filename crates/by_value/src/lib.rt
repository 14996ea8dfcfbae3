// The calls on a record by value (P7), each with its answer by the number: what the entries call. Each tests first whether the record is
// well-formed (15), then the stores (14) where it touches one. One that changes the record stores it into one
// that is lent, and tests and changes that (`.._into`); beside it stands the same call, which gives the record back.
// What an answer tells goes to numbers that the host lends. Here is what all of them share, and those whose kind is given by its code
// (19): make, refresh and batch.
#![tactic(auto)]

ghost use Rattle.std.specs.Prelude.{[], ◌∷◌, ◌≡◌};
ghost use Rattle.ledger.specs.Numbers.{number_of, kind_of};
ghost use Rattle.by_value.specs.Entries.{MakesBy, RefreshesBy, RefreshesAllBy};

mod kinds;
pub mod taking;

use kinds::{
    make_one, make_one_into, refresh_each, refresh_each_into, refresh_one, refresh_one_into,
};
use ledger::{Kind, Refusal};
use record::Pool;

// A buffer too short: a number that is none of 01's.
pub const TOO_SHORT: u8 = 255;

// The number of an answer, and the record that the call leaves: that stands first, at the boundary of a word, and is copied as such.
#[derive(Clone, Copy)]
pub struct Numbered {
    pub pool: Pool,
    pub number: u8,
}

// A call that is refused leaves the record.
fn refused_into(why: Refusal, p: Pool, left: &mut Pool) -> u8
    ensures { (result ≡ number_of why)
        × (left.new ≡ p) }
{
    *left = p;
    u8::from(why)
}

// The same, given back.
fn refused(why: Refusal, p: Pool) -> Numbered
    ensures { (result.number ≡ number_of why)
        × (result.pool ≡ p) }
{
    Numbered {
        number: u8::from(why),
        pool: p,
    }
}

pub fn make_into(
    p: Pool,
    small: &mut [u8],
    large: &mut [u8],
    task: u8,
    kind: u8,
    extension: u8,
    size: u16,
    prefix: u16,
    handle: &mut u32,
    left: &mut Pool,
) -> u8
    ensures { MakesBy (kind_of kind) task extension size prefix p small.old large.old (handle.old ∷ [])
        result left.new small.new large.new (handle.new ∷ []) }
{
    let Ok(known) = Kind::try_from(kind) else {
        return refused_into(Refusal::UnknownKind, p, left);
    };
    make_one_into(
        p, small, large, task, known, extension, size, prefix, handle, left,
    )
}

// The same, given back.
pub fn make(
    p: Pool,
    small: &mut [u8],
    large: &mut [u8],
    task: u8,
    kind: u8,
    extension: u8,
    size: u16,
    prefix: u16,
    handle: &mut u32,
) -> Numbered
    ensures { MakesBy (kind_of kind) task extension size prefix p small.old large.old (handle.old ∷ [])
        result.number result.pool small.new large.new (handle.new ∷ []) }
{
    let Ok(known) = Kind::try_from(kind) else {
        return refused(Refusal::UnknownKind, p);
    };
    make_one(
        p, small, large, task, known, extension, size, prefix, handle,
    )
}

pub fn refresh_into(p: Pool, task: u8, kind: u8, extension: u8, handle: u32, left: &mut Pool) -> u8
    ensures { RefreshesBy (kind_of kind) task extension handle p result left.new }
{
    let Ok(known) = Kind::try_from(kind) else {
        return refused_into(Refusal::UnknownKind, p, left);
    };
    refresh_one_into(p, task, known, extension, handle, left)
}

// The same, given back.
pub fn refresh(p: Pool, task: u8, kind: u8, extension: u8, handle: u32) -> Numbered
    ensures { RefreshesBy (kind_of kind) task extension handle p result.number result.pool }
{
    let Ok(known) = Kind::try_from(kind) else {
        return refused(Refusal::UnknownKind, p);
    };
    refresh_one(p, task, known, extension, handle)
}

pub fn refresh_all_into(
    p: Pool,
    task: u8,
    kind: u8,
    extension: u8,
    objects: &[u32],
    left: &mut Pool,
) -> u8
    ensures { RefreshesAllBy (kind_of kind) task extension objects.now p result left.new }
{
    let Ok(known) = Kind::try_from(kind) else {
        return refused_into(Refusal::UnknownKind, p, left);
    };
    refresh_each_into(p, task, known, extension, objects, left)
}

// The same, given back.
pub fn refresh_all(p: Pool, task: u8, kind: u8, extension: u8, objects: &[u32]) -> Numbered
    ensures { RefreshesAllBy (kind_of kind) task extension objects.now p result.number result.pool }
{
    let Ok(known) = Kind::try_from(kind) else {
        return refused(Refusal::UnknownKind, p);
    };
    refresh_each(p, task, known, extension, objects)
}
