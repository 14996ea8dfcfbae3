// What code and specifications share: document 01's figures, its calls, their answers, and the refusals with their numbers.
#![tactic(auto)]

ghost use Rattle.std.specs.Prelude.{◌≡◌};
ghost use Rattle.ledger.specs.Limits.{is_allowed};
ghost use Rattle.ledger.specs.Numbers.{number_of, answer_number, kind_of};

pub mod plans;

// C1: the four figures that a site chooses for the life of a pool: blocks of the small store and of the large one, expirations (01: dates),
// largest extension.
#[repr(C)]
#[derive(Clone, Copy)]
pub struct Limits {
    pub small: u32,
    pub large: u32,
    pub expirations: u32,
    pub extension: u32,
}

// C3: the largest of each; the record's tables have room for as many.
pub const CAPACITY: Limits = Limits {
    small: 64,
    large: 32,
    expirations: 256,
    extension: 30,
};

// C4: 01's, which the programs have: the largest of each.
pub const STANDARD: Limits = CAPACITY;

// C3: figures that a site may choose.
#[tactic(auto, unfolding(crate::specs::Limits::is_allowed))]
pub fn is_allowed(limits: Limits) -> bool
    ensures { result ≡ is_allowed limits }
{
    ((1 <= limits.small) & (limits.small <= CAPACITY.small))
        & ((1 <= limits.large) & (limits.large <= CAPACITY.large))
        & ((1 <= limits.expirations) & (limits.expirations <= CAPACITY.expirations))
        & (limits.extension <= CAPACITY.extension)
}

// T1: how many tasks there are.
pub const TASK_COUNT: usize = 16;

// O5, O6: the bytes of a small and of a large block.
pub const SMALL_SIZE: u32 = 32;

pub const LARGE_SIZE: u32 = 256;

// R20: the most objects that one batch refreshes.
pub const LARGEST_BATCH: usize = 32;

// T2, V1: the state of a task. A viewer reads prefixes and changes nothing.
#[derive(Clone, Copy)]
pub enum State {
    Absent,
    Running,
    Waiting,
    Viewing,
}

// E2, E22: the kind of an expiration (01: date); Local is 01's own, Global its common, Pinned 02's kept.
#[derive(Clone, Copy)]
pub enum Kind {
    Local,
    Global,
    Pinned,
}

// F21: the kind that a byte names, or R19.
impl TryFrom<u8> for Kind {
    type Error = Refusal;

    ghost try_from_gives = { λ number kind. kind ≡ kind_of number };

    fn try_from(number: u8) -> Result<Kind, Refusal> {
        match number {
            0 => Ok(Kind::Local),
            1 => Ok(Kind::Global),
            2 => Ok(Kind::Pinned),
            _ => Err(Refusal::UnknownKind),
        }
    }
}

// Q1: of one store, how many blocks are held back for a task, and how many objects it may have there.
#[repr(C)]
#[derive(Clone, Copy)]
pub struct Quota {
    pub reserve: u8,
    pub limit: u8,
}

// Q1: what a task asks for when it joins, and has until it leaves.
#[repr(C)]
#[derive(Clone, Copy)]
pub struct Share {
    pub small: Quota,
    pub large: Quota,
}

// The five calls that change a task's state or clock and name nothing but the task. V1: View (02: 0E) joins as a viewer.
#[derive(Clone, Copy)]
pub enum Event {
    Leave,
    Block,
    Resume,
    Tick,
    View,
}

// The twelve calls that are compared with the unbounded heap. The bytes of a write and the handles of a batch stand beside it. V4: the
// prefix of a make is 02's head length.
#[derive(Clone, Copy)]
pub enum Call {
    Join {
        task: u8,
        share: Share,
    },
    Schedule {
        event: Event,
        task: u8,
    },
    Make {
        task: u8,
        kind: Kind,
        extension: u8,
        length: u16,
        prefix: u16,
    },
    Refresh {
        task: u8,
        kind: Kind,
        extension: u8,
        handle: u32,
    },
    Read {
        task: u8,
        handle: u32,
    },
    Write {
        task: u8,
        handle: u32,
        offset: u8,
    },
    Batch {
        task: u8,
        kind: Kind,
        extension: u8,
    },
    Release {
        task: u8,
        handle: u32,
    },
}

// All fourteen calls.
#[derive(Clone, Copy)]
pub enum Request {
    Use(Call),
    Report,
    Remaining { task: u8, handle: u32 },
}

// What report counts: standing objects of either store, expirations (01: dates), handles (01: numbers) given.
#[derive(Clone, Copy)]
pub struct Usage {
    pub small: u8,
    pub large: u8,
    pub expirations: u16,
    pub given: u32,
}

// K4: the room that a script needs: the most standing objects of either store and expirations after any of its calls.
#[derive(Clone, Copy)]
pub struct Peaks {
    pub small: u32,
    pub large: u32,
    pub expirations: u32,
}

// E15, E16: the remaining life of an object, in ticks of the task that asks and in advances of the global time.
#[derive(Clone, Copy)]
pub struct Life {
    pub local: u8,
    pub global: u8,
}

// R1 to R29, each with its number (R45): 16 to 19 are of a frame, 29 of a pool that is made, the others of a call.
#[derive(Clone, Copy)]
pub enum Refusal {
    NoSuchTask = 1,
    TaskPresent = 2,
    TaskAbsent = 3,
    TaskWaiting = 4,
    TaskRunning = 5,
    ExtensionTooLong = 6,
    LengthOutOfRange = 7,
    HandlesSpent = 8,
    NoFreeBlock = 9,
    NoFreeExpiration = 10,
    HandleNotGiven = 11,
    ObjectGone = 12,
    OutsideObject = 13,
    WrongStoreLength = 14,
    NotWellFormed = 15,
    NotHexadecimal = 16,
    UnknownOperation = 17,
    WrongFrameLength = 18,
    UnknownKind = 19,
    BatchOutOfRange = 20,
    OnlyMakePins = 21,
    NotPinned = 22,
    SumDiffers = 23,
    ReserveAboveLimit = 24,
    ReserveNotFree = 25,
    AtLimit = 26,
    OnlyViews = 27,
    PrefixTooLong = 28,
    LimitsOutOfRange = 29,
}

impl From<Refusal> for u8 {
    ghost from_gives = { λ refusal number. number ≡ number_of refusal };

    fn from(refusal: Refusal) -> u8 {
        refusal as u8
    }
}

// 01: an answer. The bytes of a read stand beside it. It has the seven cases that 01 numbers, and is made of a result once, by the call.
#[derive(Clone, Copy)]
pub enum Answer {
    Refused(Refusal),
    Done,
    Advanced(bool),
    Handle(u32),
    Bytes,
    Counted(Usage),
    Lasts(Life),
}

// The number of an answer: 0 where the call was carried out.
impl From<Answer> for u8 {
    ghost from_gives = { λ answer number. number ≡ answer_number answer };

    fn from(answer: Answer) -> u8 {
        match answer {
            Answer::Refused(why) => u8::from(why),
            _ => 0,
        }
    }
}

// What a line gives: a request with the count of the bytes that come with it, or why there is none. The bytes stand beside it.
pub type Frame = Result<(Request, usize), Refusal>;
