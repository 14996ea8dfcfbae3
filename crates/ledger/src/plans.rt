// What model, parser and program of a cable plan share (order 13 of document 02).

// G1: a channel (02: a line `p r s w e`). It polls every `period` steps; the reply comes after `reply` steps, where that step is before
// `silent`; it gives up after `wait` steps, 0 for never; its objects have this extension.
#[derive(Clone, Copy, Default)]
pub struct Channel {
    pub period: u16,
    pub reply: u16,
    pub silent: u16,
    pub wait: u16,
    pub extension: u8,
}

// G4: a poll that is open: the step that it began in, and its object.
#[derive(Clone, Copy)]
pub struct Poll {
    pub begun: u32,
    pub handle: u32,
}

// G4: a channel under way: the poll that is open, if one is, and what it has counted. `quits` are 02's give-ups, `refusals` the makes that
// were refused.
#[derive(Clone, Copy, Default)]
pub struct Track {
    pub channel: Channel,
    pub poll: Option<Poll>,
    pub replies: u32,
    pub quits: u32,
    pub refusals: u32,
}

// G5: what a channel does in its turn: one of these.
#[derive(Clone, Copy)]
pub enum Turn {
    Rests,
    Begins,
    Replied { handle: u32 },
    Quits,
}
