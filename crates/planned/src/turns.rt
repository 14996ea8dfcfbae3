// A turn and a step of a cable plan: the rules G5 to G8.
ghost use Rattle.std.specs.Prelude.{◌≤◌, ◌≡◌, length};
ghost use Rattle.lists.specs.Tests.{All};
ghost use Rattle.ledger.specs.Limits.{task_count};
ghost use Rattle.ledger.specs.Plans.{is_due, has_reply, is_over, turn_of, made_by, opened_by, closing};
ghost use Rattle.planned.specs.Bounds.{step_count, PollBounded, Bounded};
ghost use Rattle.planned.specs.Planned.{Takes, Steps};

use crate::site::Site;
use ledger::plans::{Channel, Poll, Track, Turn};
use ledger::{Answer, Call, Event, Kind, SMALL_SIZE};

fn is_due(c: Channel, step: u32) -> bool
    requires { 1 ≤ c.period }
    ensures { result ≡ is_due c step }
{
    step % (c.period as u32) == 0
}

fn has_reply(c: Channel, step: u32, begun: u32) -> bool
    requires { begun ≤ step_count }
    ensures { result ≡ has_reply c step begun }
{
    (step == begun + c.reply as u32) & (step < c.silent as u32)
}

fn is_over(c: Channel, step: u32, begun: u32) -> bool
    requires { begun ≤ step_count }
    ensures { result ≡ is_over c step begun }
{
    (c.wait != 0) & (step == begun + c.wait as u32)
}

// What a channel does in its turn, by its poll.
#[tactic(auto, unfolding(ledger::specs::Plans::turn_of))]
fn turn_of(c: Channel, step: u32, poll: Option<Poll>) -> Turn
    requires period { 1 ≤ c.period }
    requires poll { PollBounded step_count poll }
    ensures { result ≡ turn_of c step poll }
{
    match poll {
        None if is_due(c, step) => Turn::Begins,
        Some(poll) if has_reply(c, step, poll.begun) => Turn::Replied {
            handle: poll.handle,
        },
        Some(poll) if is_over(c, step, poll.begun) => Turn::Quits,
        _ => Turn::Rests,
    }
}

// What a channel makes: its object is a small block's, with a local expiration.
fn made_by(c: Channel, task: u8) -> Call
    ensures { result ≡ made_by c task }
{
    Call::Make {
        task,
        kind: Kind::Local,
        extension: c.extension,
        length: SMALL_SIZE as u16,
        prefix: 0,
    }
}

// The poll that the answer to a make opens.
fn opened_by(step: u32, answer: Answer) -> Option<Poll>
    ensures { result ≡ opened_by step answer }
{
    match answer {
        Answer::Handle(handle) => Some(Poll {
            begun: step,
            handle,
        }),
        _ => None,
    }
}

// The last call of a turn: with a poll open the channel blocks.
fn closing(poll: Option<Poll>) -> Event
    ensures { result ≡ closing poll }
{
    if poll.is_none() {
        Event::Tick
    } else {
        Event::Block
    }
}

// The turn of a task's channel: its calls, and what it has then.
fn take_turn(site: &mut Site, step: u32, task: u8, track: &mut Track)
    requires { Bounded step_count track.old }
    ensures { Takes step task track.old site.old track.new site.new }
{
    match turn_of(track.channel, step, track.poll) {
        Turn::Rests => {}
        Turn::Begins => {
            let answer = site.send(made_by(track.channel, task), &[]);
            track.poll = opened_by(step, answer);
            track.refusals += u32::from(track.poll.is_none());
            site.schedule(closing(track.poll), task);
        }
        Turn::Replied { handle } => {
            site.schedule(Event::Resume, task);
            site.send(
                Call::Write {
                    task,
                    handle,
                    offset: 0,
                },
                &[1],
            );
            site.schedule(Event::Tick, task);
            track.poll = None;
            track.replies += 1;
        }
        Turn::Quits => {
            site.schedule(Event::Resume, task);
            site.schedule(Event::Tick, task);
            track.poll = None;
            track.quits += 1;
        }
    }
}

// A turn of each channel, in the order of their tasks.
pub fn take_step(site: &mut Site, step: u32, tracks: &mut [Track])
    requires most { length tracks.old ≤ task_count }
    requires bounded { All (Bounded step_count) tracks.old }
    ensures { Steps step tracks.old site.old tracks.new site.new }
{
    for (task, track) in tracks.iter_mut().enumerate() {
        take_turn(site, step, task as u8, track);
    }
}
