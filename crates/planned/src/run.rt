// A cable plan run from a fresh pool of 01's figures: all join, then step by step (the rules G3, G9 and G15).
ghost use Rattle.std.specs.Prelude.{true, ◌≡◌};
ghost use Rattle.ledger.specs.Limits.{standard};
ghost use Rattle.ledger.specs.Plans.{ready};
ghost use Rattle.ledger.specs.Plans.{run as planRun};
ghost use Rattle.plan_text.specs.Texts.{is_plan};
ghost use Rattle.planned.specs.Bounds.{step_count};

use crate::site::Site;
use crate::turns::take_step;
use arrayvec::ArrayVec;
use ledger::plans::{Channel, Track};
use ledger::{Call, Quota, Share, TASK_COUNT};

// G15: how many steps are taken.
const STEP_COUNT: u32 = 10000;

// G3: what each channel joins with.
const PLAN_SHARE: Share = Share {
    small: Quota {
        reserve: 0,
        limit: 64,
    },
    large: Quota {
        reserve: 0,
        limit: 32,
    },
};

// A channel before step 0.
fn ready(channel: Channel) -> Track
    ensures { result ≡ ready channel }
{
    Track {
        channel,
        poll: None,
        replies: 0,
        quits: 0,
        refusals: 0,
    }
}

// What the channels of a plan have after the last step.
pub fn run(plan: &[Channel]) -> ArrayVec<Track, TASK_COUNT>
    requires { is_plan plan.now ≡ true }
    ensures { result.items ≡ (planRun standard plan.now step_count).tracks }
{
    let mut site = Site::fresh();
    let mut tracks = ArrayVec::new();
    for (task, channel) in plan.iter().enumerate() {
        site.send(
            Call::Join {
                task: task as u8,
                share: PLAN_SHARE,
            },
            &[],
        );
        tracks.push(ready(*channel));
    }
    for step in 0..STEP_COUNT {
        take_step(&mut site, step, tracks.as_mut_slice());
    }
    tracks
}
