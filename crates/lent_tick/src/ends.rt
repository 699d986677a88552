// The two ends of a tick on bytes. Between them its reference is taken, and then `joint_tick::guide_pick_follow` flies toward it. A plain tick and a route
// tick differ by where the reference comes from, and by nothing else.
ghost use Rattle.std.specs.Prelude.{◌≡◌, length};
ghost use Rattle.words.specs.Inner.{Plain};
ghost use Rattle.joint_tick.specs.Tick.{prepare};
ghost use Rattle.image.specs.Layout.{image_bytes, answer_bytes};
ghost use Rattle.image.specs.Image.{fixed_at, moving_at};
ghost use Rattle.image.specs.Inner.{OwnWords, Unmoved};
ghost use Rattle.lent_tick.specs.Inner.{left_moving, Leaves};

use image::{moving_at, put_answer, put_next_state};
use joint_tick::{Moving, Prepared, Profile, TickInput, Ticked};
use relay_adrc::GyroLpf;
use relay_traj::RefGovernor;
use words::Words;

// What moves, read and prepared. What was read is gone from the stack then.
pub fn read_and_prepare(image: &Words, profile: Profile, given: TickInput) -> Prepared
    requires { length image.now.bytes.now ≡ image_bytes }
    ensures { result ≡ prepare profile (moving_at image.now.bytes.now) given }
{
    joint_tick::prepare(profile, moving_at(image), given)
}

// What a tick leaves, over an image that is unbroken.
pub fn put_state_and_answer(
    image: &mut [u8],
    answer: &mut [u8],
    plain: bool,
    governor: RefGovernor,
    lpf: GyroLpf,
    done: Ticked,
)
    requires fact_1 { (length image.old ≡ image_bytes) × (length answer.old ≡ answer_bytes) }
    requires fact_2 { Plain plain image.old }
    requires fact_3 { OwnWords image.old × Unmoved (left_moving governor lpf done) (moving_at image.old) }
    ensures { Leaves (fixed_at image.old) governor lpf done image.new answer.new }
{
    let moving = Moving {
        engaged: done.engaged,
        governor,
        rate: done.rate,
        lpf,
    };
    put_next_state(image, plain, moving);
    put_answer(answer, done.answer);
}
