// relay_pos.
ghost use Rattle.std.specs.Prelude.{◌≡◌};
ghost use Rattle.relay_pos.specs.Euler.{euler_to_quaternion};

use relay_pos::Quaternion;

#[unsafe(no_mangle)]
pub extern "C" fn probe_euler_to_quaternion(roll: f32, pitch: f32, yaw: f32) -> Quaternion
    ensures { result ≡ euler_to_quaternion roll pitch yaw }
{
    relay_pos::euler_to_quaternion(roll, pitch, yaw)
}
