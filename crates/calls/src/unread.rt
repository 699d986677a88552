// Whether an image of which nothing was read yet is unbroken. A function of its own, so that what it reads is gone from the stack once it is judged.
ghost use Rattle.std.specs.Prelude.{◌≡◌, length};
ghost use Rattle.image.specs.Layout.{image_bytes};
ghost use Rattle.lent_tick.specs.Unbroken.{unbroken};

use image::fixed_at;
use lent_tick::unbroken;
use words::Words;

pub(crate) fn unread_unbroken(image: &[u8]) -> bool
    requires { length image.now ≡ image_bytes }
    ensures { result ≡ unbroken image.now }
{
    let fixed = fixed_at(&Words::new(image));
    unbroken(image, fixed.segment, fixed.enter, fixed.exit)
}
