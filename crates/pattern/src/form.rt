// How a pattern stands in bytes: items one after another, each a leg or a repeat.
ghost use Rattle.std.specs.Prelude.{◌≡◌, ◌≤◌, ◌<◌, length};
ghost use Rattle.std.proofs.Math.Seq.{slice};
ghost use Rattle.pattern.specs.Read.{head_of};

use image::LEG_BYTES;

// A tag and a leg.
pub const LEG_ITEM_BYTES: usize = 1 + LEG_BYTES;

// What an item starts with: a leg, or a repeat with its count and the length of its inner bytes.
#[derive(Clone, Copy)]
pub enum Head {
    Leg,
    Repeat { times: usize, inner: usize },
}

// What stands at `at`, of a pattern that ends at `end`: none if it is no item. Of a repeat only its own four bytes are read.
pub(crate) fn head_at(b: &[u8], at: usize, end: usize) -> Option<Head>
    requires { (at < end) × (end ≤ length b.now) }
    ensures { result ≡ head_of (slice at end b.now) }
{
    let left = end - at;
    let tag = b[at];
    if tag == 0 {
        return if left < LEG_ITEM_BYTES {
            None
        } else {
            Some(Head::Leg)
        };
    }
    if tag != 1 || left < 4 {
        return None;
    }
    let times = usize::from(b[at + 1]);
    let inner = usize::from(u16::from_le_bytes([b[at + 2], b[at + 3]]));
    if times == 0 || times > 9 || left - 4 < inner {
        return None;
    }
    Some(Head::Repeat {
        times: times,
        inner: inner,
    })
}
