// Document 01's table: a blank image is refused by a tick, then a fresh shield with enter 0.5 and exit 1 steps by nine margins.
// Line one is the refusal's number; each later line is the step, the margin's bits and the flag (1 fallback).
#![tactic(auto)]

use relay_geo::{RecoverableSet, SimplexShield};
use relay_math::{BodyRate, Vec3};
use std::io;

// The bits of the nine margins.
const MARGINS: [u32; 9] = [
    0x3f80_0000,
    0x3fc0_0000,
    0x3f40_0000,
    0x3f00_0000,
    0x3e80_0000,
    0x3f40_0000,
    0x3fc0_0000,
    0x7fc0_0000,
    0x7f80_0000,
];

fn refusal(rt: &impl Print) -> io::Result<()> {
    let mut image = [0u8; image::IMAGE_BYTES]; // 396 zero bytes
    let input = [0u8; image::INPUT_BYTES];
    let mut answer = [0u8; image::ANSWER_BYTES];
    let ended = calls::tick(&mut image, &input, &mut answer);
    println!(rt; "{}", outcome::number(ended))
}

fn main(rt: HostRuntime) -> io::Result<()> {
    refusal(&rt)?;
    let rest = BodyRate(Vec3(0.0, 0.0, 0.0));
    let mut shield = SimplexShield::new(RecoverableSet::new(1.0, 1.0, 1.75), 0.5, 1.0);
    for (step, bits) in (1..).zip(MARGINS) {
        let stepped = shield.step(words::float_of(bits), rest, rest);
        println!(rt; "{step} {bits:08x} {}", u32::from(stepped.fallback))?;
        shield = stepped.shield;
    }
    Ok(())
}
