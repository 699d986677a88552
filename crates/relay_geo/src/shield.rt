// The simplex shield: the planner's command flies only while the margin is safely inside the recoverable set, else the fallback does.
ghost use Rattle.std.specs.Prelude.{◌≡◌, cond};
ghost use Rattle.relay_geo.specs.Shield.{mend_enter, mend_exit, mend_thresholds, new_shield, picked, step, filter};

use crate::set::RecoverableSet;
use crate::vectors::sanitise3;
use latch::latch;
use relay_math::{BodyRate, above_or};

// Below `enter` the fallback takes over, above `exit` it hands back.
#[repr(C)]
#[derive(Clone, Copy)]
pub struct Thresholds {
    pub enter: f32,
    pub exit: f32,
}

#[repr(C)]
#[derive(Clone, Copy)]
pub struct SimplexShield {
    pub set: RecoverableSet,
    pub engaged: bool,
    pub enter: f32,
    pub exit: f32,
}

// The shield after a step, the command that it passes on, and whether that is the fallback.
#[repr(C)]
#[derive(Clone, Copy)]
pub struct Shielded {
    pub shield: SimplexShield,
    pub command: BodyRate,
    pub fallback: bool,
}

fn mend_enter(enter: f32) -> f32
    ensures { result ≡ mend_enter enter }
{
    above_or(0.0, enter, 0.1)
}

fn mend_exit(enter: f32, exit: f32) -> f32
    ensures { result ≡ mend_exit enter exit }
{
    above_or(enter, exit, enter * 2.0)
}

// Thresholds in a safe order, whatever is given.
pub fn mend(enter: f32, exit: f32) -> Thresholds
    ensures { result ≡ mend_thresholds enter exit }
{
    let enter = mend_enter(enter);
    Thresholds {
        enter: enter,
        exit: mend_exit(enter, exit),
    }
}

// The fallback while engaged, else the planner's command.
fn chosen(engaged: bool, agile: BodyRate, fallback: BodyRate) -> BodyRate
    ensures { result ≡ cond engaged fallback agile }
{
    if engaged { fallback } else { agile }
}

// The chosen command, its non-finite numbers made +0.0: once, after the choice.
fn pick(engaged: bool, agile: BodyRate, fallback: BodyRate) -> BodyRate
    ensures { result ≡ picked engaged agile fallback }
{
    BodyRate(sanitise3(chosen(engaged, agile, fallback).0))
}

impl SimplexShield {
    // A fresh shield is engaged: the planner has to earn control.
    pub fn new(set: RecoverableSet, enter: f32, exit: f32) -> Self
        ensures { result ≡ new_shield set enter exit }
    {
        let t = mend(enter, exit);
        Self {
            set: set,
            engaged: true,
            enter: t.enter,
            exit: t.exit,
        }
    }

    pub fn fallback_engaged(self) -> bool
        ensures { result ≡ self.engaged }
    {
        self.engaged
    }

    // A step by the margin of the geometric error and the squared rate.
    pub fn filter(self, psi: f32, e_omega_sq: f32, agile: BodyRate, fallback: BodyRate) -> Shielded
        ensures { result ≡ filter self psi e_omega_sq agile fallback }
    {
        let set = self.set;
        self.step(set.margin(psi, e_omega_sq), agile, fallback)
    }

    // A step by a margin: who has control by the latch, and the command of that one.
    pub fn step(self, margin: f32, agile: BodyRate, fallback: BodyRate) -> Shielded
        ensures { result ≡ step self margin agile fallback }
    {
        let set = self.set;
        let engaged = latch(self.enter, self.exit, self.engaged, margin);
        let command = pick(engaged, agile, fallback);
        let shield = SimplexShield {
            set: set,
            engaged: engaged,
            enter: self.enter,
            exit: self.exit,
        };
        Shielded {
            shield: shield,
            command: command,
            fallback: engaged,
        }
    }
}
