//! The draws of the drill: a number of 64 bits that each draw changes.
//!
//! The numbers are those of a linear congruence modulo 2^64 (the multiplier is Knuth's, of MMIX). The lower bits of such numbers
//! repeat soon, so a draw gives the upper 31.
#![tactic(auto)]

ghost use Rattle.std.specs.Prelude.{◌≡◌, ◌<◌, ◌^◌};
ghost use Rattle.strength_drill.specs.Draws.{next_number, drawn};

/// What each draw multiplies the number by.
const MULTIPLIER: u64 = 6_364_136_223_846_793_005;

/// What each draw adds to it.
const INCREMENT: u64 = 1_442_695_040_888_963_407;

/// A number that draws are made of.
#[derive(Drop)]
pub(crate) struct Draws {
    pub number: u64,
}

impl Draws {
    /// The next draw.
    pub(crate) fn draw(&mut self) -> u32
        ensures drawn { result ≡ drawn self.new.number }
        ensures next { self.new.number ≡ next_number self.old.number }
    {
        self.number = self.number.wrapping_mul(MULTIPLIER).wrapping_add(INCREMENT);
        (self.number >> 33) as u32
    }
}
