//! Five numbers added bit by bit.
#![tactic(auto)]

ghost use Rattle.std.specs.Prelude.{◌≡◌, ◌≤◌, ◌+◌, ◌*◌, ℕ, nat_le, if◌then◌else◌};
ghost use Rattle.std.specs.Int.{bit_at};

/// The sums of the bits of three numbers: their ones, and their twos.
#[inline(always)]
fn added(a: u32, b: u32, c: u32) -> (u32, u32)
    ensures sum { (x : ℕ) → bit_at result.0 x + 2 * bit_at result.1 x ≡ bit_at a x + bit_at b x + bit_at c x }
{
    let odd = a ^ b;
    (odd ^ c, (a & b) | (odd & c))
}

/// The places at which so many of five numbers, two to four, have their bit set.
#[inline(always)]
pub(crate) fn set_in(least: u32, a: u32, b: u32, c: u32, d: u32, e: u32) -> u32
    requires some { 2 ≤ least }
    requires few { least ≤ 4 }
    ensures bits { (x : ℕ) → bit_at result x
        ≡ (if nat_le least (bit_at a x + bit_at b x + bit_at c x + bit_at d x + bit_at e x) then 1 else 0) }
{
    let (first, twos) = added(a, b, c);
    let (ones, more) = added(first, d, e);
    if least == 2 {
        return twos | more;
    }
    if least == 3 {
        return (twos & more) | ((twos | more) & ones);
    }
    twos & more
}
