// Streams of random numbers: Park and Miller's minimal standard, and where each of 256 streams begins.
#![tactic(auto)]

ghost use Rattle.std.specs.Prelude.{◌≡◌};
ghost use Rattle.streams.specs.Draws.{times_of, draw_of, draws_of};
ghost use Rattle.streams.specs.Multipliers.{multiplier_of, Multipliers};

use table::MULTIPLIERS;

mod table;
#[cfg(test)]
mod tests;

// The prime that every draw is below.
pub const MODULUS: u32 = 2_147_483_647;

// What a draw multiplies by.
pub const FACTOR: u32 = 16_807;

// The product of two numbers, reduced.
pub fn times(a: u32, b: u32) -> u32
    ensures { result ≡ times_of a b }
{
    (u64::from(a) * u64::from(b) % u64::from(MODULUS)) as u32
}

// The draw that follows x.
pub fn draw(x: u32) -> u32
    ensures { result ≡ draw_of x }
{
    times(FACTOR, x)
}

// The number after n draws from x.
pub fn draws(n: u32, x: u32) -> u32
    ensures { result ≡ draws_of n x }
{
    (0..n).fold(x, |last, _| draw(last))
}

// The multipliers of all streams.
fn multipliers() -> &'static [u32; 256]
    ensures { Multipliers result.now }
{
    &MULTIPLIERS
}

// What takes a seed to the start of stream k.
pub fn multiplier(k: u8) -> u32
    ensures { result ≡ multiplier_of k }
{
    multipliers()[usize::from(k)]
}
