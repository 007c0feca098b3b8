//! Numbers of any size.

use data_theory::NoMemory;
use std::alloc::Global;
use std::marker::Model;

/// A number of any size: its digits to the base 2^32, the least first.
#[derive(Drop)]
pub struct Weight {
    digits: Vec<u32>,
}

impl Model for Weight {
    ghost use Rattle.std.specs.Prelude.{ℕ};
    ghost use Rattle.term_pool.specs.Weights.{number_of};

    ghost Value = { ℕ };

    ghost view = { λ weight. number_of weight.digits.items };
}

impl Weight {
    ghost use Rattle.std.specs.Prelude.{◌≡◌, ◌+◌, ◌<◌, ◌↔◌, IsTrue, IfOk};

    /// The number 1.
    pub fn one(alloc: Global) -> Result<Weight, NoMemory>
        ensures { IfOk result (λ weight. weight ≡ 1) }
    {
        let digits = [1].to_vec(alloc)?;
        Ok(Weight { digits })
    }

    /// The same number.
    pub fn copy(&self, alloc: Global) -> Result<Weight, NoMemory>
        ensures { IfOk result (λ weight. weight ≡ self.now) }
    {
        let digits = self.digits.as_slice().to_vec(alloc)?;
        Ok(Weight { digits })
    }

    /// The sum of two.
    pub fn plus(&self, alloc: Global, other: &Weight) -> Result<Weight, NoMemory>
        ensures { IfOk result (λ sum. sum ≡ self.now + other.now) }
    {
        let digits = digits_of_sum(alloc, self.digits.as_slice(), other.digits.as_slice())?;
        Ok(Weight { digits })
    }

    /// Whether this is the smaller one.
    pub fn less(&self, other: &Weight) -> bool
        ensures { IsTrue result ↔ (self.now < other.now) }
    {
        are_less(self.digits.as_slice(), other.digits.as_slice())
    }
}

ghost use Rattle.std.specs.Prelude.{◌≡◌, ◌+◌, ◌<◌, ◌↔◌, IsTrue, IfOk, get_or};
ghost use Rattle.term_pool.specs.Weights.{number_of};

const BASE: u64 = 4_294_967_296;

/// The digit at a place, which is 0 behind the last one.
fn digit_at(digits: &[u32], place: usize) -> u32
    ensures { result ≡ get_or digits.now place 0 }
{
    if place < digits.len() {
        digits[place]
    } else {
        0
    }
}

fn digits_of_sum(alloc: Global, left: &[u32], right: &[u32]) -> Result<Vec<u32>, NoMemory>
    ensures { IfOk result (λ digits. number_of digits.items ≡ number_of left.now + number_of right.now) }
{
    let mut digits = Vec::new(alloc);
    let mut carry = 0;
    for place in 0..left.len().max(right.len()) {
        let sum = u64::from(digit_at(left, place)) + u64::from(digit_at(right, place)) + carry;
        digits.push((sum % BASE) as u32)?;
        carry = sum / BASE;
    }
    if carry > 0 {
        digits.push(carry as u32)?;
    }
    Ok(digits)
}

/// Whether the number of the first digits is below that of the second ones.
fn are_less(left: &[u32], right: &[u32]) -> bool
    ensures { IsTrue result ↔ (number_of left.now < number_of right.now) }
{
    let mut less = false;
    for place in 0..left.len().max(right.len()) {
        let (digit, other) = (digit_at(left, place), digit_at(right, place));
        if digit != other {
            less = digit < other;
        }
    }
    less
}
