//! What a numeral says.
ghost use Rattle.std.specs.Prelude.{◌≡◌, ◌≤◌, ◌^◌, MatchOption};
ghost use Rattle.mcrl2_lexer.specs.Tokens.{AreDigits};
ghost use Rattle.mcrl2_lexer.specs.Words.{decimal};

/// The number that digits spell, unless it is greater than 2^128 - 1.
///
/// It reads no further than it needs to know that the number is too great, and takes no memory.
pub fn numeral_value(digits: &[u8]) -> Option<u128>
    requires { AreDigits digits.now }
    ensures { MatchOption result (2 ^ 128 ≤ decimal digits.now) (λ value. value ≡ decimal digits.now) }
{
    let mut value: u128 = 0;
    for digit in digits {
        value = value
            .checked_mul(10)?
            .checked_add(u128::from(*digit - b'0'))?;
    }
    Some(value)
}
