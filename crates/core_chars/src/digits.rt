// The number that decimal digits write.
ghost use Rattle.std.specs.Prelude.{◌≡◌, ◌+◌, ◌*◌, ◌≤◌, ◌^◌, min, pos, neg_ℤ};
ghost use Rattle.std.specs.Char.{digit_value};
ghost use Rattle.core_chars.specs.Characters.{value_from};

use crate::classes::digit;

/// More than the magnitude of any integer of 128 signed bits.
pub const CEILING: u128 = 170141183460469231731687303715884105729;

/// The greatest number of which ten times are below the ceiling.
const TENTH: u128 = 17014118346046923173168730371588410572;

fn next_magnitude(value: u128, d: char) -> u128
    ensures { result ≡ min (value * 10 + digit_value d) 170141183460469231731687303715884105729 }
{
    if value > TENTH {
        CEILING
    } else {
        (value * 10 + digit(d) as u128).min(CEILING)
    }
}

/// The number that the digits write. One at or past 2^127 + 1 is given as that.
pub fn magnitude_of(digits: &[char]) -> u128
    ensures { result ≡ min (value_from 10 0 digits.now) 170141183460469231731687303715884105729 }
{
    let mut value = 0u128;
    for c in digits {
        value = next_magnitude(value, *c);
    }
    value
}

/// The integer below zero, or zero, of this magnitude.
pub fn negative(magnitude: u128) -> i128
    requires { magnitude ≤ 2 ^ 127 }
    ensures { result ≡ neg_ℤ (pos magnitude) }
{
    if magnitude == 0 {
        0
    } else {
        -((magnitude - 1) as i128) - 1
    }
}
