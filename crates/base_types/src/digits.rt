ghost use Rattle.std.specs.Prelude.{◌≤◌, ◌<◌, ◌^◌, ℕ, MatchOption, IfSome};
ghost use Rattle.base_types.specs.Digits.{IsDigits};

/// The number that one to `most` decimal digits write. Zeros may lead.
pub fn read_digits(text: &[u8], most: usize) -> Option<u64>
    requires { most ≤ 19 }
    ensures value { MatchOption result ((n : ℕ) → ¬ (IsDigits most text.now n)) (IsDigits most text.now) }
    ensures below { IfSome result (λ n. n < 10 ^ most) }
{
    if text.is_empty() || text.len() > most {
        return None;
    }
    let mut value = 0u64;
    'digits: for byte in text {
        let Some(digit) = char::from(*byte).to_digit(10) else {
            return None;
        };
        value = value * 10 + u64::from(digit);
    }
    Some(value)
}
