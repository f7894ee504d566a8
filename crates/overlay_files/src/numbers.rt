// Numbers in decimal without leading zeros.
ghost use Rattle.std.specs.Prelude.{◌≡◌, ◌≢◌, ℕ, ◌<◌, ◌≤◌, ◌^◌, length, decimal, MatchOption, true};
ghost use Rattle.std.specs.Str.Parse.{AllDigits, digits_value};
ghost use Rattle.clock_script.specs.Lines.{HasNumberForm};

// The number of 0 to 2^63 - 1 that the text writes.
pub(crate) fn read_number(text: &[u8]) -> Option<u64>
    ensures { MatchOption result ((n : ℕ) → n < 2 ^ 63 → text.now ≢ decimal n) (λ n. (n < 2 ^ 63) × (text.now ≡ decimal n)) }
{
    if !has_number_form(text) {
        return None;
    }
    match value(text) {
        Some(number) if number < 1 << 63 => Some(number),
        _ => None,
    }
}

// Whether the text has one digit, or up to nineteen of which the first isn't 0, if it has digits alone.
fn has_number_form(text: &[u8]) -> bool
    ensures yes { result ≡ true → HasNumberForm text.now }
    ensures no { HasNumberForm text.now → result ≡ true }
{
    match text {
        [] => false,
        [_] => true,
        [first, ..] => *first != b'0' && text.len() <= 19,
    }
}

// The value of a text of digits.
fn value(text: &[u8]) -> Option<u64>
    requires { length text.now ≤ 19 }
    ensures { MatchOption result (AllDigits 10 text.now → ⊥) (λ n. AllDigits 10 text.now × (n ≡ digits_value 10 text.now)) }
{
    let mut number = 0;
    for byte in text {
        if !byte.is_ascii_digit() {
            return None;
        }
        number = 10 * number + u64::from(*byte - b'0');
    }
    Some(number)
}
