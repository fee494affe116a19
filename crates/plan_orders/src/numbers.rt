//! Which words are numbers.

ghost use Rattle.std.specs.Prelude.{◌≡◌, ◌-◌, ◌^◌, min, true};
ghost use Rattle.std.specs.Char.{is_ascii_digit};
ghost use Rattle.std.specs.List.{list_all};
ghost use Rattle.std.specs.Str.Parse.{digits_value};
ghost use Rattle.plan_orders.specs.Numbers.{is_number, number_of, at_most, number_up_to};

fn are_digits(word: &[u8]) -> bool
    ensures { result ≡ list_all is_ascii_digit word.now }
{
    word.iter().all(|byte| byte.is_ascii_digit())
}

fn is_number(word: &[u8]) -> bool
    ensures { result ≡ is_number word.now }
{
    match word {
        [] => false,
        [digit, ..] => *digit != b'0' && are_digits(word),
    }
}

/// The number that digits are, or the greatest where it is greater.
fn value_of(digits: &[u8]) -> u32
    requires { list_all is_ascii_digit digits.now ≡ true }
    ensures { result ≡ min (digits_value 10 digits.now) (2 ^ 32 - 1) }
{
    // Past 32 bits the greatest stands for all: it is out of every range, and the number of no client.
    let mut value: u32 = 0;
    for digit in digits {
        value = value
            .saturating_mul(10)
            .saturating_add(u32::from(*digit - b'0'));
    }
    value
}

/// The number that a word is. Numbers past 32 bits are taken for one.
pub fn number_of(word: &[u8]) -> Option<u32>
    ensures { result ≡ number_of word.now }
{
    if is_number(word) {
        Some(value_of(word))
    } else {
        None
    }
}

/// The number from 1 to the limit that a word is.
pub fn number_up_to(limit: u32, word: &[u8]) -> Option<u32>
    ensures { result ≡ number_up_to limit word.now }
{
    let number = number_of(word)?;
    if number > limit {
        return None;
    }
    Some(number)
}
