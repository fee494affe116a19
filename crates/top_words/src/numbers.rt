//! The numbers of a command line; those of a trace are spelled so too.

ghost use Rattle.std.specs.Prelude.{◌≡◌};
ghost use Rattle.std.specs.Char.{is_ascii_digit};
ghost use Rattle.std.specs.List.{list_all};
ghost use Rattle.top_words.specs.Numbers.{is_number, number_of, workers_of};

/// How many workers a run has at most.
const WORKER_LIMIT: u64 = 16;

fn are_digits(word: &[u8]) -> bool
    ensures { result ≡ list_all is_ascii_digit word.now }
{
    word.iter().all(|byte| byte.is_ascii_digit())
}

fn is_number(word: &[u8]) -> bool
    ensures { result ≡ is_number word.now }
{
    match word {
        [] => false,
        [digit] => digit.is_ascii_digit(),
        [digit, ..] => *digit != b'0' && are_digits(word),
    }
}

/// The number below 2^64 that a word is.
pub fn number_of(word: &str) -> Option<u64>
    ensures { result ≡ number_of word.now }
{
    if is_number(word.as_bytes()) {
        word.parse::<u64>().ok()
    } else {
        None
    }
}

/// The count of workers that a word is.
pub(crate) fn workers_of(word: &str) -> Option<u32>
    ensures { result ≡ workers_of word.now }
{
    match number_of(word)? {
        number @ 1..=WORKER_LIMIT => Some(number as u32),
        _ => None,
    }
}
