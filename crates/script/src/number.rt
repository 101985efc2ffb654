// Words as numbers.
ghost use Rattle.std.specs.Prelude.{◌≡◌, ◌≤◌};
ghost use Rattle.std.specs.Option.{SomeIff};
ghost use Rattle.script.specs.Number.{digits_only, value_of, number_said};
ghost use Rattle.script.specs.Grammar.{most_word, most_time};

use text::Fault;

// Whether a word has digits only.
fn digits_only(word: &[u8]) -> bool
    ensures { result ≡ digits_only word.now }
{
    word.iter().all(|byte| byte.is_ascii_digit())
}

// The value of a word's digits, if a `u64` holds it. Not std's `parse`: that takes a sign, refuses an empty word and wants a `str`.
#[tactic(auto, using(crate::proofs::Digits::valued))]
fn value(word: &[u8]) -> Option<u64>
    ensures { SomeIff result (value_of word.now ≤ most_time) (value_of word.now) }
{
    let mut n: u64 = 0;
    for byte in word {
        let digit = byte.saturating_sub(b'0');
        n = n.checked_mul(10)?.checked_add(u64::from(digit))?;
    }
    Some(n)
}

// A word as a number that is below 2^64, as a time is.
pub(crate) fn number(word: &[u8]) -> Result<u64, Fault>
    ensures { result ≡ number_said most_time word.now }
{
    if digits_only(word) {
        value(word).ok_or(Fault::Large)
    } else {
        Err(Fault::Malformed)
    }
}

// A word as a number that is below 2^32, as a word of a table or a task's number is.
pub(crate) fn small_number(word: &[u8]) -> Result<u32, Fault>
    ensures { result ≡ number_said most_word word.now }
{
    u32::try_from(number(word)?).map_err(|_| Fault::Large)
}
