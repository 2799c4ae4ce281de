//! What a word spells.
ghost use Rattle.std.specs.Prelude.{◌≡◌, ◌+◌, ◌*◌, ◌^◌, ◌<◌, ◌≤◌, IfSome, MatchOption};
ghost use Rattle.pf_text.specs.Numbers.{decimal_number, hex_number};

/// A number with one decimal digit more, if it stays below 2^64.
fn with_digit(value: u64, digit: u8) -> Option<u64>
    ensures value { MatchOption result (2 ^ 64 ≤ value * 10 + digit) (λ now. now ≡ value * 10 + digit) }
    ensures fits { IfSome result (λ now. now < 2 ^ 64) }
{
    let tens = value.checked_mul(10)?;
    tens.checked_add(u64::from(digit))
}

/// The number that a word spells in one or more decimal digits. Leading zeros are allowed, signs are not.
///
/// `None` where the word has another byte or none at all, or where the number is 2^64 or more.
pub fn decimal(word: &[u8]) -> Option<u64>
    ensures { result ≡ decimal_number word.now }
{
    if word.is_empty() {
        return None;
    }
    let mut value: u64 = 0;
    let mut rest = word;
    while let [digit, others @ ..] = rest {
        if !digit.is_ascii_digit() {
            return None;
        }
        let Some(more) = with_digit(value, *digit - b'0') else {
            return None;
        };
        value = more;
        rest = others;
    }
    Some(value)
}

/// The byte that a word spells in two hexadecimal digits, of either case.
///
/// `None` where the word is anything else.
#[tactic(auto, unfolding(crate::specs::Numbers::hex_number))]
pub fn hex_byte(word: &[u8]) -> Option<u8>
    ensures { result ≡ hex_number word.now }
{
    let [high, low] = word else {
        return None;
    };
    let high = char::from(*high).to_digit(16)?;
    let low = char::from(*low).to_digit(16)?;
    Some((16 * high + low) as u8)
}
