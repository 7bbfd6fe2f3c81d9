//! Decimal numbers.

ghost use Rattle.std.specs.Prelude.{◌≡◌, ◌<◌, IfSome};
ghost use Rattle.p9_base.specs.Decimal.{number_of, is_decimal as decimal_test};

/// The decimal number below the limit that a word writes, or `None` exactly where it writes none:
/// it is empty, or has a byte that is no digit, as a sign, or its number isn't below the limit.
/// Any number of zeros may lead.
pub fn number(word: &str, limit: u64) -> Option<u64>
    ensures value { result ≡ number_of limit word.now }
    ensures below { IfSome result (λ number. number < limit) }
{
    if !is_decimal(word) {
        return None;
    }
    let number = word.parse::<u64>().ok()?;
    (number < limit).then_some(number)
}

// Whether a word is one digit or more.
fn is_decimal(word: &str) -> bool
    ensures { result ≡ decimal_test word.now }
{
    !word.is_empty() && word.bytes().all(|byte| byte.is_ascii_digit())
}
