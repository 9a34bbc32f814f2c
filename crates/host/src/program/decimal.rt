//! Numbers in decimal digits.

ghost use Rattle.std.specs.Prelude.{◌≡◌};
ghost use Rattle.std.specs.Char.{is_ascii_digit};
ghost use Rattle.std.specs.List.{list_all};
ghost use Rattle.host.specs.program.Decimal.{decimal_number};

/// Whether each byte of a text is a decimal digit. `decimal` checks this before it calls `parse`, which also accepts digits after a `+`.
/// The result is true for the empty text, for which `parse` returns an error.
fn is_digits(text: &str) -> bool
    ensures { result ≡ list_all is_ascii_digit text.now }
{
    text.bytes().all(|byte| byte.is_ascii_digit())
}

/// The value of decimal digits; leading zeros are allowed. `None` if the text is empty, if a character is no digit (a sign, for example),
/// or if the value is 2^32 or more.
pub(crate) fn decimal(digits: &str) -> Option<u32>
    ensures { result ≡ decimal_number digits.now }
{
    if !is_digits(digits) {
        return None;
    }
    digits.parse().ok()
}
