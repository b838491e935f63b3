//! Reads decimal numbers of at most 32 bits in a text of bytes.
ghost use Rattle.std.specs.Prelude.{◌≡◌, ◌≤◌, IfSome, length};
ghost use Rattle.cf_io.specs.Numbers.{leading_number as digits_before, number_in};

/// The greatest number that a text may spell: the last value of a u32.
const LARGEST: u64 = 4_294_967_295;

/// The number that the digits at the start of a text spell, leading zeros accepted, and how many
/// digits these are. None if the text begins with no digit, or if the value passes `2^32 - 1`.
#[inline(always)]
pub fn leading_number(text: &[u8]) -> Option<(u32, usize)>
    ensures value { result ≡ digits_before text.now }
    ensures within { IfSome result (λ p. p.1 ≤ length text.now) }
{
    let mut value = 0u64;
    let mut at = 0;
    'digits: while at < text.len() && text[at].is_ascii_digit() {
        value = 10 * value + (text[at] - b'0') as u64;
        if value > LARGEST {
            return None;
        }
        at += 1;
    }
    if at == 0 {
        return None;
    }
    Some((value as u32, at))
}

/// The number that a text of decimal digits spells, leading zeros accepted. None if the text is
/// empty, has another byte, or its value passes `2^32 - 1`.
pub fn number_of(text: &[u8]) -> Option<u32>
    ensures { result ≡ number_in text.now }
{
    let (value, digits) = leading_number(text)?;
    if digits == text.len() {
        Some(value)
    } else {
        None
    }
}
