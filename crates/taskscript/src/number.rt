//! Numbers as the texts write them: decimal, negative, and with `$` in base 16.
ghost use Rattle.std.specs.Prelude.{◌≡◌, ◌≤◌, Some, None};
ghost use Rattle.std.specs.{List.list_all, Char.digit_value, Str.Parse.digits_value};
ghost use Rattle.taskscript.specs.Numbers.{is_digit, is_hex_digit, below_word, decimal_of, hex_of, negated, number_written};

fn digit(b: u8) -> u8
    ensures { result ≡ digit_value b }
{
    if b < b'0' {
        36
    } else if b <= b'9' {
        b - b'0'
    } else if b < b'A' {
        36
    } else if b <= b'Z' {
        b - b'A' + 10
    } else if b < b'a' {
        36
    } else if b <= b'z' {
        b - b'a' + 10
    } else {
        36
    }
}

fn are_digits(bytes: &[u8]) -> bool
    ensures { result ≡ list_all is_digit bytes.now }
{
    bytes.iter().all(|b| b'0' <= *b && *b <= b'9')
}

fn are_hex_digits(bytes: &[u8]) -> bool
    ensures { result ≡ list_all is_hex_digit bytes.now }
{
    bytes.iter().all(|b| (b'0' <= *b && *b <= b'9') || (b'A' <= *b && *b <= b'F'))
}

// The number that the digits write, if it is below 2 ^ 32.
fn below_word(bytes: &[u8], radix: u64) -> Option<u32>
    requires low { 1 ≤ radix }
    requires high { radix ≤ 16 }
    ensures { result ≡ below_word (digits_value radix bytes.now) }
{
    let mut total = 0u64;
    for b in bytes {
        total = total * radix + u64::from(digit(*b));
        if total > 4294967295 {
            return None;
        }
    }
    Some(total as u32)
}

/// The number below 2 ^ 32 that these decimal digits write, if they are such; none has a leading zero.
pub fn decimal_of(bytes: &[u8]) -> Option<u32>
    ensures { result ≡ decimal_of bytes.now }
{
    if bytes.len() < 1 || !are_digits(bytes) {
        return None;
    }
    if bytes.len() > 1 && bytes[0] == b'0' {
        return None;
    }
    below_word(bytes, 10)
}

// The number that 1 to 8 digits in base 16 write, `0` to `9` and `A` to `F`.
fn hex_of(bytes: &[u8]) -> Option<u32>
    ensures { result ≡ hex_of bytes.now }
{
    if bytes.len() < 1 || bytes.len() > 8 || !are_hex_digits(bytes) {
        return None;
    }
    below_word(bytes, 16)
}

// The word of the negative of a number from 1 to 2 ^ 31.
fn negated(n: u32) -> Option<u32>
    ensures { result ≡ negated n }
{
    if 1 <= n && n <= 2147483648 {
        Some(0u32.wrapping_sub(n))
    } else {
        None
    }
}

/// The word of a number from -2147483648 to 4294967295, or of `$` and 1 to 8 digits, if the field is
/// one (project rule).
pub fn number_of(bytes: &[u8]) -> Option<u32>
    ensures { result ≡ number_written bytes.now }
{
    match bytes {
        [b'$', rest @ ..] => hex_of(rest),
        [b'-', rest @ ..] => match decimal_of(rest) {
            None => None,
            Some(n) => negated(n),
        },
        _ => decimal_of(bytes),
    }
}
