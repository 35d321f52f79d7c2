//! The digits of a value.
ghost use Rattle.std.specs.Prelude.{◌≡◌, ◌<◌, ◌/◌, ◌%◌, codes, ◌++◌};
ghost use Rattle.exectrace.specs.Trace.{value_text, hex_digit};

/// The two digits of each number below 256.
const PAIRS: &[u8; 512] =
    b"000102030405060708090A0B0C0D0E0F101112131415161718191A1B1C1D1E1F202122232425262728292A2B2C2D2E2F303132333435363738393A3B3C3D3E3F404142434445464748494A4B4C4D4E4F505152535455565758595A5B5C5D5E5F606162636465666768696A6B6C6D6E6F707172737475767778797A7B7C7D7E7F808182838485868788898A8B8C8D8E8F909192939495969798999A9B9C9D9E9FA0A1A2A3A4A5A6A7A8A9AAABACADAEAFB0B1B2B3B4B5B6B7B8B9BABBBCBDBEBFC0C1C2C3C4C5C6C7C8C9CACBCCCDCECFD0D1D2D3D4D5D6D7D8D9DADBDCDDDEDFE0E1E2E3E4E5E6E7E8E9EAEBECEDEEEFF0F1F2F3F4F5F6F7F8F9FAFBFCFDFEFF";

/// The digit of the high half of a number below 256.
fn high_digit(n: u32) -> u8
    requires { n < 256 }
    ensures { result ≡ hex_digit (n / 16) }
{
    PAIRS[2 * n as usize]
}

/// The digit of the low half of a number below 256.
fn low_digit(n: u32) -> u8
    requires { n < 256 }
    ensures { result ≡ hex_digit (n % 16) }
{
    PAIRS[2 * n as usize + 1]
}

/// `$` and eight digits.
pub(crate) fn value_digits(n: u32) -> [u8; 9]
    ensures { result ≡ value_text n }
{
    let [first, second, third, fourth] = [
        n / 0x100_0000,
        n / 0x1_0000 % 256,
        n / 0x100 % 256,
        n % 256,
    ];
    [
        b'$',
        high_digit(first),
        low_digit(first),
        high_digit(second),
        low_digit(second),
        high_digit(third),
        low_digit(third),
        high_digit(fourth),
        low_digit(fourth),
    ]
}

/// A space, `$` and eight digits.
pub(crate) fn spaced_digits(n: u32) -> [u8; 10]
    ensures { result ≡ codes " " ++ value_text n }
{
    let [dollar, a, b, c, d, e, f, g, h] = value_digits(n);
    [b' ', dollar, a, b, c, d, e, f, g, h]
}

/// How the line of a call that answers ends.
pub(crate) fn answer_end(n: u32) -> [u8; 14]
    ensures { result ≡ codes " -> " ++ value_text n ++ codes "\n" }
{
    let [dollar, a, b, c, d, e, f, g, h] = value_digits(n);
    [
        b' ', b'-', b'>', b' ', dollar, a, b, c, d, e, f, g, h, b'\n',
    ]
}
