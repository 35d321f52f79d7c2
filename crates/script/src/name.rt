//! Names of the machine file.
ghost use Rattle.std.specs.Prelude.{◌≡◌};
ghost use Rattle.std.specs.List.{list_all};
ghost use Rattle.script.specs.Names.{is_name, is_name_byte};

use arrayvec::ArrayString;

/// A name of the machine file: 1 to 31 of the characters `A`-`Z`, `a`-`z`, `0`-`9`, `.`, `_` and `-`.
pub type Name = ArrayString<31>;

fn is_name_byte(b: u8) -> bool
    ensures { result ≡ is_name_byte b }
{
    (65 <= b && b <= 90)
        || (97 <= b && b <= 122)
        || ((48 <= b && b <= 57) || (b == 46 || b == 95 || b == 45))
}

fn has_name_bytes(bytes: &[u8]) -> bool
    ensures { result ≡ list_all is_name_byte bytes.now }
{
    bytes.iter().all(|b| is_name_byte(*b))
}

/// Whether the bytes are a name of the machine file.
pub fn is_name(bytes: &[u8]) -> bool
    ensures { result ≡ is_name bytes.now }
{
    if bytes.len() < 1 || bytes.len() > 31 {
        return false;
    }
    has_name_bytes(bytes)
}
