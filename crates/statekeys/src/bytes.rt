//! Numbers as bytes.
ghost use Rattle.std.specs.Prelude.{◌≡◌, ◌++◌, OnOk};
ghost use Rattle.statekeys.specs.Keys.{key_bytes, number_bytes};

use closure::Fault;

/// Adds the bytes of a number: seven bits a byte, the lowest first.
fn push_number(number: u64, out: &mut Vec<u8>) -> Result<(), Fault>
    ensures { OnOk result (out.new.items ≡ out.old.items ++ number_bytes number) }
{
    let mut left = number;
    for round in 0..9u64 {
        if left < 128 {
            out.push(left as u8)?;
            return Ok(());
        }
        out.push((128 + left % 128) as u8)?;
        left /= 128;
    }
    match u8::try_from(left) {
        Err(_) => Err(Fault::NoKey),
        Ok(last) => {
            out.push(last)?;
            Ok(())
        }
    }
}

/// Adds the bytes of some numbers.
pub fn push_bytes(numbers: &[u64], out: &mut Vec<u8>) -> Result<(), Fault>
    ensures { OnOk result (out.new.items ≡ out.old.items ++ key_bytes numbers.now) }
{
    for number in numbers {
        push_number(*number, out)?;
    }
    Ok(())
}
