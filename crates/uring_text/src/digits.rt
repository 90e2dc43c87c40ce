//! Numbers in decimal digits.

ghost use Rattle.std.specs.Prelude.{◌≡◌, ◌++◌, OnOk};
ghost use Rattle.std.specs.Fmt.{decimal, signed_decimal};

use std::alloc::AllocError;

/// Writes the number's digits.
pub fn put_number(out: &mut Vec<u8>, number: u64) -> Result<(), AllocError>
    ensures { OnOk result (out.new.items ≡ out.old.items ++ decimal number) }
{
    let mut digits = [0u8; 20];
    let mut at: usize = 19;
    let mut left = number;
    while left > 9 {
        digits[at] = b'0' + (left % 10) as u8;
        at -= 1;
        left /= 10;
    }
    digits[at] = b'0' + left as u8;
    out.extend_from_slice(&digits[at..])
}

/// Writes the number's digits, behind a minus where it is negative.
pub fn put_signed(out: &mut Vec<u8>, number: i32) -> Result<(), AllocError>
    ensures { OnOk result (out.new.items ≡ out.old.items ++ signed_decimal number) }
{
    if number < 0 {
        out.push(b'-')?;
    }
    put_number(out, number.unsigned_abs() as u64)
}
