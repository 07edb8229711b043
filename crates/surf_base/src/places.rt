//! Bytes at an offset of a buffer, one piece behind another.

ghost use Rattle.std.specs.Prelude.{◌≡◌, ◌≤◌, ◌+◌, ◌++◌, length, take};
ghost use Rattle.std.specs.Fmt.{decimal as decimal_digits};
ghost use Rattle.surf_base.specs.Numbers.{labelled};

use crate::numbers::decimal;

/// Writes the bytes at offset `at`, and answers the offset after them.
pub fn put_at(buf: &mut [u8], at: usize, bytes: &[u8]) -> usize
    requires { at + length bytes.now ≤ length buf.old }
    ensures written { take result buf.new ≡ take at buf.old ++ bytes.now }
    ensures count { result ≡ at + length bytes.now }
    ensures len { length buf.new ≡ length buf.old }
{
    let end = at + bytes.len();
    buf[at..end].copy_from_slice(bytes);
    end
}

/// Writes a number in decimal at offset `at`, and answers the offset after it.
pub fn put_number_at(buf: &mut [u8], at: usize, value: u64) -> usize
    requires { at + 20 ≤ length buf.old }
    ensures written { take result buf.new ≡ take at buf.old ++ decimal_digits value }
    ensures count { result ≡ at + length (decimal_digits value) }
    ensures few { result ≤ at + 20 }
    ensures len { length buf.new ≡ length buf.old }
{
    let mut digits = [0; 20];
    let count = decimal(value, &mut digits);
    put_at(buf, at, &digits[..count])
}

/// Writes a label and a number in decimal at offset `at`, and answers the offset after them.
pub fn put_labelled_at(buf: &mut [u8], at: usize, label: &[u8], value: u64) -> usize
    requires { at + length label.now + 20 ≤ length buf.old }
    ensures written { take result buf.new ≡ take at buf.old ++ labelled label.now value }
    ensures count { result ≡ at + length label.now + length (decimal_digits value) }
    ensures few { result ≤ at + length label.now + 20 }
    ensures len { length buf.new ≡ length buf.old }
{
    let next = put_at(buf, at, label);
    put_number_at(buf, next, value)
}
