//! Numbers in decimal and hexadecimal.

ghost use Rattle.std.specs.Prelude.{◌≡◌, ◌+◌, ◌*◌, ◌/◌, ◌%◌, ◌^◌, ◌<◌, ◌≤◌, length, take, false, IfSome};
ghost use Rattle.std.specs.Option.{SomeIff};
ghost use Rattle.std.specs.Fmt.{decimal as decimal_digits, digit_glyph};
ghost use Rattle.std.specs.Str.Parse.{AllDigits, digits_value};
ghost use Rattle.surf_base.specs.Numbers.{decimal_value, IsDecimal, decimal_in, hex_value, IsHex, hex_in, hex_word};

/// Writes the decimal digits of `value` to the front of `buf`, and answers how many there are.
pub fn decimal(value: u64, buf: &mut [u8; 20]) -> usize
    ensures written { take result buf.new ≡ decimal_digits value }
    ensures some { 1 ≤ result }
    ensures fits { result ≤ 20 }
{
    put_decimal(value, buf)
}

/// Writes the decimal digits of `value` to the front of `buf`, the last digit last.
fn put_decimal(value: u64, buf: &mut [u8]) -> usize
    requires { length (decimal_digits value) ≤ length buf.old }
    ensures written { take result buf.new ≡ decimal_digits value }
    ensures count { result ≡ length (decimal_digits value) }
{
    let digit = b'0' + (value % 10) as u8;
    if value < 10 {
        buf[0] = digit;
        return 1;
    }
    let count = put_decimal(value / 10, buf);
    buf[count] = digit;
    count + 1
}

/// The number that 1 to 10 decimal digits write, where it is at most `most`. Leading zeros are allowed.
pub fn read_decimal(bytes: &[u8], most: u64) -> Option<u64>
    ensures value { SomeIff result (IsDecimal most bytes.now) (decimal_value bytes.now) }
    ensures computed { result ≡ decimal_in most bytes.now }
{
    decimal_at_most(bytes, most)
}

/// The same, as one of two facts.
fn decimal_at_most(bytes: &[u8], most: u64) -> Option<u64>
    ensures { SomeIff result (IsDecimal most bytes.now) (decimal_value bytes.now) }
{
    if bytes.is_empty() || bytes.len() > 10 {
        return None;
    }
    let value = read_digits(bytes, 10)?;
    if value <= most { Some(value) } else { None }
}

/// The number that all of `bytes` write as digits of the radix.
fn read_digits(bytes: &[u8], radix: u32) -> Option<u64>
    requires low { 2 ≤ radix }
    requires high { radix ≤ 16 }
    requires short { length bytes.now ≤ 10 }
    ensures value { SomeIff result (AllDigits radix bytes.now) (digits_value radix bytes.now) }
    ensures below { IfSome result (λ value. value < radix ^ length bytes.now) }
{
    let mut value = 0;
    for byte in bytes {
        let digit = char::from(*byte).to_digit(radix)?;
        value = value * u64::from(radix) + u64::from(digit);
    }
    Some(value)
}

/// Writes the 8 lower-case hexadecimal digits of `value`.
pub fn hex8(value: u32, buf: &mut [u8; 8])
    ensures { buf.new ≡ hex_word value }
{
    *buf = [
        hex_digit(value, 0x1000_0000),
        hex_digit(value, 0x100_0000),
        hex_digit(value, 0x10_0000),
        hex_digit(value, 0x1_0000),
        hex_digit(value, 0x1000),
        hex_digit(value, 0x100),
        hex_digit(value, 0x10),
        hex_digit(value, 1),
    ];
}

/// The lower-case hexadecimal digit of `value` at the place that counts `unit`.
fn hex_digit(value: u32, unit: u32) -> u8
    requires { 0 < unit }
    ensures { result ≡ digit_glyph false ((value / unit) % 16) }
{
    let digit = (value / unit % 16) as u8;
    if digit < 10 {
        b'0' + digit
    } else {
        b'a' + (digit - 10)
    }
}

/// The number that 1 to 8 hexadecimal digits in either case write.
pub fn read_hex(bytes: &[u8]) -> Option<u32>
    ensures value { SomeIff result (IsHex bytes.now) (hex_value bytes.now) }
    ensures computed { result ≡ hex_in bytes.now }
{
    short_hex(bytes)
}

/// The same, as one of two facts.
fn short_hex(bytes: &[u8]) -> Option<u32>
    ensures { SomeIff result (IsHex bytes.now) (hex_value bytes.now) }
{
    if bytes.is_empty() || bytes.len() > 8 {
        return None;
    }
    let value = read_digits(bytes, 16)?;
    Some(value as u32)
}
