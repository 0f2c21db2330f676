//! Pairs of hexadecimal digits. Neither the check nor the decoding branches on a digit, since the digits of real bytes
//! make such branches slow.
ghost use Rattle.std.specs.Prelude.{◌≡◌, ◌*◌, ◌≤◌, true, length, is_ok, vec_capacity, IsOk};
ghost use Rattle.std.specs.List.{list_all};
ghost use Rattle.hex.specs.Hex.{decode_of, hex_digit_value, is_hex_digit};

/// Whether these are hexadecimal digits in pairs.
pub fn are_pairs(digits: &[u8]) -> bool
    ensures { result ≡ is_ok (decode_of digits.now) }
{
    digits.len() % 2 == 0 && are_hex_digits(digits)
}

fn are_hex_digits(digits: &[u8]) -> bool
    ensures { result ≡ list_all is_hex_digit digits.now }
{
    let mut all = true;
    for digit in digits {
        all &= digit.is_ascii_hexdigit();
    }
    all
}

/// Replaces the contents of a vector, which has room, by the bytes of hexadecimal digits.
pub fn decode_into(bytes: &mut Vec<u8>, digits: &[u8])
    requires pairs { IsOk (decode_of digits.now) }
    requires room { length digits.now ≤ 2 * vec_capacity bytes.old }
    ensures decoded { decode_of digits.now ≡ Ok bytes.new.items }
    ensures kept { vec_capacity bytes.old ≤ vec_capacity bytes.new }
{
    bytes.resize(digits.len() / 2, 0).unwrap();
    decode_pairs(bytes.as_mut_slice(), digits);
}

fn decode_pairs(bytes: &mut [u8], digits: &[u8])
    requires pairs { IsOk (decode_of digits.now) }
    requires room { length digits.now ≡ 2 * length bytes.old }
    ensures { decode_of digits.now ≡ Ok bytes.new }
{
    for i in 0..bytes.len() {
        bytes[i] = 16 * digit_value(digits[2 * i]) + digit_value(digits[2 * i + 1]);
    }
}

/// The value of a hexadecimal digit: its last four bits, to which a letter adds 9.
fn digit_value(digit: u8) -> u8
    requires { is_hex_digit digit ≡ true }
    ensures { hex_digit_value digit ≡ Some result }
{
    digit % 16 + 9 * (digit / 64)
}
