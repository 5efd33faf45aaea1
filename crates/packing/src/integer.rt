// The integer code: the value of decimal digits, in its fewest bytes.
ghost use Rattle.std.specs.Prelude.{◌≡◌, ◌+◌, ◌-◌, ◌^◌, ◌<◌, ◌≤◌, true, map, length, take, slice_index};
ghost use Rattle.std.specs.Int.Digits.{digits_of, number_from_digits};
ghost use Rattle.codes.specs.Table.{within, value, decimal, unpacked_integer, packed_code, unpacked_code};
ghost use Rattle.packing.specs.Plain.{octets_sized, number_bytes, packed_bytes, bytes_by};

use super::code::Code;
use super::groups::all_within;
use super::widths::Width;
use codes::Fault;

const LARGEST: u64 = 9999999999999999999;

// The number that digits write, each counted from the byte that stands for zero.
fn number_from(base: u64, zero: u8, digits: &[u8]) -> u64
    requires digits { (1 ≤ base) × (within zero (zero + base - 1) digits.now ≡ true) }
    requires few { base ^ length digits.now ≤ 2 ^ 64 }
    ensures { result ≡ number_from_digits base (map (λ b. b - zero) digits.now) }
{
    let mut v = 0u64;
    for b in digits {
        v = v * base + u64::from(*b - zero);
    }
    v
}

// The value of decimal digits.
fn value_of(object: &[u8]) -> u64
    requires digits { within 0x30 0x39 object.now ≡ true }
    requires few { length object.now ≤ 19 }
    ensures { result ≡ value object.now }
{
    number_from(10, b'0', object)
}

// The number that the first n bytes write.
fn number_of(bytes: &[u8], n: usize) -> u64
    requires few { n ≤ 8 }
    requires inside { n ≤ length bytes.now }
    ensures { result ≡ number_from_digits 256 (take n bytes.now) }
{
    number_from(256, 0, &bytes[..n])
}

// How many digits a number has.
fn digits_in(base: u64, number: u64) -> usize
    requires { 2 ≤ base }
    ensures value { result ≡ length (digits_of base number) }
    ensures bound { result ≤ 64 }
{
    match number.checked_ilog(base) {
        Some(k) => k as usize + 1,
        None => 0,
    }
}

// One of a number's digits, the highest at 0.
fn digit_at(base: u64, number: u64, i: usize) -> u8
    requires bases { (2 ≤ base) × (base ≤ 256) }
    requires inside { i < length (digits_of base number) }
    ensures { result ≡ slice_index (digits_of base number) i }
{
    let mut v = number;
    for _ in i + 1..digits_in(base, number) {
        v /= base;
    }
    (v % base) as u8
}

// How many decimal digits are written for a number: one for 0.
fn decimal_length(number: u64) -> usize
    ensures { result ≡ length (decimal number) }
{
    if number == 0 {
        return 1;
    }
    digits_in(10, number)
}

fn decimal_at(number: u64, i: usize) -> u8
    requires { i < length (decimal number) }
    ensures { result ≡ slice_index (decimal number) i }
{
    if number == 0 {
        return 0x30;
    }
    0x30 + digit_at(10, number, i)
}

#[derive(Clone, Copy)]
pub(crate) struct Integer;

impl Code for Integer {
    ghost listed = { λ _. 1 };

    ghost wide = { λ _. 8 };

    ghost pad = { λ _. 0 };

    ghost spelled = { λ _ x. digits_of 256 (value x) };

    ghost meant = { λ _ gs. unpacked_integer gs };

    ghost sized = { λ _. octets_sized };

    ghost packs = { unfold packed_code in λ c x h u. (number_bytes x, packed_bytes _ (number_bytes x)) };

    ghost unpacks = { unfold unpacked_code in λ c bs u. bytes_by unpacked_integer bs u };

    fn width(&self) -> Width {
        Width::BYTE
    }

    fn padding(&self) -> u8 {
        0
    }

    fn suits(&self, object: &[u8]) -> bool {
        (2..=19).contains(&object.len()) && all_within(b'0', b'9', object) && object[0] != b'0'
    }

    fn count(&self, object: &[u8]) -> usize {
        digits_in(256, value_of(object))
    }

    fn group(&self, object: &[u8], i: usize) -> u8 {
        digit_at(256, value_of(object), i)
    }

    fn length(&self, bytes: &[u8], n: usize) -> Result<usize, Fault> {
        if n > 8 {
            return Err(Fault::TooLarge);
        }
        let v = number_of(bytes, n);
        if v > LARGEST {
            return Err(Fault::TooLarge);
        }
        Ok(decimal_length(v))
    }

    fn byte(&self, bytes: &[u8], n: usize, i: usize) -> u8 {
        decimal_at(number_of(bytes, n), i)
    }
}
