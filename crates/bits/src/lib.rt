// Packed bits, most significant bit first: a field of 1 to 32 bits is taken from a byte string, or put into it, at any bit position.
#![tactic(auto)]

ghost use Rattle.std.specs.Prelude.{◌≡◌, ◌+◌, ◌-◌, ◌*◌, ◌/◌, ◌%◌, ◌^◌, ◌≤◌, ◌<◌, length};
ghost use Rattle.bits.specs.Packed.{value, digits, bits_of, bytes_of};
ghost use Rattle.bits.specs.Faces.{widest, within, taken, fits, stored};

// The most bits that a field has.
pub const WIDEST: usize = 32;

// Whether a field has 1 to 32 bits and lies wholly in `len` bytes.
fn lies_within(len: usize, at: usize, width: usize) -> bool
    ensures { result ≡ within len at width }
{
    (1..=WIDEST).contains(&width) && at / 8 < len && (at % 8 + width + 7) / 8 <= len - at / 8
}

// The number that a few bytes stand for, high byte first.
fn number(bytes: &[u8]) -> u64
    requires { length bytes.now ≤ 5 }
    ensures { result ≡ value (bits_of bytes.now) }
{
    let mut n: u64 = 0;
    for &byte in bytes {
        n = (n << 8) | byte as u64;
    }
    n
}

// A few bytes hold the number, high byte first.
fn hold_number(bytes: &mut [u8], n: u64)
    requires { length bytes.old ≤ 5 }
    ensures { bytes.new ≡ bytes_of (length bytes.old) (digits (8 * length bytes.old) n) }
{
    let count = bytes.len();
    // byte by byte, since a copy of any other length than a fixed one is a call
    for i in 0..count {
        bytes[i] = ((n >> (8 * (count - 1 - i))) % 256) as u8;
    }
}

// The bytes that a field touches, from `first` up to `end`, and how many bits of the last one are past it.
#[derive(Clone, Copy)]
struct Touched {
    first: usize,
    end: usize,
    past: usize,
}

fn touched_by(at: usize, width: usize) -> Touched
    requires { (1 ≤ width) × (width ≤ widest) }
    ensures { (result.first ≡ at / 8) × (result.end ≡ (at + width + 7) / 8) × (result.past ≡ 8 * ((at + width + 7) / 8) - (at + width)) }
{
    let lead = at % 8;
    let span = (lead + width + 7) / 8;
    Touched {
        first: at / 8,
        end: at / 8 + span,
        past: 8 * span - lead - width,
    }
}

// The last `width` bits of a number.
fn low_bits(n: u64, width: usize) -> u64
    requires { width ≤ widest }
    ensures { result ≡ n % 2 ^ width }
{
    n & ((1 << width) - 1)
}

// A number with `v` instead of the `width` bits above its last `past`.
fn with_value(n: u64, width: usize, past: usize, v: u64) -> u64
    requires { (n < 2 ^ 40) × (width ≤ widest) × (past < 8) × (v < 2 ^ width) }
    ensures { result ≡ n / 2 ^ (width + past) * 2 ^ (width + past) + (v * 2 ^ past + n % 2 ^ past) }
{
    let above = n >> (width + past) << (width + past);
    above | (v << past) | low_bits(n, past)
}

// The number in the field of `width` bits from bit position `at` on, where there is such a field.
pub fn take_field(bytes: &[u8], at: usize, width: usize) -> Option<u32>
    ensures { result ≡ taken bytes.now at width }
{
    if !lies_within(bytes.len(), at, width) {
        return None;
    }
    let Touched { first, end, past } = touched_by(at, width);
    let run = number(&bytes[first..end]);
    Some(low_bits(run >> past, width) as u32)
}

// The number goes into the field of `width` bits from bit position `at` on, where there is such a field and the number fits it.
pub fn put_field(bytes: &mut [u8], at: usize, width: usize, value: u32) -> bool
    ensures { (result ≡ fits (length bytes.old) at width value) × (bytes.new ≡ stored bytes.old at width value) }
{
    if !lies_within(bytes.len(), at, width) {
        return false;
    }
    let v = value as u64;
    if v >> width != 0 {
        return false;
    }
    let Touched { first, end, past } = touched_by(at, width);
    let run = number(&bytes[first..end]);
    hold_number(&mut bytes[first..end], with_value(run, width, past, v));
    true
}
