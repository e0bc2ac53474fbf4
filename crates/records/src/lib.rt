// Packed records: rows of fields put into a byte string and taken from it, zero bits up to a whole byte, the check word behind.
#![tactic(auto)]

ghost use Rattle.std.specs.Prelude.{true, ◌≡◌, ◌+◌, ◌<◌, length, drop, unwrap_or};
ghost use Rattle.bits.specs.Packed.{bits_of};
ghost use Rattle.lent.specs.Lent.{laid};
ghost use Rattle.records.specs.Rows.{packed, unpacked, total};
ghost use Rattle.records.specs.Sealed.{sealed_size, rest_of};
ghost use Rattle.records.specs.Faces.{lawful, row_there, each_fits, ends, row_fits, stored_row, row_has_slots, taken_row, width_of, closes, closed};
ghost use Rattle.records.specs.Inside.Steps.{Placed};

// What stands behind the last field that may not: eight bits or more, or fill with a bit set.
#[derive(Debug, Clone, Copy, PartialEq, Eq)]
pub enum Surplus {
    ByteLeft,
    BitSet,
}

// Whether fields from a position on lie in `len` bytes.
fn row_there(len: usize, at: usize, widths: &[usize]) -> bool
    ensures { result ≡ row_there len at widths.now }
{
    let Some(mut left) = len.saturating_mul(8).checked_sub(at) else {
        return false;
    };
    for &width in widths {
        if !(1..=bits::WIDEST).contains(&width) || left < width {
            return false;
        }
        left -= width;
    }
    true
}

// Whether there are as many numbers as fields, and each fits its own.
fn each_fits(widths: &[usize], numbers: &[u32]) -> bool
    requires { lawful widths.now ≡ true }
    ensures { result ≡ each_fits widths.now numbers.now }
{
    if widths.len() != numbers.len() {
        return false;
    }
    for (&width, &number) in widths.iter().zip(numbers) {
        if number as u64 >> width != 0 {
            return false;
        }
    }
    true
}

// The numbers go into fields that are there and fit them, one behind the other; the answer is the position behind the last.
fn put_fields(bytes: &mut [u8], at: usize, widths: &[usize], numbers: &[u32]) -> usize
    requires { row_fits (length bytes.old) at widths.now numbers.now ≡ true }
    ensures { Placed bytes.old at (packed widths.now numbers.now) bytes.new result }
{
    let mut next = at;
    for (&width, &number) in widths.iter().zip(numbers) {
        bits::put_field(bytes, next, width, number);
        next += width;
    }
    next
}

// Numbers go into fields of the given widths from a bit position on: all of them, and the answer is the position behind the last, or none.
pub fn put_row(bytes: &mut [u8], at: usize, widths: &[usize], numbers: &[u32]) -> Option<usize>
    ensures { (result ≡ ends (row_fits (length bytes.old) at widths.now numbers.now) at widths.now) × (bytes.new ≡ stored_row bytes.old at widths.now numbers.now) }
{
    if !row_there(bytes.len(), at, widths) || !each_fits(widths, numbers) {
        return None;
    }
    Some(put_fields(bytes, at, widths, numbers))
}

// A row is put as by `put_row`; the answer is the position for the next one: behind it, and where nothing was touched the one handed in.
pub fn append_row(bytes: &mut [u8], at: usize, widths: &[usize], numbers: &[u32]) -> usize
    ensures { (result ≡ unwrap_or (ends (row_fits (length bytes.old) at widths.now numbers.now) at widths.now) at) × (bytes.new ≡ stored_row bytes.old at widths.now numbers.now) }
{
    put_row(bytes, at, widths, numbers).unwrap_or(at)
}

// The numbers of fields that are there go into the first of the lent numbers; the answer is the position behind the last field.
fn take_fields(bytes: &[u8], at: usize, widths: &[usize], numbers: &mut [u32]) -> usize
    requires { row_has_slots (length bytes.now) at widths.now (length numbers.old) ≡ true }
    ensures { (result ≡ at + total widths.now) × (numbers.new ≡ laid (unpacked widths.now (drop at (bits_of bytes.now))) numbers.old) }
{
    let mut next = at;
    for (i, &width) in widths.iter().enumerate() {
        numbers[i] = bits::take_field(bytes, next, width).unwrap_or(0);
        next += width;
    }
    next
}

// The numbers of fields of the given widths from a bit position on go into the first of the lent numbers: all of them, and the answer is the position behind the last field, or none.
pub fn take_row(bytes: &[u8], at: usize, widths: &[usize], numbers: &mut [u32]) -> Option<usize>
    ensures { (result ≡ ends (row_has_slots (length bytes.now) at widths.now (length numbers.old)) at widths.now) × (numbers.new ≡ taken_row bytes.now at widths.now numbers.old) }
{
    if !row_there(bytes.len(), at, widths) || numbers.len() < widths.len() {
        return None;
    }
    Some(take_fields(bytes, at, widths, numbers))
}

// How many bits fields take, as far as a position can tell.
pub fn width_of(widths: &[usize]) -> usize
    ensures { result ≡ width_of widths.now }
{
    let mut sum: usize = 0;
    for &width in widths {
        // what follows adds nothing more
        let Some(more) = sum.checked_add(width) else {
            return usize::MAX;
        };
        sum = more;
    }
    sum
}

// Whether fewer than eight zeros stand from a bit position on, where the last field ends.
pub fn left_behind(bytes: &[u8], at: usize) -> Result<(), Surplus>
    ensures { result ≡ rest_of (drop at (bits_of bytes.now)) }
{
    let (byte, used) = (at / 8, at % 8);
    if bytes.len() <= byte {
        return Ok(());
    }
    if used == 0 || byte + 1 < bytes.len() {
        return Err(Surplus::ByteLeft);
    }
    if bits::take_field(bytes, at, 8 - used).unwrap_or(0) != 0 {
        return Err(Surplus::BitSet);
    }
    Ok(())
}

// How many bytes a sealed record of so many bits has.
pub fn sealed_size(bits: usize) -> usize
    ensures { result ≡ sealed_size bits }
{
    bits.div_ceil(8) + check_word::SIZE
}

// Makes a string the sealed record of its first bits, where it has that record's size: zero bits up to a whole byte, the check word behind.
pub fn close(bytes: &mut [u8], bits: usize) -> bool
    ensures { (result ≡ closes (length bytes.old) bits) × (bytes.new ≡ closed bytes.old bits) }
{
    if bytes.len() != sealed_size(bits) {
        return false;
    }
    bits::put_field(bytes, bits, (8 - bits % 8) % 8, 0);
    check_word::seal(bytes);
    true
}
