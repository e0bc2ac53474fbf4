// The check word of a byte string, by long division bit by bit; whether a byte string is sealed; and the sealing.
#![tactic(auto)]

ghost use Rattle.std.specs.Prelude.{◌≡◌, leb, length};
ghost use Rattle.check_word.specs.Division.{word_size, check_word, sealed, with_seal};
ghost use Rattle.check_word.specs.Inside.Register.{shifted, fed};

// The check word's size in bytes.
pub const SIZE: usize = 2;

// The register moves up by one bit. The bit that goes out at the top tells whether the polynomial, x^12 + x^5 + 1 behind its leading one, is subtracted.
fn shift(c: u16) -> u16
    ensures { result ≡ shifted 1 c }
{
    if 0x8000 <= c {
        (c << 1) ^ 0x1021
    } else {
        c << 1
    }
}

// One byte: added at the top, since its bits are the next to go out.
fn feed(c: u16, b: u8) -> u16
    ensures { result ≡ fed c b }
{
    let mut r = c ^ ((b as u16) << 8);
    for _ in 0..u8::BITS {
        r = shift(r);
    }
    r
}

// The check word of all the bytes, started at all ones.
pub fn check_word(bytes: &[u8]) -> u16
    ensures { result ≡ check_word bytes.now }
{
    bytes.iter().fold(0xFFFF, |c, &b| feed(c, b))
}

// Whether the last two bytes are the check word of those before them, the high byte first.
pub fn sealed(bytes: &[u8]) -> bool
    ensures { result ≡ sealed bytes.now }
{
    match bytes.split_last_chunk::<SIZE>() {
        Some((body, &word)) => u16::from_be_bytes(word) == check_word(body),
        None => false,
    }
}

// Puts the check word of all but the last two bytes into these, the high byte first; says whether there are two.
pub fn seal(bytes: &mut [u8]) -> bool
    ensures { (result ≡ leb word_size (length bytes.old)) × (bytes.new ≡ with_seal bytes.old) }
{
    let Some((body, word)) = bytes.split_last_chunk_mut::<SIZE>() else {
        return false;
    };
    *word = check_word(body).to_be_bytes();
    true
}
