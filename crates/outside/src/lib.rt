// C faces of the leaves, through which programs beside the proofs compare bits and check word with their own.
#![tactic(auto)]

ghost use Rattle.std.specs.Prelude.{◌≡◌, leb, length};
ghost use Rattle.bits.specs.Faces.{taken, fits, stored};
ghost use Rattle.check_word.specs.Division.{word_size, check_word, sealed, with_seal};
ghost use Rattle.outside.specs.Numbers.{number_seen};

fn number_seen(t: Option<u32>) -> u64
    ensures { result ≡ number_seen t }
{
    t.map_or(0x1_0000_0000, u64::from)
}

#[unsafe(no_mangle)]
pub extern "C" fn burrbeech_take_field(bytes: &[u8], at: usize, width: usize) -> u64
    ensures { result ≡ number_seen (taken bytes.now at width) }
{
    number_seen(bits::take_field(bytes, at, width))
}

#[unsafe(no_mangle)]
pub extern "C" fn burrbeech_put_field(bytes: &mut [u8], at: usize, width: usize, value: u32) -> bool
    ensures { (result ≡ fits (length bytes.old) at width value) × (bytes.new ≡ stored bytes.old at width value) }
{
    bits::put_field(bytes, at, width, value)
}

#[unsafe(no_mangle)]
pub extern "C" fn burrbeech_check_word(bytes: &[u8]) -> u16
    ensures { result ≡ check_word bytes.now }
{
    check_word::check_word(bytes)
}

#[unsafe(no_mangle)]
pub extern "C" fn burrbeech_sealed(bytes: &[u8]) -> bool
    ensures { result ≡ sealed bytes.now }
{
    check_word::sealed(bytes)
}

#[unsafe(no_mangle)]
pub extern "C" fn burrbeech_seal(bytes: &mut [u8]) -> bool
    ensures { (result ≡ leb word_size (length bytes.old)) × (bytes.new ≡ with_seal bytes.old) }
{
    check_word::seal(bytes)
}
