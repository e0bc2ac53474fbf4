// The converter: a sheet of one version becomes the sheet of the other that carries the same policy and tasks.
#![tactic(auto)]

ghost use Rattle.std.specs.Prelude.{◌≡◌, ◌≤◌};
ghost use Rattle.sheet.specs.Constants.{version_2};
ghost use Rattle.converter.specs.Converting.{other_version, converted, converted_left};

use sheet::{Refusal, Sheet};

// The version that a converter to this one takes.
fn other_version(version: u32) -> u32
    requires { version ≤ version_2 }
    ensures { result ≡ other_version version }
{
    Sheet::VERSION_1 + Sheet::VERSION_2 - version
}

// The sheet in the version told goes into the first of the lent bytes; the answer is how many, or the one refusal, and then nothing is touched.
pub fn convert(version: u32, sheet: &[u8], out: &mut [u8]) -> Result<usize, Refusal>
    ensures { (result ≡ converted version sheet.now out.old) × (out.new ≡ converted_left version sheet.now out.old) }
{
    if !sheet::version_among(Sheet::VERSION_1, Sheet::VERSION_2, version) {
        return Err(Refusal::Version);
    }
    let taken = other_version(version);
    let reading = reader::read_among(sheet, taken, taken)?;
    writer::write_sheet(version, reading.set, out)
}
