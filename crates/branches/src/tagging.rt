// The tag of a sheet: 32-bit FNV-1a over its bytes.
ghost use Rattle.std.specs.Prelude.{◌≡◌, ◌*◌};
ghost use Rattle.branches.specs.Tags.{wrapped, tag_with, tag_of};

const START: u32 = 2166136261;

const MULTIPLIER: u32 = 16777619;

// The product modulo 2 to the 32.
fn wrapping_mul(x: u32, y: u32) -> u32
    ensures { result ≡ wrapped (x * y) }
{
    x.wrapping_mul(y)
}

// The tag so far and one byte more.
fn tag_with(tag: u32, byte: u8) -> u32
    ensures { result ≡ tag_with tag byte }
{
    wrapping_mul(tag ^ u32::from(byte), MULTIPLIER)
}

// The tag of a sheet, or of any bytes.
pub(crate) fn tag(sheet: &[u8]) -> u32
    ensures { result ≡ tag_of sheet.now }
{
    let mut tag = START;
    for byte in sheet {
        tag = tag_with(tag, *byte);
    }
    tag
}
