// One pass over the cells of a table: whether a byte is over 2, and how many are filled. It goes by blocks whose filled cells a byte can
// count, so that the compiler takes many bytes at a step.
ghost use Rattle.std.specs.Prelude.{◌≡◌, ◌<◌, length};
ghost use Rattle.judge.specs.Internal.Scanning.{scan_of};
ghost use Rattle.judge.specs.Internal.Auditing.{StatesScanned, ScannedRequires};

use graph::Starts;
use sheet::Refusal;

// As many as a byte can count, in whole steps of 32.
const BLOCK: usize = 224;

fn scan_bytes(bytes: &[u8]) -> Result<u8, Refusal>
    requires { length bytes.now < 256 }
    ensures { result ≡ scan_of bytes.now }
{
    let mut highest: u8 = 0;
    let mut filled: u8 = 0;
    for byte in bytes {
        highest = highest.max(*byte);
        let one = (*byte).min(1);
        filled += one;
    }
    if highest > 2 {
        Err(Refusal::TableByte)
    } else {
        Ok(filled)
    }
}

// A block of the whole length goes apart, so that the loop over it has a length that the compiler knows.
fn scan_block(block: &[u8]) -> Result<u8, Refusal>
    requires { length block.now < 256 }
    ensures { result ≡ scan_of block.now }
{
    if block.len() == BLOCK {
        scan_bytes(&block[..BLOCK])
    } else {
        scan_bytes(block)
    }
}

// How many of the cells are filled.
pub(crate) fn scan(cells: &[u8]) -> Result<usize, Refusal>
    ensures { result ≡ scan_of cells.now }
{
    let mut filled = 0;
    for block in cells.chunks(BLOCK) {
        filled += usize::from(scan_block(block)?);
    }
    Ok(filled)
}

// How many cells of all states are filled, width cells each, and in starts which states have one.
pub(crate) fn scan_states(cells: &[u8], width: usize, starts: &mut Starts) -> Result<usize, Refusal>
    requires { ScannedRequires cells.now width starts.old }
    ensures { StatesScanned cells.now width result starts.new }
{
    let mut filled = 0;
    for (s, row) in cells.chunks_exact(width).enumerate() {
        let in_row = scan(row)?;
        if in_row != 0 {
            starts[s] = 1;
        }
        filled += in_row;
    }
    Ok(filled)
}
