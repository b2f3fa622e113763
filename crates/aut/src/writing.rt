// The body of the plan, written.
ghost use Rattle.std.specs.Prelude.{◌<◌, ◌≤◌, length};
ghost use Rattle.aut.specs.Internal.Answering.{BodyWritten};

use crate::ConvertError;

// The body of so many states and labels and of the keys, at the front of out; its length.
pub(crate) fn write_body(
    states: u8,
    labels: u8,
    keys: &[u32],
    out: &mut [u8],
) -> Result<usize, ConvertError>
    requires { length keys.now ≤ 2048 }
    ensures { BodyWritten states labels keys.now out.old result out.new }
{
    let length = 4 + 3 * keys.len();
    if out.len() < length {
        return Err(ConvertError::OutputShort);
    }
    let [low, high] = (keys.len() as u16).to_le_bytes();
    out[..4].copy_from_slice(&[states, labels, low, high]);
    for (i, key) in keys.iter().enumerate() {
        let place = 4 + 3 * i;
        out[place..place + 3].copy_from_slice(&key.to_be_bytes()[1..]);
    }
    Ok(length)
}
