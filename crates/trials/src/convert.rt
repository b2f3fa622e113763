// Request 11: an .aut text becomes a plan body.
use crate::connection::{Buffers, Connection, Stop};
use aut::ConvertAnswer;

// Not inlined: the arrays of the conversion would lie in the frame from which every call is made.
#[inline(never)]
pub(crate) fn answer(connection: &mut Connection, buffers: &mut Buffers) -> Result<(), Stop> {
    let text = connection.read_blob(&mut buffers.first)?;
    let out = connection.read_buffer(&mut buffers.second)?;
    let converted = aut::converting::convert(text, out);
    connection.write_word("aut")?;
    connection.write_answer(&converted, converted.length())?;
    connection.write_bytes("out", out)
}
