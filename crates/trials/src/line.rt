// Request 9: a line becomes the body of an action table.
use crate::connection::{Buffers, Connection, Stop};
use action_line::ParseAnswer;

pub(crate) fn answer(connection: &mut Connection, buffers: &mut Buffers) -> Result<(), Stop> {
    let actions = connection.read_u8()?;
    let line = connection.read_blob(&mut buffers.first)?;
    let out = connection.read_buffer(&mut buffers.second)?;
    let parsed = action_line::parsing::parse(actions, line, out);
    connection.write_word("line")?;
    connection.write_answer(&parsed, parsed.length())?;
    connection.write_bytes("out", out)
}
