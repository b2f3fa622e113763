// Request 6: three blobs are written as a sheet.
use crate::connection::{Buffers, Connection, Stop};

pub(crate) fn answer(connection: &mut Connection, buffers: &mut Buffers) -> Result<(), Stop> {
    let plan = connection.read_blob(&mut buffers.first)?;
    let actions = connection.read_blob(&mut buffers.second)?;
    let rule = connection.read_blob(&mut buffers.third)?;
    let out = connection.read_buffer(&mut buffers.fourth)?;
    let written = sheet::writer::write(plan, actions, rule, out);
    connection.write_word("write")?;
    connection.write_answer(&written, written.unwrap_or(0))?;
    connection.write_bytes("out", out)
}
