// Request 2: the guard check of a blob.
use crate::connection::{Buffers, Connection, Stop};

pub(crate) fn answer(connection: &mut Connection, buffers: &mut Buffers) -> Result<(), Stop> {
    let sheet = connection.read_blob(&mut buffers.first)?;
    connection.write_word("guard")?;
    let guarded = calculus::guardedness::guard(sheet);
    connection.write_answer(&guarded, guarded.unwrap_or(false))
}
