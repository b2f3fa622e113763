// Request 3: the reference judge on a blob.
use crate::connection::{Buffers, Connection, Stop};

pub(crate) fn answer(connection: &mut Connection, buffers: &mut Buffers) -> Result<(), Stop> {
    let sheet = connection.read_blob(&mut buffers.first)?;
    connection.write_word("reference")?;
    let word = reference::judging::reference(sheet);
    connection.write_answer(&word, word.unwrap_or(0))
}
