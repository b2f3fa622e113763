// Request 15: the audit of a filled table.
use crate::connection::{Buffers, Connection, Stop};
use judge::AuditAnswer;

pub(crate) fn answer(connection: &mut Connection, buffers: &mut Buffers) -> Result<(), Stop> {
    let sheet = connection.read_blob(&mut buffers.first)?;
    let table = connection.read_blob(&mut buffers.second)?;
    let audited = judge::auditing::audit(sheet, table);
    connection.write_word("audit")?;
    connection.write_answer(&audited, audited.answer())
}
