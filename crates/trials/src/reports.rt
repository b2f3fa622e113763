// Request 10: a list of queries is reported as text for the counter terminal.
use crate::connection::{Buffers, Connection, Stop};
use report::ReportAnswer;

pub(crate) fn answer(connection: &mut Connection, buffers: &mut Buffers) -> Result<(), Stop> {
    let sheet = connection.read_blob(&mut buffers.first)?;
    let states = connection.read_blob(&mut buffers.second)?;
    let table = connection.read_buffer(&mut buffers.third)?;
    let out = connection.read_buffer(&mut buffers.fourth)?;
    let reported = report::reporting::report(sheet, states, table, out);
    connection.write_word("report")?;
    connection.write_answer(&reported, reported.length())?;
    connection.write_bytes("table", table)?;
    connection.write_bytes("out", out)
}
