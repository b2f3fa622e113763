// Request 4: a table is lent to clearing, then to each query of a list.
use crate::connection::{Buffers, Connection, Stop};
use crate::query::query;
use sheet::{Numbered, State};

pub(crate) fn answer(connection: &mut Connection, buffers: &mut Buffers) -> Result<(), Stop> {
    let sheet = connection.read_blob(&mut buffers.first)?;
    let table = connection.read_buffer(&mut buffers.second)?;
    let states = connection.read_blob(&mut buffers.third)?;
    connection.write_word("clear")?;
    let cleared = judge::clearing::clear(sheet, table);
    println!(connection.output; " {} {}", cleared.number(), cleared.place())?;
    for &state in states.iter() {
        query(connection, sheet, State(state), table)?;
    }
    connection.write_bytes("table", table)
}
