// Request 5: one query on a table as given.
use crate::connection::{Buffers, Connection, Stop};
use judge::QueryAnswer;
use sheet::{Numbered, State};

// Asks for the verdict at a state and writes the line of the answer.
pub(crate) fn query(
    connection: &Connection,
    sheet: &[u8],
    state: State,
    table: &mut [u8],
) -> Result<(), Stop> {
    connection.write_word("query")?;
    let answer = judge::querying::query(sheet, state, table);
    println!(connection.output;
        " {} {} {} {}",
        answer.number(),
        answer.place(),
        answer.verdict(),
        answer.visits()
    )?;
    Ok(())
}

pub(crate) fn answer(connection: &mut Connection, buffers: &mut Buffers) -> Result<(), Stop> {
    let sheet = connection.read_blob(&mut buffers.first)?;
    let state = State(connection.read_u8()?);
    let table = connection.read_blob(&mut buffers.second)?;
    query(connection, sheet, state, table)?;
    connection.write_bytes("table", table)
}
