// Request 17: the closest state that breaks the rule.
use crate::connection::{Buffers, Connection, Stop};
use closest::ClosestAnswer;
use sheet::Numbered;

pub(crate) fn answer(connection: &mut Connection, buffers: &mut Buffers) -> Result<(), Stop> {
    let sheet = connection.read_blob(&mut buffers.first)?;
    let table = connection.read_blob(&mut buffers.second)?;
    let answer = closest::finding::find_closest(sheet, table);
    println!(connection.output;
        "closest {} {} {} {} {} {}",
        answer.number(),
        answer.place(),
        answer.found(),
        answer.state().0,
        answer.steps(),
        answer.visits()
    )?;
    connection.write_bytes("table", table)
}
