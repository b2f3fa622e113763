// Request 14: the shortest beginning, of either of two recordings, on which the rule fails.
use crate::connection::{Buffers, Connection, Stop};
use recordings::Failing;
use sheet::Numbered;

pub(crate) fn answer(connection: &mut Connection, buffers: &mut Buffers) -> Result<(), Stop> {
    let sheet = connection.read_blob(&mut buffers.first)?;
    let first = connection.read_blob(&mut buffers.second)?;
    let second = connection.read_blob(&mut buffers.third)?;
    let found = recordings::searching::shortest_failing(sheet, first, second);
    let answer = found.answer;
    print!(connection.output; "shortest {} {} ", answer.number(), answer.place())?;
    let which = match answer {
        Ok(Some(Failing::First(_))) => "first",
        Ok(Some(Failing::Second(_))) => "second",
        Ok(None) | Err(_) => "none",
    };
    connection.write_bytes(which, found.part)
}
