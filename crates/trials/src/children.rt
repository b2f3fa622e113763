// Request 8: how many children a node of a kind has.
use crate::connection::{Connection, Stop};

pub(crate) fn answer(connection: &mut Connection) -> Result<(), Stop> {
    let kind = connection.read_u8()?;
    connection.write_word("children")?;
    println!(connection.output; " {}", sheet::kinds::child_count(kind))?;
    Ok(())
}
