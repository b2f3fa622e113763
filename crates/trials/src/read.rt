// Request 1: a blob is read as a sheet.
use crate::connection::{Buffers, Connection, Stop};
use sheet::{Bodies, Numbered, Span};

const NOWHERE: Span = Span {
    offset: 0,
    length: 0,
};

const NO_BODIES: Bodies = Bodies {
    plan: NOWHERE,
    actions: NOWHERE,
    rule: NOWHERE,
};

pub(crate) fn answer(connection: &mut Connection, buffers: &mut Buffers) -> Result<(), Stop> {
    let sheet = connection.read_blob(&mut buffers.first)?;
    connection.write_word("read")?;
    let read = sheet::reader::read(sheet);
    let Bodies {
        plan,
        actions,
        rule,
    } = read.unwrap_or(NO_BODIES);
    println!(connection.output;
        " {} {} {} {} {} {} {} {}",
        read.number(),
        read.place(),
        plan.offset,
        plan.length,
        actions.offset,
        actions.length,
        rule.offset,
        rule.length
    )?;
    Ok(())
}
