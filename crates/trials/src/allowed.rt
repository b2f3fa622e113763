// Request 16: one allowance of visits for several benches.
use crate::connection::{Buffers, Connection, Stop};
use allowance::Bench;
use sheet::Numbered;

pub(crate) fn answer(connection: &mut Connection, buffers: &mut Buffers) -> Result<(), Stop> {
    let sheet = connection.read_blob(&mut buffers.first)?;
    let states = connection.read_blob(&mut buffers.second)?;
    let visits = connection.read_u32()?;
    let tables = connection.read_blob(&mut buffers.third)?;
    let granted = allowance::granting::grant(sheet, states, visits, tables);
    println!(connection.output; "allowance {} {}", granted.number(), granted.place())?;
    if let Ok(benches) = granted {
        // The first benches are those of the states.
        for &bench in benches.iter().take(states.len()) {
            let Bench {
                need,
                grant,
                short,
                verdict,
                visits,
            } = bench;
            println!(connection.output; "bench {need} {grant} {short} {verdict} {visits}")?;
        }
    }
    connection.write_bytes("table", tables)
}
