// The trial driver: reads requests from standard input until it ends, and writes the result of each as text.
#![tactic(auto)]

mod allowed;
mod audited;
mod branch;
mod children;
mod connection;
mod convert;
mod digits;
mod guard;
mod line;
mod list;
mod nearest;
mod pattern;
mod query;
mod read;
mod recorded;
mod refer;
mod reports;
mod request;
mod write;

use connection::{BUFFER_LENGTH, Buffers, Connection, Stop};
use request::Request;
use std::io;

fn answer_next(connection: &mut Connection, buffers: &mut Buffers) -> Result<(), Stop> {
    let number = connection.read_u8()?;
    let request = Request::try_from(number)?;
    request.answer(connection, buffers)
}

// A proved loop has to end, so it has a number of turns that no run uses up.
fn main(rt: HostRuntime) -> io::Result<()> {
    let mut connection = Connection::new(&rt);
    let mut buffers = Buffers {
        first: [0; BUFFER_LENGTH],
        second: [0; BUFFER_LENGTH],
        third: [0; BUFFER_LENGTH],
        fourth: [0; BUFFER_LENGTH],
    };
    for _ in 0..u64::MAX {
        match answer_next(&mut connection, &mut buffers) {
            Ok(()) => {}
            Err(Stop::Failed(error)) => return Err(error),
            Err(Stop::InputEnded | Stop::NoSuchRequest) => return Ok(()),
        }
    }
    Ok(())
}
