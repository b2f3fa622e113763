// The requests, by their numbers (docs/TRIALS.md).
use crate::connection::{Buffers, Connection, Stop};
use crate::{
    allowed, audited, branch, children, convert, guard, line, list, nearest, pattern, query, read,
    recorded, refer, reports, write,
};

#[derive(Clone, Copy)]
pub(crate) enum Request {
    Read,
    Guard,
    Refer,
    List,
    Query,
    Write,
    Pattern,
    Children,
    Line,
    Report,
    Convert,
    Propose,
    Commit,
    Recorded,
    Audited,
    Allowed,
    Nearest,
}

impl TryFrom<u8> for Request {
    type Error = Stop;

    fn try_from(number: u8) -> Result<Request, Stop> {
        Ok(match number {
            1 => Request::Read,
            2 => Request::Guard,
            3 => Request::Refer,
            4 => Request::List,
            5 => Request::Query,
            6 => Request::Write,
            7 => Request::Pattern,
            8 => Request::Children,
            9 => Request::Line,
            10 => Request::Report,
            11 => Request::Convert,
            12 => Request::Propose,
            13 => Request::Commit,
            14 => Request::Recorded,
            15 => Request::Audited,
            16 => Request::Allowed,
            17 => Request::Nearest,
            _ => return Err(Stop::NoSuchRequest),
        })
    }
}

impl Request {
    // Reads the operands, all of them before a line is written, makes the calls and writes their lines.
    pub(crate) fn answer(
        self,
        connection: &mut Connection,
        buffers: &mut Buffers,
    ) -> Result<(), Stop> {
        match self {
            Request::Read => read::answer(connection, buffers),
            Request::Guard => guard::answer(connection, buffers),
            Request::Refer => refer::answer(connection, buffers),
            Request::List => list::answer(connection, buffers),
            Request::Query => query::answer(connection, buffers),
            Request::Write => write::answer(connection, buffers),
            Request::Pattern => pattern::answer(connection, buffers),
            Request::Children => children::answer(connection),
            Request::Line => line::answer(connection, buffers),
            Request::Report => reports::answer(connection, buffers),
            Request::Convert => convert::answer(connection, buffers),
            Request::Propose => branch::answer_propose(connection, buffers),
            Request::Commit => branch::answer_commit(connection, buffers),
            Request::Recorded => recorded::answer(connection, buffers),
            Request::Audited => audited::answer(connection, buffers),
            Request::Allowed => allowed::answer(connection, buffers),
            Request::Nearest => nearest::answer(connection, buffers),
        }
    }
}
