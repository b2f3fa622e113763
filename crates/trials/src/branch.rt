// Requests 12 and 13: a branch is proposed for a sheet, and added to one by a proposal.
use crate::connection::{Buffers, Connection, Stop};
use branches::{CommitAnswer, Proposal, ProposeAnswer};
use sheet::{Action, Numbered, State, Transition};

// A transition: from, action, to.
fn read_branch(connection: &mut Connection) -> Result<Transition, Stop> {
    Ok(Transition {
        from: State(connection.read_u8()?),
        action: Action(connection.read_u8()?),
        to: State(connection.read_u8()?),
    })
}

// A proposal: its place and its length of 16 bits, its tag of 32.
fn read_proposal(connection: &mut Connection) -> Result<Proposal, Stop> {
    Ok(Proposal {
        insertion: connection.read_u16()?,
        length: usize::from(connection.read_u16()?),
        tag: connection.read_u32()?,
    })
}

pub(crate) fn answer_propose(
    connection: &mut Connection,
    buffers: &mut Buffers,
) -> Result<(), Stop> {
    let sheet = connection.read_blob(&mut buffers.first)?;
    let branch = read_branch(connection)?;
    let proposed = branches::proposing::propose(sheet, branch);
    let Proposal {
        insertion,
        length,
        tag,
    } = proposed.proposal();
    println!(connection.output;
        "propose {} {} {insertion} {length} {tag}",
        proposed.number(),
        proposed.place()
    )?;
    Ok(())
}

pub(crate) fn answer_commit(
    connection: &mut Connection,
    buffers: &mut Buffers,
) -> Result<(), Stop> {
    let sheet = connection.read_blob(&mut buffers.first)?;
    let branch = read_branch(connection)?;
    let proposal = read_proposal(connection)?;
    let out = connection.read_buffer(&mut buffers.second)?;
    let committed = branches::committing::commit(sheet, branch, proposal, out);
    connection.write_word("commit")?;
    connection.write_answer(&committed, committed.length())?;
    connection.write_bytes("out", out)
}
