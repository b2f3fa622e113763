// What a request's operands are read from, low byte first, and its lines are written to.
use crate::digits;
use sheet::Numbered;
use std::fmt::Display;
use std::io;
use std::io::{Print, Stdin, Stdout};

// Room for a blob or a buffer of any length that 16 bits allow.
pub(crate) const BUFFER_LENGTH: usize = 65536;

pub(crate) type Buffer = [u8; BUFFER_LENGTH];

// Where the blobs and buffers of a request lie. They hold what an earlier request left: a request lends the calls only bytes that it has
// read or filled.
#[derive(Drop)]
pub(crate) struct Buffers {
    pub(crate) first: Buffer,
    pub(crate) second: Buffer,
    pub(crate) third: Buffer,
    pub(crate) fourth: Buffer,
}

// Bytes are written as two digits each, so many bytes at once.
const CHUNK: usize = 2048;

// Why no further request is answered.
#[derive(Debug, Drop)]
pub(crate) enum Stop {
    // The input ended before the request did.
    InputEnded,
    // The byte is the number of no request.
    NoSuchRequest,
    // A read or a write failed.
    Failed(io::Error),
}

impl From<io::Error> for Stop {
    fn from(error: io::Error) -> Stop {
        Stop::Failed(error)
    }
}

#[derive(Clone, Copy)]
pub(crate) struct Connection {
    input: Stdin,
    pub(crate) output: Stdout,
}

impl Connection {
    pub(crate) fn new(rt: &HostRuntime) -> Connection {
        Connection {
            input: rt.stdin(),
            output: rt.stdout(),
        }
    }

    fn fill(&mut self, bytes: &mut [u8]) -> Result<(), Stop> {
        let count = streams::read_full(&mut self.input, bytes)?;
        if count < bytes.len() {
            return Err(Stop::InputEnded);
        }
        Ok(())
    }

    fn read_array<const N: usize>(&mut self) -> Result<[u8; N], Stop> {
        let mut bytes = [0u8; N];
        self.fill(&mut bytes)?;
        Ok(bytes)
    }

    pub(crate) fn read_u8(&mut self) -> Result<u8, Stop> {
        let bytes = self.read_array()?;
        Ok(u8::from_le_bytes(bytes))
    }

    pub(crate) fn read_u16(&mut self) -> Result<u16, Stop> {
        let bytes = self.read_array()?;
        Ok(u16::from_le_bytes(bytes))
    }

    pub(crate) fn read_u32(&mut self) -> Result<u32, Stop> {
        let bytes = self.read_array()?;
        Ok(u32::from_le_bytes(bytes))
    }

    // A blob: its length, and its bytes, which come to lie at the start of the buffer.
    pub(crate) fn read_blob<'b>(&mut self, buffer: &'b mut Buffer) -> Result<&'b mut [u8], Stop> {
        let length = self.read_u16()?;
        let bytes = &mut buffer[..usize::from(length)];
        self.fill(bytes)?;
        Ok(bytes)
    }

    // A buffer: its length, and the byte that fills so much of it.
    pub(crate) fn read_buffer<'b>(&mut self, buffer: &'b mut Buffer) -> Result<&'b mut [u8], Stop> {
        let length = self.read_u16()?;
        let byte = self.read_u8()?;
        let bytes = &mut buffer[..usize::from(length)];
        bytes.fill(byte);
        Ok(bytes)
    }

    // The word that begins a line.
    pub(crate) fn write_word(&self, word: &str) -> Result<(), Stop> {
        self.output.write_all(word.as_bytes())?;
        Ok(())
    }

    // The rest of a line: the number and the place of an answer, and what it reports besides.
    pub(crate) fn write_answer<A: Numbered, T: Display + Drop>(
        &self,
        answer: &A,
        reported: T,
    ) -> Result<(), Stop> {
        let number = answer.number();
        let place = answer.place();
        println!(self.output; " {number} {place} {reported}")?;
        Ok(())
    }

    // A line of a word and the bytes of a buffer, two digits each.
    pub(crate) fn write_bytes(&self, word: &str, bytes: &[u8]) -> Result<(), Stop> {
        print!(self.output; "{word} ")?;
        self.write_digits(bytes)?;
        self.output.write_all(b"\n")?;
        Ok(())
    }

    fn write_digits(&self, bytes: &[u8]) -> Result<(), Stop> {
        let mut digits = [0u8; 2 * CHUNK];
        for piece in bytes.chunks(CHUNK) {
            let spelled = &mut digits[..2 * piece.len()];
            digits::spell(piece, spelled);
            self.output.write_all(spelled)?;
        }
        Ok(())
    }
}
