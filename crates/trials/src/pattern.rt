// Request 7: a pattern becomes a rule body.
use crate::connection::{Buffers, Connection, Stop};
use patterns::TranslateAnswer;

pub(crate) fn answer(connection: &mut Connection, buffers: &mut Buffers) -> Result<(), Stop> {
    let sheet = connection.read_blob(&mut buffers.first)?;
    let pattern = connection.read_blob(&mut buffers.second)?;
    let out = connection.read_buffer(&mut buffers.third)?;
    let translated = patterns::translating::translate(sheet, pattern, out);
    connection.write_word("pattern")?;
    connection.write_answer(&translated, translated.length())?;
    connection.write_bytes("out", out)
}
