// The operation Read.
ghost use Rattle.std.specs.Prelude.{◌≡◌};
ghost use Rattle.read_write.specs.declared.read.ReadRefusal.TheVariants.{Faulty};
ghost use Rattle.read_write.specs.ReadPromise.{read_outcome, ReadPromise, ReadCause};

use reader::answers::LineFault;
use reader::reader::read_lines;
use text::limits::{STORE_LENGTH, TEXT_LIMIT};

// Why Read refuses: a list is too short, the text is too long, or a line of it is bad.
#[derive(Clone, Copy, PartialEq, Eq)]
pub enum ReadRefusal {
    ShortList(usize),
    TooLong,
    Faulty(LineFault),
}

impl From<LineFault> for ReadRefusal {
    ghost from_gives = { λ bad refusal. refusal ≡ Faulty bad };

    fn from(bad: LineFault) -> ReadRefusal {
        ReadRefusal::Faulty(bad)
    }
}

// Reads a text into a store. A refusal leaves the store as it was.
pub fn read(text: &[u8], store: &mut [u16]) -> Result<(), ReadRefusal>
    ensures read_promise { ReadPromise text.now store.old (read_outcome result) store.new }
    ensures read_cause { ReadCause text.now store.old result }
{
    if store.len() < STORE_LENGTH {
        return Err(ReadRefusal::ShortList(2));
    }
    if TEXT_LIMIT < text.len() {
        return Err(ReadRefusal::TooLong);
    }
    read_lines(text, store)?;
    Ok(())
}
