// The operation Write.
ghost use Rattle.read_write.specs.WritePromise.{write_outcome, WritePromise};

use model::good::good;
use model::refusal::{Refusal, long_enough};
use text::limits::{OUT_LENGTH, STORE_LENGTH};
use writer::position::Position;

// Puts the text that reads to the store at the front of `out`.
pub fn write(store: &[u16], out: &mut [u8]) -> Result<usize, Refusal>
    ensures { WritePromise store.now out.old (write_outcome result) out.new }
{
    long_enough(1, store.len(), STORE_LENGTH)?;
    long_enough(2, out.len(), OUT_LENGTH)?;
    if !good(store) {
        return Err(Refusal::NotGood);
    }
    Ok(Position::start().model(out, store).at)
}
