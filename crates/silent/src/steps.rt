// The low and the silent steps of states by label, as they are lent.
ghost use Rattle.silent.specs.Labelled.{LabelList};

use crate::LABELS_LENGTH;
use text::limits::MOVES_LENGTH;

// The steps of n states: those with label a stand in the lists of sources and targets from place from[a] up to place
// from[a + 1].
#[derive(Clone, Copy)]
pub struct LabelSteps<'a> {
    pub n: u16,
    pub from: &'a [u16; LABELS_LENGTH],
    pub sources: &'a [u16; MOVES_LENGTH],
    pub targets: &'a [u16; MOVES_LENGTH],
    pub ghost listed: { LabelList n from.now sources.now targets.now },
}
