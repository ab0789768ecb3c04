// Steps the other way round.
ghost use Rattle.silent.specs.Steps.{TurnedSteps};

use crate::steps::LabelSteps;

impl<'a> LabelSteps<'a> {
    // The steps the other way round: each leads from its target to its source.
    pub fn turned(self) -> LabelSteps<'a>
        ensures { TurnedSteps self.entry result }
    {
        LabelSteps {
            n: self.n,
            from: self.from,
            sources: self.targets,
            targets: self.sources,
        }
    }
}
