// The names of the low actions with a step from a state.
ghost use Rattle.std.specs.Prelude.{[], ◌∷◌, ◌++◌, ◌≡◌, ◌+◌, ◌≤◌, ◌<◌, length};
ghost use Rattle.text.specs.Decides.{Decides};
ghost use Rattle.model.specs.StoredModel.{model_at};
ghost use Rattle.model.specs.System.{action, name_of};
ghost use Rattle.model.specs.Inner.Roles.{RolesOf};
ghost use Rattle.model.specs.Inner.Stored.{Stored};
ghost use Rattle.writer.specs.Inner.Writable.{Writable};
ghost use Rattle.writer.specs.Wrote.{Wrote};
ghost use Rattle.columns.specs.Rows.{blanks};
ghost use Rattle.columns.specs.Inner.Filling.{StepFrom, FirstLow, name_added, NamesFilled, NameRoom};

use crate::line::{RollLine, WIDTH};
use moves::moves::is_low;
use text::{Action, Step};

// Where a name begins on a next line, whose columns before it are blank.
const NAME_INDENT: usize = 12;

// Whether step j is low and the first from its state with its action; the steps of that state begin at `from`, and they
// rise by action.
fn first_of_low(store: &[u16], roles: &[u16], from: u16, j: Step) -> bool
    requires stored { Stored store.now (model_at store.now) }
    requires roles_of { RolesOf (model_at store.now) roles.now }
    requires step_from { StepFrom (model_at store.now) from j.0 }
    ensures { Decides result (FirstLow (model_at store.now) j.0) }
{
    let a = model::store::action(store, j);
    is_low(roles, a) && (j.0 == from || model::store::action(store, Step(j.0 - 1)) != a)
}

impl RollLine {
    // The name of an action behind some blanks.
    fn indented(self, out: &mut [u8], indent: usize, store: &[u16], a: Action) -> RollLine
        requires writable { Writable store.now }
        requires a_in_bounds { a.0 < length (model_at store.now).actions }
        requires a_in_bounds_2 { self.at.at + indent + length (name_of (model_at store.now) a.0) ≤ length out.old }
        ensures { Wrote out.old self.at.at
            (blanks indent ++ name_of (model_at store.now) a.0) out.new result.at.at
            × (result.begin ≡ self.begin) }
    {
        let row = self.blanks(out, indent);
        RollLine {
            at: row.at.action_name(out, store, a),
            ..row
        }
    }

    // One more name, that of an action: behind a blank, or on a next line if it does not fit whole.
    fn name(self, out: &mut [u8], store: &[u16], a: Action) -> RollLine
        requires writable { Writable store.now }
        requires a_in_bounds { a.0 < length (model_at store.now).actions }
        requires name_room { NameRoom self (length (name_of (model_at store.now) a.0)) (length out.old) }
        ensures { NamesFilled (name_of (model_at store.now) a.0 ∷ []) out.old self
            out.new result }
    {
        let used = self.at.at - self.begin;
        let name_length = model::store::name_length(store, a) as usize;
        if used + 1 + name_length <= WIDTH {
            return self.indented(out, 1, store, a);
        }
        RollLine::start(self.end(out)).indented(out, NAME_INDENT, store, a)
    }

    // The name of step j's action, if it is low and no step of its state before it has named it.
    pub fn step_name(
        self,
        out: &mut [u8],
        store: &[u16],
        roles: &[u16],
        from: u16,
        j: Step,
    ) -> RollLine
        requires writable { Writable store.now × Stored store.now (model_at store.now) }
        requires roles_of { RolesOf (model_at store.now) roles.now }
        requires step_from { StepFrom (model_at store.now) from j.0 }
        requires name_room { FirstLow (model_at store.now) j.0 → NameRoom self
            (length (name_of (model_at store.now) (action (model_at store.now) j.0))) (length out.old) }
        ensures { NamesFilled (name_added (model_at store.now) j.0) out.old self
            out.new result }
    {
        if first_of_low(store, roles, from, j) {
            self.name(out, store, model::store::action(store, j))
        } else {
            self
        }
    }
}
