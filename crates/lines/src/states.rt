// The lines of the states: on the page a `C` line each, on the roll their columns and names.
ghost use Rattle.std.specs.Prelude.{[], ◌∷◌, ◌+◌, ◌≤◌, ◌<◌, length};
ghost use Rattle.text.specs.Limits.{distances_length};
ghost use Rattle.model.specs.StoredModel.{model_at};
ghost use Rattle.distances.specs.Distances.{DistanceList};
ghost use Rattle.verdicts.specs.Inner.ModelLists.{ModelLists};
ghost use Rattle.letters.specs.Inner.Letters.{StepLists};
ghost use Rattle.writer.specs.Inner.Writable.{Writable};
ghost use Rattle.writer.specs.Wrote.{Wrote};
ghost use Rattle.lines.specs.Page.{StateLines};
ghost use Rattle.lines.specs.PageLines.{state_line};
ghost use Rattle.lines.specs.Roll.{form_bytes};
ghost use Rattle.lines.specs.Inner.Entries.{distance_of};
ghost use Rattle.lines.specs.Inner.LinesWritten.{LinesWritten};
ghost use Rattle.lines.specs.Inner.Room.{states_room};

use crate::class::class_of;
use crate::lines::{Form, PagePosition};
use columns::states::state_rows;
use text::State;

impl PagePosition {
    // The line of state p in a form.
    fn state_line(
        self,
        out: &mut [u8],
        store: &[u16],
        begins: &[u16],
        roles: &[u16],
        distances: &[u16],
        p: State,
        class: State,
        form: Form,
    ) -> PagePosition
        requires writable { Writable store.now }
        requires step_lists { StepLists (model_at store.now) store.now begins.now roles.now }
        requires distances_length_in_bounds { (distances_length ≤ length distances.now)
            × DistanceList (model_at store.now) distances.now }
        requires p_bound { (p.0 < (model_at store.now).head.states) × (class.0 ≤ p.0) }
        requires class_in_bounds { self.at.at + length (form_bytes form (model_at store.now)
            (state_line p.0 (distance_of distances.now p.0) class.0 ∷ [])) ≤ length out.old }
        ensures { Wrote out.old self.at.at (form_bytes form (model_at store.now)
            (state_line p.0 (distance_of distances.now p.0) class.0 ∷ [])) out.new
            result.at.at }
    {
        match form {
            Form::Page => self
                .state_text(out, p, distances, class)
                .line_end(out, 0, Form::Page),
            Form::Roll => PagePosition {
                at: state_rows(self.at, out, store, begins, roles, distances, p, class),
            },
        }
    }

    // The lines of all states.
    pub fn state_lines(
        self,
        out: &mut [u8],
        store: &[u16],
        begins: &[u16],
        roles: &[u16],
        distances: &[u16],
        table: &[u8],
        form: Form,
    ) -> PagePosition
        requires writable { Writable store.now }
        requires step_lists { StepLists (model_at store.now) store.now begins.now roles.now }
        requires model_lists { ModelLists (model_at store.now) store.now roles.now distances.now table.now }
        requires store_in_bounds { self.at.at + states_room form (model_at store.now) (model_at store.now).head.states
            ≤ length out.old }
        ensures { LinesWritten form (model_at store.now)
            (StateLines (model_at store.now) (model_at store.now).head.states)
            (states_room form (model_at store.now) (model_at store.now).head.states)
            out.old self.at.at out.new result.at.at }
    {
        let mut page = self;
        for p in 0..model::store::states(store) {
            let class = class_of(table, State(p));
            page = page.state_line(out, store, begins, roles, distances, State(p), class, form);
        }
        page
    }
}
