// The lines of a state on the receipt roll.
ghost use Rattle.std.specs.Prelude.{◌≡◌, ◌+◌, ◌≤◌, ◌<◌, length};
ghost use Rattle.text.specs.Limits.{distances_length};
ghost use Rattle.model.specs.StoredModel.{model_at};
ghost use Rattle.distances.specs.Distances.{DistanceList};
ghost use Rattle.letters.specs.Inner.Letters.{StepLists};
ghost use Rattle.writer.specs.Inner.Writable.{Writable};
ghost use Rattle.writer.specs.Wrote.{Wrote};
ghost use Rattle.columns.specs.Rows.{rows_bytes, flush_right};
ghost use Rattle.columns.specs.StateRows.{distance_text, number_width, state_columns, state_rows};
ghost use Rattle.columns.specs.Inner.Columns.{DistanceFits};
ghost use Rattle.columns.specs.Inner.Entries.{distance_of};
ghost use Rattle.columns.specs.Inner.LineCount.{columns_width};

use crate::line::RollLine;
use text::{State, Step};
use writer::position::Position;

impl RollLine {
    // The distance of a state, or `-`.
    fn distance(self, out: &mut [u8], distances: &[u16], p: State) -> RollLine
        requires distance_fits { DistanceFits distances.now p.0 }
        requires number_width_in_bounds { self.at.at + number_width ≤ length out.old }
        ensures { Wrote out.old self.at.at
            (flush_right number_width (distance_text (distance_of distances.now p.0))) out.new
            result.at.at × (result.begin ≡ self.begin) }
    {
        if distances::distances::is_unreachable(distances, p) {
            self.dash(out)
        } else {
            self.number(out, distances::distances::distance_at(distances, p))
        }
    }

    // A state, its distance and its class, with a blank between two.
    fn columns(self, out: &mut [u8], distances: &[u16], p: State, class: State) -> RollLine
        requires distance_fits { DistanceFits distances.now p.0 }
        requires class_le_p { (class.0 ≤ p.0) × (self.at.at + columns_width ≤ length out.old) }
        ensures { Wrote out.old self.at.at
            (state_columns p.0 (distance_of distances.now p.0) class.0) out.new result.at.at
            × (result.begin ≡ self.begin) }
    {
        self.number(out, p.0)
            .blanks(out, 1)
            .distance(out, distances, p)
            .blanks(out, 1)
            .number(out, class.0)
    }
}

// The columns of state p, and the names of the low actions with a step from it, each line padded and ended.
pub fn state_rows(
    at: Position,
    out: &mut [u8],
    store: &[u16],
    begins: &[u16],
    roles: &[u16],
    distances: &[u16],
    p: State,
    class: State,
) -> Position
    requires writable { Writable store.now }
    requires step_lists { StepLists (model_at store.now) store.now begins.now roles.now }
    requires distances_length_in_bounds { (distances_length ≤ length distances.now)
        × DistanceList (model_at store.now) distances.now }
    requires p_bound { (p.0 < (model_at store.now).head.states) × (class.0 ≤ p.0) }
    requires class_in_bounds { at.at + length (rows_bytes (state_rows (model_at store.now) p.0
        (distance_of distances.now p.0) class.0)) ≤ length out.old }
    ensures { Wrote out.old at.at (rows_bytes (state_rows (model_at store.now) p.0
        (distance_of distances.now p.0) class.0)) out.new result.at }
{
    let of = p.0 as usize;
    let from = begins[of];
    let mut row = RollLine::start(at).columns(out, distances, p, class);
    for j in from..begins[of + 1] {
        row = row.step_name(out, store, roles, from, Step(j));
    }
    row.end(out)
}
