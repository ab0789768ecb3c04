// The whole page of a judged model.
ghost use Rattle.std.specs.Prelude.{◌≤◌, length};
ghost use Rattle.model.specs.StoredModel.{model_at};
ghost use Rattle.lines.specs.Page.{PageOf};
ghost use Rattle.lines.specs.Roll.{form_length};
ghost use Rattle.lines.specs.Inner.Leak.{JudgedLists};
ghost use Rattle.lines.specs.Inner.LinesWritten.{LinesWritten};

use crate::lines::{Form, PagePosition};
use verdicts::judging::Verdict;

// The page of a judged model in a form; the lists are as `judge_good` leaves them.
pub fn judged_page(
    store: &[u16],
    begins: &[u16],
    roles: &[u16],
    distances: &[u16],
    table: &[u8],
    v: Verdict,
    run: &mut [u16],
    word: &mut [u16],
    out: &mut [u8],
    form: Form,
) -> PagePosition
    requires judged_lists { JudgedLists (model_at store.now) v store.now begins.now roles.now distances.now table.now
        run.old word.old }
    requires form_in_bounds { form_length form ≤ length out.old }
    ensures { LinesWritten form (model_at store.now) (PageOf (model_at store.now)
        run.old word.old run.new word.new) (form_length form)
        out.old 0 out.new result.at.at }
{
    let start = PagePosition::start();
    let verdict = start.verdict_text(out, v).line_end(out, 0, form);
    let states = verdict.state_lines(out, store, begins, roles, distances, table, form);
    let leak = states.leak_lines(
        out, store, begins, roles, distances, table, v, run, word, form,
    );
    let begin = leak.at.at;
    leak.last_text(out).line_end(out, begin, form)
}
