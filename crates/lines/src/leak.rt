// The lines that show the leak of a refused model.
ghost use Rattle.std.specs.Prelude.{map, ◌≡◌, ◌+◌, ◌*◌, ◌≤◌, length, take};
ghost use Rattle.text.specs.Model.{Model};
ghost use Rattle.model.specs.StoredModel.{model_at};
ghost use Rattle.writer.specs.Inner.Writable.{Writable};
ghost use Rattle.lines.specs.PageLines.{run_line};
ghost use Rattle.lines.specs.Page.{name_line, AfterStates};
ghost use Rattle.lines.specs.Inner.LinesWritten.{LinesWritten};
ghost use Rattle.lines.specs.Inner.Room.{run_width, name_width, line_room, shown_room, leak_room};
ghost use Rattle.lines.specs.Inner.Leak.{Letters, Spelled, shown_lines, JudgedLists};

use crate::lines::{Form, PagePosition};
use letters::word::Shown;
use model::good_store::GoodStore;
use text::{Action, Step};
use verdicts::judging::Verdict;

impl PagePosition {
    // A line for each of the first n steps of a run.
    fn run_lines(self, out: &mut [u8], run: &[u16], n: usize, form: Form) -> PagePosition
        requires { (n ≤ length run.now) × (self.at.at + line_room form run_width * n ≤ length out.old) }
        ensures { (m : Model) → LinesWritten form m (◌≡◌ (map run_line (take n run.now)))
            (line_room form run_width * n) out.old self.at.at out.new result.at.at }
    {
        let mut page = self;
        for &j in &run[..n] {
            let begin = page.at.at;
            page = page.run_text(out, Step(j)).line_end(out, begin, form);
        }
        page
    }

    // A line for each of the first n letters of a word.
    fn word_lines(
        self,
        out: &mut [u8],
        store: &[u16],
        word: &[u16],
        n: usize,
        form: Form,
    ) -> PagePosition
        requires writable { Writable store.now }
        requires letters { Letters (model_at store.now) n word.now }
        requires n_in_bounds { self.at.at + line_room form name_width * n ≤ length out.old }
        ensures { LinesWritten form (model_at store.now)
            (◌≡◌ (map (name_line (model_at store.now)) (take n word.now)))
            (line_room form name_width * n) out.old self.at.at out.new result.at.at }
    {
        let mut page = self;
        for &a in &word[..n] {
            let begin = page.at.at;
            page = page
                .name_text(out, store, Action(a))
                .line_end(out, begin, form);
        }
        page
    }

    // A word's at most 127 letters and the end that allows it; `N` where no word is shown.
    fn shown_lines(
        self,
        out: &mut [u8],
        store: &[u16],
        word: &[u16],
        shown: Shown,
        form: Form,
    ) -> PagePosition
        requires writable { Writable store.now }
        requires spelled { Spelled (model_at store.now) shown word.now }
        requires shown_in_bounds { self.at.at + shown_room form shown ≤ length out.old }
        ensures { LinesWritten form (model_at store.now)
            (◌≡◌ (shown_lines (model_at store.now) shown word.now)) (shown_room form shown)
            out.old self.at.at out.new result.at.at }
    {
        if let Shown::Word(n, end) = shown {
            let page = self.word_lines(out, store, word, n, form);
            let begin = page.at.at;
            return page.allows_text(out, end).line_end(out, begin, form);
        }
        let begin = self.at.at;
        self.no_word_text(out).line_end(out, begin, form)
    }

    // What follows the `C` lines: for a refused model the run to the source of Judge's step and what Word shows. The
    // lists are as `judge_good` leaves them.
    pub fn leak_lines(
        self,
        out: &mut [u8],
        store: &[u16],
        begins: &[u16],
        roles: &[u16],
        distances: &[u16],
        table: &[u8],
        v: Verdict,
        run: &mut [u16],
        word: &mut [u16],
        form: Form,
    ) -> PagePosition
        requires judged_lists { JudgedLists (model_at store.now) v store.now begins.now roles.now distances.now
            table.now run.old word.old }
        requires v_in_bounds { self.at.at + leak_room form (model_at store.now) v ≤ length out.old }
        ensures { LinesWritten form (model_at store.now) (AfterStates (model_at store.now) v
            run.old word.old run.new word.new)
            (leak_room form (model_at store.now) v) out.old self.at.at out.new
            result.at.at }
    {
        let Verdict::Refused(j, _) = v else {
            return self;
        };
        let p = model::store::source(store, j);
        let n = distances::run::fill_run(GoodStore { places: store }, distances, run, p);
        let page = self.run_lines(out, run, n, form);
        let shown = letters::word::show(store, begins, roles, distances, table, v, word);
        page.shown_lines(out, store, word, shown, form)
    }
}
