// The texts of a page's lines, and the line end.
ghost use Rattle.std.specs.Prelude.{◌≡◌, ◌+◌, ◌-◌, ◌≤◌, ◌<◌, length};
ghost use Rattle.text.specs.Limits.{distances_length};
ghost use Rattle.model.specs.StoredModel.{model_at};
ghost use Rattle.model.specs.Text.{field};
ghost use Rattle.writer.specs.Inner.Writable.{Writable};
ghost use Rattle.writer.specs.Wrote.{Wrote};
ghost use Rattle.verdicts.specs.declared.judging.Verdict.TheVariants.{Passed, Refused};
ghost use Rattle.lines.specs.PageLines.{verdict_line, state_line, run_line, allows_line, no_word_line};
ghost use Rattle.lines.specs.PageLines.{last_line, distance_text, line_text, fault_text};
ghost use Rattle.lines.specs.Page.{name_line};
ghost use Rattle.lines.specs.Inner.Entries.{distance_of};
ghost use Rattle.lines.specs.Inner.FormLines.{line_ending, EndFits};

use columns::line::RollLine;
use distances::distances::{distance_at, is_unreachable};
use letters::word::End;
use text::{Action, State, Step};
use verdicts::judging::Verdict;
use writer::position::Position;

// The page as it is, or on the receipt roll, whose lines have 42 columns.
#[derive(Clone, Copy)]
pub enum Form {
    Page,
    Roll,
}

// A comma, and the distance of p or `-`.
fn distance_field(at: Position, out: &mut [u8], distances: &[u16], p: State) -> Position
    requires p_lt_distances_length { (p.0 < distances_length) × (distances_length ≤ length distances.now) }
    requires p_in_bounds { at.at + length (field (distance_text (distance_of distances.now p.0))) ≤ length out.old }
    ensures { Wrote out.old at.at
        (field (distance_text (distance_of distances.now p.0))) out.new result.at }
{
    if is_unreachable(distances, p) {
        at.text(out, b",-")
    } else {
        at.field(out, distance_at(distances, p))
    }
}

// How far the page is written, by value: each writer takes it and hands back where it ended. Each asks for room for
// just its own bytes. A line is its text, then what ends it.
#[derive(Clone, Copy)]
pub struct PagePosition {
    pub at: Position,
}

impl PagePosition {
    pub fn start() -> PagePosition
        ensures { result.at.at ≡ 0 }
    {
        PagePosition {
            at: Position::start(),
        }
    }

    // What ends each line: on the roll the line that began at place `begin` is padded first.
    pub fn line_end(self, out: &mut [u8], begin: usize, form: Form) -> PagePosition
        requires { EndFits form begin self.at.at (length out.old) }
        ensures { Wrote out.old self.at.at (line_ending form (self.at.at - begin))
            out.new result.at.at }
    {
        let at = self.at;
        PagePosition {
            at: match form {
                Form::Page => at.byte(out, b'\n'),
                Form::Roll => RollLine { at, begin }.end(out),
            },
        }
    }

    // `V,pass,rank`
    fn passed_text(self, out: &mut [u8], rank: u8) -> PagePosition
        requires { self.at.at + length (line_text (verdict_line (Passed rank))) ≤ length out.old }
        ensures { Wrote out.old self.at.at (line_text (verdict_line (Passed rank)))
            out.new result.at.at }
    {
        let at = self.at.text(out, b"V,pass").field(out, rank as u16);
        PagePosition { at }
    }

    // `V,refuse,step,depth`
    fn refused_text(self, out: &mut [u8], j: Step, depth: u8) -> PagePosition
        requires { self.at.at + length (line_text (verdict_line (Refused j depth))) ≤ length out.old }
        ensures { Wrote out.old self.at.at (line_text (verdict_line (Refused j depth)))
            out.new result.at.at }
    {
        let at = self
            .at
            .text(out, b"V,refuse")
            .field(out, j.0)
            .field(out, depth as u16);
        PagePosition { at }
    }

    // The verdict.
    pub fn verdict_text(self, out: &mut [u8], v: Verdict) -> PagePosition
        requires { self.at.at + length (line_text (verdict_line v)) ≤ length out.old }
        ensures { Wrote out.old self.at.at (line_text (verdict_line v)) out.new
            result.at.at }
    {
        match v {
            Verdict::Passed(rank) => self.passed_text(out, rank),
            Verdict::Refused(j, depth) => self.refused_text(out, j, depth),
        }
    }

    // `C,state,distance,class`
    pub fn state_text(
        self,
        out: &mut [u8],
        p: State,
        distances: &[u16],
        class: State,
    ) -> PagePosition
        requires p_lt_distances_length { (p.0 < distances_length) × (distances_length ≤ length distances.now) }
        requires class_in_bounds { self.at.at
            + length (line_text (state_line p.0 (distance_of distances.now p.0) class.0)) ≤ length out.old }
        ensures { Wrote out.old self.at.at
            (line_text (state_line p.0 (distance_of distances.now p.0) class.0)) out.new
            result.at.at }
    {
        let at = self.at.byte(out, b'C').field(out, p.0);
        let at = distance_field(at, out, distances, p).field(out, class.0);
        PagePosition { at }
    }

    // `R,step`
    pub fn run_text(self, out: &mut [u8], j: Step) -> PagePosition
        requires { self.at.at + length (line_text (run_line j.0)) ≤ length out.old }
        ensures { Wrote out.old self.at.at (line_text (run_line j.0)) out.new
            result.at.at }
    {
        let at = self.at.byte(out, b'R').field(out, j.0);
        PagePosition { at }
    }

    // `W,name` of an action that a store holds.
    pub fn name_text(self, out: &mut [u8], store: &[u16], a: Action) -> PagePosition
        requires writable { Writable store.now }
        requires a_in_bounds { a.0 < length (model_at store.now).actions }
        requires a_in_bounds_2 { self.at.at + length (line_text (name_line (model_at store.now) a.0)) ≤ length out.old }
        ensures { Wrote out.old self.at.at
            (line_text (name_line (model_at store.now) a.0)) out.new result.at.at }
    {
        let at = self.at.text(out, b"W,").action_name(out, store, a);
        PagePosition { at }
    }

    // `B,source` or `B,target`
    pub fn allows_text(self, out: &mut [u8], end: End) -> PagePosition
        requires { self.at.at + length (line_text (allows_line end)) ≤ length out.old }
        ensures { Wrote out.old self.at.at (line_text (allows_line end)) out.new
            result.at.at }
    {
        let at = match end {
            End::Source => self.at.text(out, b"B,source"),
            End::Target => self.at.text(out, b"B,target"),
        };
        PagePosition { at }
    }

    // `N`
    pub fn no_word_text(self, out: &mut [u8]) -> PagePosition
        requires { self.at.at + length (line_text no_word_line) ≤ length out.old }
        ensures { Wrote out.old self.at.at (line_text no_word_line) out.new
            result.at.at }
    {
        let at = self.at.byte(out, b'N');
        PagePosition { at }
    }

    // `E`
    pub fn last_text(self, out: &mut [u8]) -> PagePosition
        requires { self.at.at + length (line_text last_line) ≤ length out.old }
        ensures { Wrote out.old self.at.at (line_text last_line) out.new result.at.at }
    {
        let at = self.at.byte(out, b'E');
        PagePosition { at }
    }

    // `F,number,place`, which is no line of a page.
    pub fn fault_text(self, out: &mut [u8], number: u16, place: u16) -> PagePosition
        requires { self.at.at + length (fault_text number place) ≤ length out.old }
        ensures { Wrote out.old self.at.at (fault_text number place) out.new
            result.at.at }
    {
        let at = self.at.byte(out, b'F').field(out, number).field(out, place);
        PagePosition { at }
    }
}
