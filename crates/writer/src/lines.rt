// The text of the model that a store holds, line by line.
ghost use Rattle.std.specs.Prelude.{◌≡◌, ◌+◌, ◌≤◌, ◌<◌, length};
ghost use Rattle.model.specs.StoredModel.{action_at, model_at};
ghost use Rattle.model.specs.System.{name_of};
ghost use Rattle.model.specs.Text.{level_byte, head_text, action_text, actions_text, start_text, starts_text};
ghost use Rattle.model.specs.Text.{step_text, steps_text, model_text};
ghost use Rattle.writer.specs.Inner.Writable.{Writable};
ghost use Rattle.writer.specs.Wrote.{Wrote};

use crate::position::Position;
use model::store;
use text::limits::{HIGH, LOW, RELEASE};
use text::{Action, Head, State, Step, StepLine};

// `L`, `D`, `H` or `T`.
fn level_letter(level: u16) -> u8
    ensures { result ≡ level_byte level }
{
    match level {
        LOW => b'L',
        RELEASE => b'D',
        HIGH => b'H',
        _ => b'T',
    }
}

// Each line asks for room for just its own bytes, and each loop for room for all of its lines.
impl Position {
    // `M,states,actions,steps,start` and the line end.
    fn head_line(self, out: &mut [u8], h: Head) -> Position
        requires { self.at + length (head_text h) ≤ length out.old }
        ensures { Wrote out.old self.at (head_text h) out.new result.at }
    {
        self.byte(out, b'M')
            .field(out, h.states)
            .field(out, h.actions)
            .field(out, h.steps)
            .field(out, h.start.0)
            .byte(out, b'\n')
    }

    // `I,state` and the line end.
    fn start_line(self, out: &mut [u8], p: State) -> Position
        requires { self.at + length (start_text p.0) ≤ length out.old }
        ensures { Wrote out.old self.at (start_text p.0) out.new result.at }
    {
        self.byte(out, b'I').field(out, p.0).byte(out, b'\n')
    }

    // `S,source,action,target` and the line end.
    fn step_line(self, out: &mut [u8], s: StepLine) -> Position
        requires { self.at + length (step_text s) ≤ length out.old }
        ensures { Wrote out.old self.at (step_text s) out.new result.at }
    {
        self.byte(out, b'S')
            .field(out, s.source.0)
            .field(out, s.action.0)
            .field(out, s.target.0)
            .byte(out, b'\n')
    }

    // The name of an action that a store holds.
    pub fn action_name(self, out: &mut [u8], store: &[u16], a: Action) -> Position
        requires writable { Writable store.now }
        requires a_in_bounds { a.0 < length (model_at store.now).actions }
        requires a_in_bounds_2 { self.at + length (name_of (model_at store.now) a.0) ≤ length out.old }
        ensures { Wrote out.old self.at (name_of (model_at store.now) a.0)
            out.new result.at }
    {
        let from = store::name_place(a);
        let end = from + store::name_length(store, a) as usize;
        self.name(out, &store[from..end])
    }

    // `A,level,name` and the line end, of an action that a store holds.
    fn action_line(self, out: &mut [u8], store: &[u16], a: Action) -> Position
        requires writable { Writable store.now }
        requires a_in_bounds { a.0 < length (model_at store.now).actions }
        requires a_in_bounds_2 { self.at + length (name_of (model_at store.now) a.0) + 5 ≤ length out.old }
        ensures { Wrote out.old self.at (action_text (action_at store.now a.0))
            out.new result.at }
    {
        let letter = level_letter(store::level(store, a));
        self.byte(out, b'A')
            .byte(out, b',')
            .byte(out, letter)
            .byte(out, b',')
            .action_name(out, store, a)
            .byte(out, b'\n')
    }

    // The lines of all actions that a store holds.
    fn action_lines(self, out: &mut [u8], store: &[u16]) -> Position
        requires writable { Writable store.now }
        requires store_in_bounds { self.at + length (actions_text (model_at store.now).actions) ≤ length out.old }
        ensures { Wrote out.old self.at (actions_text (model_at store.now).actions)
            out.new result.at }
    {
        let mut at = self;
        for i in 0..store::actions(store) {
            at = at.action_line(out, store, Action(i));
        }
        at
    }

    // The lines of all extra starts that a store holds.
    fn start_lines(self, out: &mut [u8], store: &[u16]) -> Position
        requires writable { Writable store.now }
        requires store_in_bounds { self.at + length (starts_text (model_at store.now).extra_starts) ≤ length out.old }
        ensures { Wrote out.old self.at (starts_text (model_at store.now).extra_starts)
            out.new result.at }
    {
        let mut at = self;
        for i in 0..store::extra_count(store) {
            at = at.start_line(out, store::extra_start(store, i));
        }
        at
    }

    // The lines of all steps that a store holds.
    fn step_lines(self, out: &mut [u8], store: &[u16]) -> Position
        requires writable { Writable store.now }
        requires store_in_bounds { self.at + length (steps_text (model_at store.now).steps) ≤ length out.old }
        ensures { Wrote out.old self.at (steps_text (model_at store.now).steps)
            out.new result.at }
    {
        let mut at = self;
        for j in 0..store::steps(store) {
            at = at.step_line(out, store::step_line(store, Step(j)));
        }
        at
    }

    // The text of the model that a store holds.
    pub fn model(self, out: &mut [u8], store: &[u16]) -> Position
        requires writable { Writable store.now }
        requires store_in_bounds { self.at + length (model_text (model_at store.now)) ≤ length out.old }
        ensures { Wrote out.old self.at (model_text (model_at store.now))
            out.new result.at }
    {
        self.head_line(out, store::head(store))
            .action_lines(out, store)
            .start_lines(out, store)
            .step_lines(out, store)
            .text(out, b"E\n")
    }
}
