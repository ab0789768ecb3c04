// The table by classes, a row for each class and an entry for each state: the round that separated the class from the
// state's.
ghost use Rattle.std.specs.Prelude.{◌≡◌, ℕ, ◌≤◌, ◌<◌, get_or};
ghost use Rattle.text.specs.Limits.{state_limit};
ghost use Rattle.sets.specs.Inner.SetValues.{In};
ghost use Rattle.ranking.specs.Inner.TableWrites.{entry_of};
ghost use Rattle.tree.specs.Inner.Tree.{meet};
ghost use Rattle.tree.specs.Inner.Rows.{EntriesWritten, PartsWritten, RowTaken, filled, RowsFilled};

use by_state::Class;
use sets::SETS_LENGTH;
use sets::set::{Set, set_at};
use text::limits::{ROW, TABLE_LENGTH};

// Writes v into the entries of class c and the states of a set.
fn write_entries(rows: &mut [u8; TABLE_LENGTH], c: Class, s: Set, v: u8)
    requires { c.0 < state_limit }
    ensures { EntriesWritten c.0 (In s) (λ _. v) rows.old rows.new }
{
    let at = ROW * c.0 as usize;
    for x in s {
        rows[at + x as usize] = v;
    }
}

// Writes for each class but class 0 when it was divided off, into the entries of its origin and the states that it had
// then.
pub fn write_parts(
    rows: &mut [u8; TABLE_LENGTH],
    classes: u16,
    origin: &[u16; ROW],
    under: &[u64; SETS_LENGTH],
    when: &[u8; ROW],
)
    requires { (classes ≤ state_limit) × ((e : ℕ) → 0 < e → e < classes → get_or origin.now e 0 < state_limit) }
    ensures { PartsWritten classes origin.now under.now when.now
        rows.old rows.new }
{
    for e in 1..classes {
        let at = e as usize;
        write_entries(rows, Class(origin[at]), set_at(under, at), when[at]);
    }
}

// Copies row c into an array of its own.
fn take_row(rows: &[u8; TABLE_LENGTH], c: Class, row: &mut [u8; ROW])
    requires { c.0 < state_limit }
    ensures { RowTaken c.0 state_limit rows.now row.new }
{
    let from = ROW * c.0 as usize;
    row.copy_from_slice(&rows[from..from + ROW]);
}

// The earlier of two rounds. 0 stands for never.
fn earlier(o: u8, w: u8) -> u8
    ensures { result ≡ meet o w }
{
    if o == 0 {
        return w;
    }
    o.min(w)
}

// An entry that has a round keeps it; another one gets the earlier of two rounds.
fn fill_entry(v: u8, o: u8, w: u8) -> u8
    ensures { result ≡ filled v o w }
{
    if v == 0 {
        return earlier(o, w);
    }
    v
}

// Fills row c from the row above it, that of its origin. The bound is fixed and the rows are two arrays, so that many
// entries are filled at once.
fn fill_row(rows: &mut [u8; TABLE_LENGTH], c: Class, above: &[u8; ROW], w: u8)
    requires { c.0 < state_limit }
    ensures { EntriesWritten c.0 (λ x. x < state_limit)
        (λ x. filled (entry_of rows.old c.0 x) (get_or above.now x 0) w)
        rows.old rows.new }
{
    let at = ROW * c.0 as usize;
    for x in 0..ROW {
        rows[at + x] = fill_entry(rows[at + x], above[x], w);
    }
}

// Fills the rows of all classes but class 0. The row of its origin is filled before that of a class.
pub fn fill_rows(
    rows: &mut [u8; TABLE_LENGTH],
    classes: u16,
    members: &[u64; SETS_LENGTH],
    origin: &[u16; ROW],
    when: &[u8; ROW],
)
    requires { (classes ≤ state_limit) × ((c : ℕ) → 0 < c → c < classes → get_or origin.now c 0 < c) }
    ensures { RowsFilled classes members.now origin.now when.now
        rows.old rows.new }
{
    let mut above = [0u8; ROW];
    for c in 1..classes {
        let at = c as usize;
        take_row(rows, Class(origin[at]), &mut above);
        fill_row(rows, Class(c), &above, when[at]);
        write_entries(rows, Class(c), set_at(members, at), 0);
    }
}
