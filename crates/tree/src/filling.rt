// Fills the table from the splitting tree: the row of a state is that of its class.
ghost use Rattle.std.specs.Prelude.{◌≡◌, ℕ, ◌≤◌, ◌<◌, length, get_or};
ghost use Rattle.text.specs.Limits.{state_limit, table_length};
ghost use Rattle.ranking.specs.Inner.TableWrites.{entry_of, Outside};
ghost use Rattle.tree.specs.Inner.Tree.{Tree, Apart, MemberSets, UnderSets};
ghost use Rattle.tree.specs.Inner.Rows.{EntriesWritten, RowsCopied};

use crate::rows::{fill_rows, write_parts};
use by_state::Class;
use by_state::lists::class_at;
use sets::SETS_LENGTH;
use text::State;
use text::limits::{ROW, TABLE_LENGTH};

// Copies the first n entries of row c into row p of the table.
fn copy_row(table: &mut [u8], n: usize, p: State, rows: &[u8; TABLE_LENGTH], c: Class)
    requires table_length_in_bounds { (table_length ≤ length table.old) × (n ≤ state_limit) }
    requires p_lt_state_limit { (p.0 < state_limit) × (c.0 < state_limit) }
    ensures { EntriesWritten p.0 (λ x. x < n) (entry_of rows.now c.0) table.old
        table.new }
{
    let at = ROW * p.0 as usize;
    let from = ROW * c.0 as usize;
    table[at..at + n].copy_from_slice(&rows[from..from + n]);
}

// Copies the row of its class for each of n states.
fn copy_rows(table: &mut [u8], n: u16, class: &[u16; ROW], rows: &[u8; TABLE_LENGTH])
    requires table_length_in_bounds { (table_length ≤ length table.old) × (n ≤ state_limit) }
    requires by_index { (p : ℕ) → p < n → get_or class.now p 0 < state_limit }
    ensures { RowsCopied n n class.now rows.now table.old
        table.new }
{
    for p in 0..n {
        copy_row(table, n as usize, State(p), rows, class_at(class, State(p)));
    }
}

// Fills the table from the splitting tree of n states: the entry of two states is the round that separated their
// classes. It is promised of every `apart` that tells this round; each tree has one, `apart_exists`
// (tree/Laws/ApartExistsLaws).
pub fn fill_table(
    n: u16,
    classes: u16,
    class: &[u16; ROW],
    members: &[u64; SETS_LENGTH],
    origin: &[u16; ROW],
    under: &[u64; SETS_LENGTH],
    when: &[u8; ROW],
    table: &mut [u8],
)
    requires n_le_state_limit { (n ≤ state_limit) × (classes ≤ state_limit) × (table_length ≤ length table.old) }
    requires tree { Tree classes origin.now when.now }
    requires member_sets { MemberSets n classes class.now members.now × UnderSets n classes class.now origin.now
        under.now }
    ensures by_index { (apart : ℕ → ℕ → ℕ) → Apart classes origin.now when.now apart
        → (p q : ℕ) → p < n → q < n → entry_of table.new p q
        ≡ apart (get_or class.now p 0) (get_or class.now q 0) }
    ensures outside { Outside n table.old table.new }
{
    let mut rows = [0u8; TABLE_LENGTH];
    write_parts(&mut rows, classes, origin, under, when);
    fill_rows(&mut rows, classes, members, origin, when);
    copy_rows(table, n, class, &rows);
}
