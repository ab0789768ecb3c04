// The rounds: each grows the splitting tree of the classes, and the table is filled from it after the last.
ghost use Rattle.held.specs.Moves.{held_moves};
ghost use Rattle.std.specs.Prelude.{ℕ, ◌≡◌, ◌+◌, ◌≤◌, ◌<◌, length, get_or};
ghost use Rattle.text.specs.Limits.{state_limit, table_length};
ghost use Rattle.ranking.specs.Table.{Ranked};
ghost use Rattle.sets.specs.Inner.Sets.{Member};
ghost use Rattle.splitters.specs.Inner.Splitters.{Into, Ready, Rounded, Rounds, LastRounded, Counted};

use crate::incoming::note_labels;
use crate::parts::Parts;
use crate::refining::{note_fresh, refine};
use held::list::HeldMoves;
use ranking::table::clear;
use sets::SETS_LENGTH;
use sets::set::{below, put_set};
use text::limits::{ROW, TABLE_LENGTH};
use tree::filling::fill_table;
use tree::note_round;

// The splitting tree after k rounds: the classes that it has come to, of which those from `first` on are new, the
// states under each of the others, and the round that made each class. The list `rest` is for a round's own use.
#[derive(Clone, Copy)]
pub struct SplittingTree {
    pub parts: Parts,
    pub k: u8,
    pub first: u16,
    pub under: [u64; SETS_LENGTH],
    pub rest: [u64; SETS_LENGTH],
    pub when: [u8; ROW],
}

// All states in one class, of number 0.
pub fn one_class(n: u16) -> SplittingTree
    requires { (0 < n) × (n ≤ state_limit) }
    ensures states { result.parts.n ≡ n }
    ensures no_round { (result.k ≡ 0) × (result.first ≡ 0) × (result.parts.classes ≡ 1) }
    ensures zeros { (j : ℕ) → (get_or result.parts.class j 0 ≡ 0) × (get_or result.parts.origin j 0 ≡ 0) }
    ensures no_further_set { (j x : ℕ) → ¬ (j ≡ 0) → ¬ (Member result.parts.members j x) }
    ensures nothing_noted { (j : ℕ) → (get_or result.under j 0 ≡ 0) × (get_or result.rest j 0 ≡ 0)
        × (get_or result.when j 0 ≡ 0) }
{
    let all = below(n);
    let mut members = [0u64; SETS_LENGTH];
    put_set(&mut members, 0, all);
    let parts = Parts {
        n,
        classes: 1,
        together: all,
        class: [0u16; ROW],
        members,
        origin: [0u16; ROW],
    };
    SplittingTree {
        parts,
        k: 0,
        first: 0,
        under: [0u64; SETS_LENGTH],
        rest: [0u64; SETS_LENGTH],
        when: [0u8; ROW],
    }
}

// One round more: divides the classes by the moves to the new classes, which the round before made, and notes its
// number for those that it makes itself. Yields whether it made any, and only then counts as a round.
pub fn round(moves: HeldMoves, into: &[u64; SETS_LENGTH], tree: &mut SplittingTree) -> bool
    requires into { Into moves.labels.now moves.count moves.slots.now into.now }
    requires k_lt_classes { (tree.old.parts.n ≡ moves.n) × (tree.old.k < tree.old.parts.classes)
        × Ready (held_moves moves) moves.n tree.old.k tree.old.first tree.old.parts.class
        tree.old.parts.members tree.old.parts.origin tree.old.under tree.old.when tree.old.parts.classes
        tree.old.parts.together }
    ensures states { tree.new.parts.n ≡ moves.entry.n }
    ensures rounded { Rounded (held_moves moves.entry) moves.entry.n tree.old.k
        tree.old.parts.class tree.new.parts.class tree.new.parts.members tree.new.parts.origin tree.new.under
        tree.new.when tree.old.parts.classes tree.new.parts.classes tree.new.parts.together }
    ensures counted { Counted result tree.old.k tree.old.parts.classes tree.new.k tree.new.first
        tree.new.parts.classes }
{
    let parts = &mut tree.parts;
    let old = parts.classes;
    note_fresh(
        tree.first,
        old,
        &parts.members,
        &parts.origin,
        &mut tree.under,
        &mut tree.rest,
    );
    refine(moves, into, tree.first, old, &tree.under, &tree.rest, parts);
    let classes = parts.classes;
    note_round(&mut tree.when, old, classes, tree.k + 1);
    if classes == old {
        return false;
    }
    tree.first = old;
    tree.k += 1;
    true
}

// Goes round until a round separates no further pair, and yields the last round that did.
fn rounds(moves: HeldMoves, into: &[u64; SETS_LENGTH], tree: &mut SplittingTree) -> u8
    requires into { Into moves.labels.now moves.count moves.slots.now into.now }
    requires rounds { (tree.old.parts.n ≡ moves.n) × Rounds (held_moves moves) moves.n tree.old.k
        tree.old.first tree.old.parts.class tree.old.parts.members tree.old.parts.origin tree.old.under tree.old.when
        tree.old.parts.classes tree.old.parts.together }
    ensures { LastRounded (held_moves moves.entry) moves.entry.n result tree.new.parts.class
        tree.new.parts.members tree.new.parts.origin tree.new.under tree.new.when tree.new.parts.classes }
{
    // A loop that leaves with `break`, the form that is named for rounds: how many come is not known before.
    let last = loop {
        if !round(moves, into, tree) {
            break tree.k;
        }
    };
    last
}

// Fills the table with the ranks of n states by the moves that are held, and answers the last round that separated two
// of them.
pub fn rank_held(moves: HeldMoves, table: &mut [u8]) -> u8
    requires table_length_in_bounds { table_length ≤ length table.old }
    ensures { Ranked (held_moves moves.entry) moves.entry.n
        table.old table.new result }
{
    clear(table, TABLE_LENGTH);
    let mut into = [0u64; SETS_LENGTH];
    note_labels(moves, &mut into);
    let mut tree = one_class(moves.n);
    let last = rounds(moves, &into, &mut tree);
    let parts = &tree.parts;
    fill_table(
        moves.n,
        parts.classes,
        &parts.class,
        &parts.members,
        &parts.origin,
        &tree.under,
        &tree.when,
        table,
    );
    last
}
