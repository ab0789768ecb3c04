// The moves of steps by label, held as sets.
ghost use Rattle.std.specs.Prelude.{IfSome, ◌+◌, ◌*◌, ◌≤◌, ◌<◌};
ghost use Rattle.lts.specs.Weak.{silent_label};
ghost use Rattle.text.specs.Limits.{state_limit, action_limit};
ghost use Rattle.silent.specs.Steps.{label_moves, turned_moves};
ghost use Rattle.silent.specs.Inner.Targets.{OwnNumbers, Targets};
ghost use Rattle.held.specs.Held.{pool_sets, slot_place, HeldLabel, HeldList, HeldAs};
ghost use Rattle.held.specs.Inner.Slots.{Pooled, FreeFrom, LabelsKept, HeldTo};

use crate::slots::{hold_row, target_row};
use crate::{LABEL_COUNT, POOL_LENGTH, POOL_SETS, SEEN_LENGTH, SLOTS_LENGTH};
use sets::SETS_LENGTH;
use silent::steps::LabelSteps;
use silent::targets::{low_targets, own_numbers, silent_targets};
use text::Action;
use text::limits::{ACTION_LIMIT, ROW, SILENT_ACTION, STATE_LIMIT};

// While no more sets are in use, there is room for two rows, of the targets and of the sources.
const ROOM: u16 = POOL_SETS - 2 * STATE_LIMIT;

// How many labels are held, and the next free set.
#[derive(Clone, Copy)]
struct Holding {
    count: u16,
    used: u16,
}

// Holds the moves with the action a. Yields the next free set.
fn hold_label(
    steps: LabelSteps,
    own: &[u16; ROW],
    there: &[u64; SETS_LENGTH],
    back: &[u64; SETS_LENGTH],
    a: Action,
    used: u16,
    slots: &mut [u16; SLOTS_LENGTH],
    pool: &mut [u64; POOL_LENGTH],
    seen: &mut [u16; SEEN_LENGTH],
) -> u16
    requires own_numbers { OwnNumbers steps.n own.now }
    requires targets { Targets (label_moves steps) silent_label there.now }
    requires targets_2 { Targets (turned_moves steps) silent_label back.now }
    requires a_lt_action_limit { (a.0 < action_limit) × (used + 2 * state_limit ≤ pool_sets) × Pooled used slots.old pool.old
        × FreeFrom (slot_place (2 * a.0) 0) slots.old }
    ensures held_label { HeldLabel (label_moves steps.entry)
        slots.new pool.new a.0 }
    ensures labels_kept { LabelsKept a.0 slots.old pool.old slots.new
        pool.new }
    ensures pooled { Pooled result slots.new pool.new
        × FreeFrom (slot_place (2 * (a.0 + 1)) 0) slots.new }
{
    let mut sets = [0u64; SETS_LENGTH];
    let row = target_row(a.0);
    low_targets(steps, own, there, a, &mut sets);
    let next = hold_row(&sets, row, used, slots, pool, seen);
    low_targets(steps.turned(), own, back, a, &mut sets);
    hold_row(&sets, row + 1, next, slots, pool, seen)
}

// Holds the moves with each action that has a step, and lists these, as long as there is room.
fn hold_actions(
    steps: LabelSteps,
    own: &[u16; ROW],
    there: &[u64; SETS_LENGTH],
    back: &[u64; SETS_LENGTH],
    labels: &mut [u16; LABEL_COUNT],
    slots: &mut [u16; SLOTS_LENGTH],
    pool: &mut [u64; POOL_LENGTH],
    seen: &mut [u16; SEEN_LENGTH],
) -> Option<Holding>
    requires own_numbers { OwnNumbers steps.n own.now }
    requires targets { Targets (label_moves steps) silent_label there.now }
    requires targets_2 { Targets (turned_moves steps) silent_label back.now }
    requires pooled { Pooled 1 slots.old pool.old }
    ensures { IfSome result (λ held. HeldTo (label_moves steps.entry) action_limit labels.new held.count slots.new pool.new
        × Pooled held.used slots.new pool.new
        × FreeFrom (slot_place (2 * action_limit) 0) slots.new) }
{
    let mut used = 1;
    let mut count = 0;
    for a in 0..ACTION_LIMIT {
        let of = a as usize;
        if steps.from[of] < steps.from[of + 1] {
            if ROOM < used {
                return None;
            }
            used = hold_label(steps, own, there, back, Action(a), used, slots, pool, seen);
            labels[count as usize] = a;
            count += 1;
        }
    }
    Some(Holding { count, used })
}

// Holds all moves, and lists their labels. Yields how many labels there are, if there was room.
pub fn hold_labels(
    steps: LabelSteps,
    labels: &mut [u16; LABEL_COUNT],
    slots: &mut [u16; SLOTS_LENGTH],
    pool: &mut [u64; POOL_LENGTH],
) -> Option<u16>
    requires pooled { Pooled 1 slots.old pool.old }
    ensures held_list { IfSome result (λ count. HeldList steps.entry.n labels.new count slots.new pool.new) }
    ensures held_as { IfSome result (λ count. HeldAs (label_moves steps.entry) labels.new count slots.new pool.new) }
{
    let mut own = [0u16; ROW];
    let mut there = [0u64; SETS_LENGTH];
    let mut back = [0u64; SETS_LENGTH];
    let mut seen = [0u16; SEEN_LENGTH];
    own_numbers(steps.n, &mut own);
    silent_targets(steps, &own, &mut there);
    silent_targets(steps.turned(), &own, &mut back);
    let held = hold_actions(steps, &own, &there, &back, labels, slots, pool, &mut seen)?;
    if ROOM < held.used {
        return None;
    }
    let row = target_row(SILENT_ACTION);
    let next = hold_row(&there, row, held.used, slots, pool, &mut seen);
    hold_row(&back, row + 1, next, slots, pool, &mut seen);
    labels[held.count as usize] = SILENT_ACTION;
    Some(held.count + 1)
}
