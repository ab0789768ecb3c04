// Classes divided by keys. The number of a class is its lowest state, its lead.
ghost use Rattle.std.specs.Prelude.{◌≤◌, ◌<◌};
ghost use Rattle.text.specs.Limits.{state_limit};
ghost use Rattle.weak_ranks.specs.Inner.Dividing.{LeadClasses, DividedBy, Dividing, LeadFound};

use by_state::Class;
use by_state::lists::class_at;
use sets::SETS_LENGTH;
use sets::set::set_at;
use text::State;
use text::limits::ROW;

// The lead of p: the leads of its class are linked from the lowest on, and 0 ends the links. Where none has the key of
// p, p becomes the last of them. (Entry 0 and no option: a list of options is twice as long, and no link leads to state
// 0.)
fn find_lead(keys: &[u64; SETS_LENGTH], p: State, from: State, link: &mut [u16; ROW]) -> State
    requires { (p.0 < state_limit) × Dividing keys.now link.old p.0 from.0 }
    ensures { LeadFound keys.now link.old link.new p.0 from.0 result.0 }
{
    let key = set_at(keys, p.0 as usize);
    let mut r = from.0;
    // A loop: each link tells of the next one alone, and no iterator walks them.
    loop {
        let at = r as usize;
        if set_at(keys, at) == key {
            return State(r);
        }
        let s = link[at];
        if s == 0 {
            link[at] = p.0;
            return p;
        }
        r = s;
    }
}

// Divides the classes by the keys.
pub fn divide_by_keys(n: u16, keys: &[u64; SETS_LENGTH], class: &mut [u16; ROW])
    requires { (n ≤ state_limit) × LeadClasses n class.old }
    ensures lead_classes { LeadClasses n class.new }
    ensures divided_by { DividedBy n keys.now class.old class.new }
{
    let mut link = [0u16; ROW];
    for p in 0..n {
        let c = class_at(class, State(p));
        if c != Class(p) {
            let lead = find_lead(keys, State(p), State(c.0), &mut link);
            class[p as usize] = lead.0;
        }
    }
}
