// A walk from best layout to best layout, over plain lists: those of a search of the crate `choices`, and their least total.
#![tactic(auto)]

ghost use Rattle.std.specs.Prelude.{◌+◌, ◌≤◌, ◌<◌, length};
ghost use Rattle.numbers.specs.Copies.{Copied};
ghost use Rattle.choices.specs.Over.{on};
ghost use Rattle.steps.specs.Steps.{IsLeast, BestLayout};
ghost use Rattle.walks.specs.Walks.{list_rules, Startable, Begins, Turned, Walks};

use choices::given::Search;

// A least total from here on says that there is no layout.
// Stays: the totals are plain numbers where they are read, and so is the least of them.
const NONE: u64 = 4611686018427387904;

// A walk starts at the earliest best layout, or at the one that is given.
// Stays: what a walk starts at is all that differs, and its clauses are by these two cases.
#[derive(Clone, Copy)]
pub enum Start {
    First,
    Given,
}

// What a walk comes to that starts at a best layout: how many it put on its page, and the least total.
#[derive(Clone, Copy)]
pub struct Walked {
    pub count: u64,
    pub total: u64,
}

// Has the walk's first layout in w; false, and w is as it was, where there is no layout or the given one is not best.
fn begin(start: Start, search: &Search, w: &mut [u16], least: u64) -> bool
    requires room { length search.now.lists.order.now ≤ length w.old }
    requires least { on IsLeast search.now least × on (Startable start) search.now w.old }
    ensures { Begins (on list_rules search.now) start w.old w.new result }
{
    match start {
        Start::First => {
            if NONE <= least {
                return false;
            }
            steps::first(search, w);
            true
        }
        Start::Given => steps::is_best(search, w, least),
    }
}

// The first n entries of `from`, to `to` from place `at` on.
// Stays: `copy_from_slice` of two lists that C lends would have the archive ask for memmove.
pub fn copy(from: &[u16], n: usize, to: &mut [u16], at: usize)
    requires { (n ≤ length from.now) × (at + n ≤ length to.old) }
    ensures { Copied n at from.now to.old to.new }
{
    for i in 0..n {
        to[at + i] = from[i];
    }
}

// Goes on from the best layout in w: each next one goes to the page, as many as fit, or fewer where the end comes.
fn turn(search: &Search, w: &mut [u16], page: &mut [u16]) -> u64
    requires order_nonzero { (0 < length search.now.lists.order.now) × (length search.now.lists.order.now ≤ length w.old) }
    requires best_layout { on BestLayout search.now w.old }
    ensures { Turned (on list_rules search.now) (length search.now.lists.order.now) w.old page.old w.new page.new result }
{
    let n = search.lists.order.len();
    let mut known = [0u8; 256];
    let most = page.len() / n;
    for k in 0..most {
        if !steps::step(search, w, &mut known) {
            return k as u64;
        }
        copy(w, n, page, k * n);
    }
    most as u64
}

// A walk: from its start, which w then holds, on to the last layout that fits the page; none where there is no layout to
// start at or the given one is not best.
pub fn walk(
    start: Start,
    search: &Search,
    w: &mut [u16],
    page: &mut [u16],
    least: u64,
) -> Option<Walked>
    requires order_nonzero { (0 < length search.now.lists.order.now) × (length search.now.lists.order.now ≤ length w.old) }
    requires least { on IsLeast search.now least × on (Startable start) search.now w.old }
    ensures { Walks (on list_rules search.now) (length search.now.lists.order.now) start w.old page.old w.new page.new result }
{
    if !begin(start, search, w, least) {
        return None;
    }
    let count = turn(search, w, page);
    Some(Walked {
        count,
        total: least,
    })
}
