// The earliest best layout, the step to the next one, and whether a layout is best, over plain numbers: a search is that of
// the crate `choices`, `known` the walk's memory.
#![tactic(auto)]

ghost use Rattle.std.specs.Prelude.{◌≡◌, true, ◌^◌, ◌≤◌, ◌<◌, length};
ghost use Rattle.choices.specs.Choices.{Begun};
ghost use Rattle.choices.specs.Memory.{Memory};
ghost use Rattle.choices.specs.Over.{on, grid_in};
ghost use Rattle.steps.specs.Steps.{total_in, IsLeast, UntouchingLayout, Solvable, BestLayout, FilledUp, FirstIs, StepIs, SaysWhether};

use choices::Tables;
use choices::given::Search;

// From place `from` on gives each pad the smallest locally best port.
// Stays: of a port that none has `at` says 64, which is past every place, so that one comparison of bytes tells.
fn fill_on(search: &Search, out: &mut [u16], known: &mut [u8], from: usize)
    requires room { length search.now.lists.order.now ≤ length out.old }
    requires from_in_bounds { from ≤ length search.now.lists.order.now }
    requires begun { on Begun search.now out.old from }
    requires memory { on Memory search.now out.old from known.old }
    ensures filled_up { on FilledUp search.now out.old out.new from }
    ensures memory_2 { on Memory search.now out.new (length search.now.lists.order.now) known.new }
{
    let order = search.lists.order;
    let mut at = [64u8; 128];
    places::place(order, out, from, &mut at);
    for m in from..order.len() {
        let j = usize::from(order[m]);
        let port = choices::lowest(search, out, &at, known, m);
        out[j] = port as u16;
        at[port] = m as u8;
    }
}

// Next's step from a best layout: the last place that can go up goes up, and the places after it are
// filled. False, and the list is as it was, where no place can. For each place the later ones count as free.
// What `known` has of places that come out as before is not looked for again.
pub fn step(search: &Search, out: &mut [u16], known: &mut [u8]) -> bool
    requires room { length search.now.lists.order.now ≤ length out.old }
    requires best_layout { on BestLayout search.now out.old }
    requires memory { on Memory search.now out.old (length search.now.lists.order.now) known.old }
    ensures step_is { on StepIs search.now out.old out.new result }
    ensures memory_2 { on Memory search.now out.new (length search.now.lists.order.now) known.new }
{
    let order = search.lists.order;
    let mut at = [64u8; 128];
    places::place(order, out, order.len(), &mut at);
    for m in (0..order.len()).rev() {
        let j = usize::from(order[m]);
        let q = usize::from(out[j]) + 1;
        let higher = choices::above(search, out, &at, known, m, q);
        if let Some(next) = higher {
            out[j] = next as u16;
            fill_on(search, out, known, m + 1);
            return true;
        }
    }
    false
}

// The figure of pad j on port q, which it may use.
fn figure(search: &Search, j: usize, q: usize) -> u64
    requires { (j < length search.now.lists.order.now) × (q < search.now.lists.ports) × ((grid_in search.now).ok j q ≡ true) }
    ensures { (result ≡ (grid_in search.now).cost j q) × (result < 2 ^ 32) }
{
    let n = search.lists.order.len();
    match &search.tables {
        Tables::Full { table, figures } => totals::figure(figures.cost, n, j, q),
        Tables::Slotted { work } => slots::figure(work, n, search.lists.ports, j, q),
    }
}

// The total of a layout.
fn total_of(search: &Search, w: &[u16]) -> u64
    requires room { length search.now.lists.order.now ≤ length w.now }
    requires untouching_layout { on UntouchingLayout search.now w.now }
    ensures { result ≡ on total_in search.now w.now }
{
    let order = search.lists.order;
    let mut sum: u64 = 0;
    for k in (0..order.len()).rev() {
        let j = usize::from(order[k]);
        sum += figure(search, j, usize::from(w[j]));
    }
    sum
}

// An untouching layout is best exactly if its total is the least.
pub fn is_best(search: &Search, w: &[u16], least: u64) -> bool
    requires room { length search.now.lists.order.now ≤ length w.now }
    requires untouching_layout { on UntouchingLayout search.now w.now }
    requires least { on IsLeast search.now least }
    ensures { SaysWhether result (on BestLayout search.now w.now) }
{
    total_of(search, w) == least
}

// The earliest best layout.
pub fn first(search: &Search, out: &mut [u16])
    requires room { length search.now.lists.order.now ≤ length out.old }
    requires solvable { on Solvable search.now }
    ensures { on FirstIs search.now out.old out.new }
{
    let mut known = [0u8; 256];
    fill_on(search, out, &mut known, 0);
}
