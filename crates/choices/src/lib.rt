// The smallest locally best port for a pad, from any port on, over plain numbers: a search has the lists of a board, and
// says where its figures and totals are read.
// `known` is a walk's memory: of place k it has at k and 64 + k the strip, its first port and the port after its last,
// and at 128 + k and 192 + k 1 + the smallest and 1 + the largest locally best port of that strip, or 0: not known.
#![tactic(auto)]

pub mod given;

ghost use Rattle.std.specs.Prelude.{◌≡◌, ◌≤◌, ◌<◌, length, MatchOption};
ghost use Rattle.totals.specs.Cell.{Leads, NextPort};
ghost use Rattle.places.specs.Places.{Placed};
ghost use Rattle.choices.specs.Choices.{Ready, Begun, LocallyBest, Chosen, Choice};
ghost use Rattle.choices.specs.Memory.{start_at, stop_at, LeadsAt, first_port, end_port, Known, Current, Noted, Learnt};
ghost use Rattle.choices.specs.Over.{on, grid_in};

use given::Search;
use pads::Lists;
use totals::{Figures, Table};

// Where figures and totals are read: for as many ports as pads the table of heads and totals, with each pad's figures, else
// the work list of the crate `slots`, which has both.
#[derive(Clone, Copy)]
pub enum Tables<'a> {
    Full {
        table: Table<'a>,
        figures: Figures<'a>,
    },
    Slotted {
        work: &'a [u64],
    },
}

// Remembers the strip a .. b - 1 for place m; what was known of another strip is forgotten.
// Stays: as an array of a struct with Options the memory takes 256 bytes of stack more in each call than the header states.
fn note(known: &mut [u8], m: usize, a: usize, b: usize)
    requires { (length known.old ≡ 256) × (m < 64) × (a ≤ 128) × (b ≤ 128) }
    ensures { Noted m a b known.old known.new }
{
    if known[m] as usize == a {
        if known[64 + m] as usize == b {
            return;
        }
    }
    known[m] = a as u8;
    known[64 + m] = b as u8;
    known[128 + m] = 0;
    known[192 + m] = 0;
}

// Remembers the strip of the pad at place m, when the pads before it have the ports of w. Only the
// contract speaks of w: the code reads these ports off `at`, which costs no more than the strip's width.
fn settle(lists: &Lists, w: &[u16], at: &[u8], known: &mut [u8], m: usize)
    requires known_len { (m < length lists.now.order.now) × (length known.old ≡ 256) }
    requires placed { Placed lists.now.order.now w.now m at.now }
    ensures { Noted m (first_port lists.now.order.now lists.now.lo.now w.now m)
        (end_port lists.now.ports lists.now.order.now lists.now.hi.now w.now m)
        known.old known.new }
{
    let j = usize::from(lists.order[m]);
    let here = m as u8;
    let a = places::low(at, usize::from(lists.lo[j]), here);
    let b = places::high(at, usize::from(lists.hi[j]), here, lists.ports);
    note(known, m, a, b);
}

// The smallest port of the strip a .. b - 1, from `from` on, that is locally best for the pad at place m.
fn next_port(search: &Search, m: usize, a: usize, b: usize, from: usize) -> Option<usize>
    requires ready { Ready (grid_in search.now) search.now.lists.order.now search.now.lists.ports m a b }
    requires a_le_from { (a ≤ from) × (from ≤ b) }
    ensures { MatchOption result (NextPort (Leads (grid_in search.now) search.now.lists.order.now m a b) from b b)
        (λ q. NextPort (Leads (grid_in search.now) search.now.lists.order.now m a b) from b q × (q < b)) }
{
    match &search.tables {
        Tables::Full { table, figures } => {
            totals::next_port(table, &search.lists, figures, m, a, b, from)
        }
        Tables::Slotted { work } => slots::next_port(work, &search.lists, m, a, b, from),
    }
}

// The smallest port from `from` on that is locally best in the strip remembered for place m.
fn choose(search: &Search, known: &[u8], m: usize, from: usize) -> Option<usize>
    requires known_len { (length known.now ≡ 256) × (m < 64) }
    requires ready { Ready (grid_in search.now) search.now.lists.order.now search.now.lists.ports m (start_at known.now m)
        (stop_at known.now m) }
    ensures { Choice (on LeadsAt search.now known.now m) from result }
{
    let a = usize::from(known[m]);
    let b = usize::from(known[64 + m]);
    let start = a.max(from);
    if start < b {
        next_port(search, m, a, b, start)
    } else {
        None
    }
}

// The smallest locally best port for the pad at place m, when the pads before it have the ports of w: there is one.
pub fn lowest(search: &Search, w: &[u16], at: &[u8], known: &mut [u8], m: usize) -> usize
    requires room { length search.now.lists.order.now ≤ length w.now }
    requires m_in_bounds { (m < length search.now.lists.order.now) × on Begun search.now w.now m }
    requires placed { Placed search.now.lists.order.now w.now m at.now × on Known search.now known.old }
    ensures chosen { Chosen (on LocallyBest search.now w.now m) 0 result × (result < 128) }
    ensures learnt { on Learnt search.now w.now m known.old known.new }
{
    settle(&search.lists, w, at, known, m);
    let f = usize::from(known[128 + m]);
    if 0 < f {
        return f - 1;
    }
    let q = choose(search, known, m, 0).unwrap();
    known[128 + m] = (q + 1) as u8;
    q
}

// The smallest locally best port from `from` on, the one after the port that the pad has.
// Where that port is remembered as the largest, there is none.
pub fn above(
    search: &Search,
    w: &[u16],
    at: &[u8],
    known: &mut [u8],
    m: usize,
    from: usize,
) -> Option<usize>
    requires room { length search.now.lists.order.now ≤ length w.now }
    requires m_in_bounds { (m < length search.now.lists.order.now) × on Begun search.now w.now m }
    requires placed { Placed search.now.lists.order.now w.now m at.now × on Known search.now known.old }
    requires current { Current search.now.lists.ports search.now.lists.order.now search.now.lists.lo.now search.now.lists.hi.now w.now known.old m
        × (0 < from) × (from ≤ 128) }
    ensures chosen { Choice (on LocallyBest search.now w.now m) from result }
    ensures learnt { on Learnt search.now w.now m known.old known.new }
{
    if usize::from(known[192 + m]) == from {
        return None;
    }
    settle(&search.lists, w, at, known, m);
    let port = choose(search, known, m, from);
    if port.is_none() {
        known[192 + m] = from as u8;
    }
    port
}
