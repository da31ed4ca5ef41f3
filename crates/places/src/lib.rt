// Which ports the pads at the first places have, and the strip of ports that they leave to the next pad. `order` has the record
// numbers, rightmost pad first; `at` has for each of 128 ports the place of its pad.
#![tactic(auto)]

ghost use Rattle.std.specs.Prelude.{◌≤◌, length};
ghost use Rattle.places.specs.Places.{Entered, Placeable, Lowest, Highest};

// Enters the first m places: for each port that their pads have, `at` then has the place of its pad.
pub fn place(order: &[u8], w: &[u16], m: usize, at: &mut [u8])
    requires { Placeable order.now w.now m at.old }
    ensures { Entered order.now w.now m at.new }
{
    for i in 0..m {
        let j = usize::from(order[i]);
        let q = usize::from(w[j]);
        at[q] = i as u8;
    }
}

// A strip's first port, of a pad above l ports: down to the nearest port that a pad before place m has.
pub fn low(at: &[u8], l: usize, m: u8) -> usize
    requires { l ≤ length at.now }
    ensures { Lowest at.now m l result }
{
    for q in (0..l).rev() {
        if at[q] < m {
            return q + 1;
        }
    }
    0
}

// The port after its last, of p ports with h at the pad's height or below: up to the nearest such port.
// Stays: `low` with another direction, another bound and another answer.
pub fn high(at: &[u8], h: usize, m: u8, p: usize) -> usize
    requires { (h ≤ p) × (p ≤ length at.now) }
    ensures { Highest at.now m h p result }
{
    for b in h..p {
        if at[b] < m {
            return b;
        }
    }
    p
}
