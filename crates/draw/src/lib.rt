// One leader for the canvas, in 32-bit floats, and its points in the list that a C program lends.
#![tactic(auto)]

ghost use Rattle.std.specs.Prelude.{◌≡◌, ◌≤◌, length, nat_abs};
ghost use Rattle.paper.specs.Canvas.{coordinates};
ghost use Rattle.paper.specs.Promises.{overwritten};
ghost use Rattle.paper.specs.laws.Quarter.{quarter};
ghost use Rattle.paper.specs.laws.Drawn.{OnSheet, canvas, leader_drawn};

use paper::{Drawn, Point, Polyline};

// A quarter of a whole number: a quarter of a canvas unit is one job unit. Exact below 2^24. The number has 32 bits, and is
// cast and multiplied alone: beside another the machine would multiply what the caller left in the register as well, which
// can raise a floating-point exception.
#[inline(never)]
fn quarter_of(v: i32) -> f32
    requires { nat_abs v ≤ 1000000 }
    ensures { result ≡ quarter v }
{
    v as f32 * 0.25
}

// The point (x, y) of the sheet on the canvas, where y grows downward. The height is reversed before the cast: after it,
// height 0 would be drawn as -0.
#[tactic(auto, unfolding(paper::specs::laws::Drawn::canvas))]
fn on_canvas(x: u32, y: i32) -> Point
    requires { (x ≤ 1000000) × (nat_abs y ≤ 1000000) }
    ensures { result ≡ canvas x y }
{
    Point {
        x: quarter_of(x as i32),
        y: quarter_of(-y),
    }
}

// A height of the sheet in 32 bits.
// Stays: a height is cut to 32 bits, and From only widens.
fn short(y: i64) -> i32
    requires { nat_abs y ≤ 1000000 }
    ensures { (result ≡ y) × (nat_abs result ≤ 1000000) }
{
    y as i32
}

// The leader of a pad (x, y) to a port of height q.
pub fn lead(x: u32, y: i64, q: i64) -> Polyline
    requires { OnSheet (record { x = x; y = y; port = q }) }
    ensures { Ok result ≡ leader_drawn (record { x = x; y = y; port = q }) }
{
    let pad = on_canvas(x, short(y));
    let port = on_canvas(0, short(q));
    if y == q {
        Polyline::Straight { pad, port }
    } else {
        let bend = on_canvas(x, short(q));
        Polyline::Bent { pad, bend, port }
    }
}

// Writes the points' coordinates, x before y. A refusal has none.
pub fn put(drawn: Drawn, out: &mut [f32])
    requires { length (coordinates drawn) ≤ length out.old }
    ensures { out.new ≡ overwritten (coordinates drawn) out.old }
{
    match drawn {
        Ok(Polyline::Straight { pad, port }) => {
            out[..4].copy_from_slice(&[pad.x, pad.y, port.x, port.y]);
        }
        Ok(Polyline::Bent { pad, bend, port }) => {
            out[..6].copy_from_slice(&[pad.x, pad.y, bend.x, bend.y, port.x, port.y]);
        }
        Err(_) => {}
    }
}
