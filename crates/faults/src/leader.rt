// A pad at (x, y), led to the height of a port: heights so small that their sums and differences fit.
ghost use Rattle.std.specs.Prelude.{◌<◌};
ghost use Rattle.std.specs.Int.Signed.{mag};

#[derive(Clone, Copy)]
pub struct Leader {
    pub x: u32,
    pub y: i64,
    pub port: i64,
    ghost small: { (mag y < 2147483648) × (mag port < 2147483648) },
}
