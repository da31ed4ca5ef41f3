// Text in lent bytes. Each function writes from a place on, answers the place after what it wrote, and keeps every other byte.
#![tactic(auto)]

ghost use Rattle.std.specs.Prelude.{◌+◌, ◌≤◌, [], ◌∷◌, ◌++◌, length};
ghost use Rattle.text.specs.Text.{Writes};
ghost use Rattle.text.specs.Text.{decimal as in-decimal};

// A word.
// Stays: bytes and a place are apart, since with both in a struct each clause would speak of its bytes and its place before and after.
pub fn word(s: &[u8], out: &mut [u8], at: usize) -> usize
    requires { at + length s.now ≤ length out.old }
    ensures { Writes out.old at s.now result out.new }
{
    let end = at + s.len();
    out[at..end].copy_from_slice(s);
    end
}

// A number in decimal.
#[tactic(auto, using(crate::specs::Digits::length_one, crate::specs::Digits::length_more))]
pub fn decimal(n: u64, out: &mut [u8], at: usize) -> usize
    requires { at + length (in-decimal n) ≤ length out.old }
    ensures { Writes out.old at (in-decimal n) result out.new }
{
    if n < 10 {
        out[at] = b'0' + n as u8;
        return at + 1;
    }
    let last = decimal(n / 10, out, at);
    out[last] = b'0' + (n % 10) as u8;
    last + 1
}

// A number in decimal and the byte that ends it.
#[tactic(auto, using(crate::specs::Digits::decimal_short))]
pub fn field(n: u64, end: u8, out: &mut [u8], at: usize) -> usize
    requires { at + 21 ≤ length out.old }
    ensures { Writes out.old at (in-decimal n ++ (end ∷ [])) result out.new × (result ≤ at + 21) }
{
    let last = decimal(n, out, at);
    out[last] = end;
    last + 1
}
