// The first record at fault: the first number, or the first pair of numbers, at which a test holds, and the first bad entry of a layout.
#![tactic(auto)]

ghost use Rattle.std.specs.Prelude.{◌≡◌, ℕ, ◌≤◌, ◌<◌, Bool, length};
ghost use Rattle.paper.specs.laws.Tests.{bad_entry};
ghost use Rattle.find.specs.Search.{first_where, first_pair_where};

// A record at fault, and the earlier one that it was found with.
#[derive(Clone, Copy, Debug, PartialEq, Eq)]
pub struct Fault {
    pub at: u16,
    pub earlier: u16,
}

// The first number below n at which a test holds.
pub fn first_where<F: Fn(u16) -> bool>(n: u16, test: F) -> Option<u16>
    requires { (i : ℕ) → i < n → F.pre test i }
    ensures { (p : ℕ → Bool) → ((i : ℕ) → i < n → (b : Bool) → F.post test i b → b ≡ p i) → result ≡ first_where p n }
{
    for i in 0..n {
        if test(i) {
            return Some(i);
        }
    }
    None
}

// The first number below n at which a test of two holds with a smaller one, and the smallest such one.
pub fn first_pair_where<F: Fn(u16, u16) -> bool>(n: u16, test: F) -> Option<Fault>
    requires { (i j : ℕ) → i < n → j < i → F.pre test i j }
    ensures { (q : ℕ → ℕ → Bool) → ((i j : ℕ) → i < n → j < i → (b : Bool) → F.post test i j b → b ≡ q i j) → result ≡ first_pair_where q n }
{
    let mut found = None;
    'records: for at in 0..n {
        for earlier in 0..at {
            if test(at, earlier) {
                found = Some(Fault { at, earlier });
                break 'records;
            }
        }
    }
    found
}

// The first of the n entries that is the port count p or more, or stood earlier: those that stood are marked.
pub fn first_bad_entry(list: &[u16], n: u16, p: u16) -> Option<u16>
    requires { (n ≤ length list.now) × (p ≤ 128) }
    ensures { result ≡ first_where (bad_entry p list.now) n }
{
    // Stays: no call allocates, so there is a mark for each of 128 ports.
    let mut marks = [false; 128];
    for k in 0..n {
        let q = list[usize::from(k)];
        if p <= q || marks[usize::from(q)] {
            return Some(k);
        }
        marks[usize::from(q)] = true;
    }
    None
}
