// What stands in a line of a list: a byte, a word, a number, a field, the end. Each function does the step of its name in paper's laws/Parsing.antt
// at the front of a text, and answers the text that follows.
#![tactic(auto)]

ghost use Rattle.std.specs.Prelude.{◌≡◌, ◌+◌, ◌*◌, ◌-◌, ◌≤◌, length, IfSome};
ghost use Rattle.paper.specs.laws.Parsing.{got, skip, cap, word_front, digits_front, natural_front, signed_front, field_front, end_front};
ghost use Rattle.fields.specs.Fronts.{content_of, rest_front, Reads};

// What a field has to be: a word of the first line, or a number without a sign or with one.
// Stays: five arms of one match are plainer than five readers handed in, each with a clause of its own.
#[derive(Clone, Copy)]
pub enum Kind {
    Name,
    X,
    Y,
    Natural,
    Signed,
}

// One byte.
pub fn byte(text: &[u8], b: u8) -> Option<&[u8]>
    ensures front { skip b text.now ≡ rest_front result }
    ensures shorter { IfSome result (λ rest. length rest.now + 1 ≤ length text.now) }
{
    match text {
        [first, rest @ ..] if *first == b => Some(rest),
        _ => None,
    }
}

// A word, for which a field says 0.
#[tactic(auto, using(crate::proofs::Words::word_front_same))]
fn word<'a>(text: &'a [u8], w: &[u8]) -> Option<(u32, &'a [u8])>
    ensures { Reads (word_front w.now) text.now result }
{
    Some((0, text.strip_prefix(w)?))
}

// A number with one digit more: what is above 1,000,000 is as good as 1,000,001.
#[tactic(auto, unfolding(paper::specs::laws::Parsing::cap))]
fn grown(value: u32, c: u8) -> u32
    requires { (value ≤ 1000001) × (48 ≤ c) × (c ≤ 57) }
    ensures { (result ≡ cap (10 * value + (c - 48))) × (result ≤ 1000001) }
{
    let n = 10 * value + u32::from(c - b'0');
    n.min(1000001)
}

// The digits that follow those which came to `first`.
#[tactic(auto, unfolding(paper::specs::laws::Parsing::digits_front))]
fn digits(text: &[u8], first: u32) -> (u32, &[u8])
    requires { first ≤ 1000001 }
    ensures front { digits_front first text.now ≡ got result.0 result.1.now }
    ensures shorter { length result.1.now ≤ length text.now }
{
    let mut value = first;
    for (place, c) in text.iter().enumerate() {
        if !c.is_ascii_digit() {
            return (value, &text[place..]);
        }
        value = grown(value, *c);
    }
    (value, &text[text.len()..])
}

// A number without a sign. After a 0 no digit is read.
#[tactic(auto, unfolding(paper::specs::laws::Parsing::natural_front))]
fn natural(text: &[u8]) -> Option<(u32, &[u8])>
    ensures { Reads natural_front text.now result }
{
    match text {
        [b'0', rest @ ..] => Some((0, rest)),
        [c @ b'1'..=b'9', rest @ ..] => Some(digits(rest, u32::from(*c - b'0'))),
        _ => None,
    }
}

// A number with a sign, or without. -0 is none.
#[tactic(auto, unfolding(paper::specs::laws::Parsing::signed_front))]
fn signed(text: &[u8]) -> Option<(u32, &[u8])>
    ensures { Reads signed_front text.now result }
{
    let Some(size) = byte(text, b'-') else {
        return natural(text);
    };
    let (n, rest) = natural(size)?;
    if n == 0 {
        return None;
    }
    Some((n.wrapping_neg(), rest))
}

// What stands in a field.
fn content(kind: Kind, text: &[u8]) -> Option<(u32, &[u8])>
    ensures { Reads (content_of kind) text.now result }
{
    match kind {
        Kind::Name => word(text, b"name"),
        Kind::X => word(text, b"x"),
        Kind::Y => word(text, b"y"),
        Kind::Natural => natural(text),
        Kind::Signed => signed(text),
    }
}

// A field, between quotes or without: a number, or for a word 0. A number below 0 is in 32 bits, two's complement.
#[tactic(auto, unfolding(paper::specs::laws::Parsing::field_front))]
pub fn field(kind: Kind, text: &[u8]) -> Option<(u32, &[u8])>
    ensures { Reads (field_front (content_of kind)) text.now result }
{
    let quoted = byte(text, b'"');
    let (n, rest) = content(kind, quoted.unwrap_or(text))?;
    if quoted.is_none() {
        return Some((n, rest));
    }
    Some((n, byte(rest, b'"')?))
}

// The end of a line: CR and LF, or that of the text.
pub fn end(text: &[u8]) -> Option<&[u8]>
    ensures front { end_front text.now ≡ rest_front result }
    ensures shorter { IfSome result (λ rest. length rest.now ≤ length text.now) }
{
    if text.is_empty() {
        return Some(text);
    }
    let line_feed = byte(text, b'\r')?;
    byte(line_feed, b'\n')
}
