// Words and numbers of a script's line: comparisons of texts, and the number at the front of a part.
#![tactic(auto)]

ghost use Rattle.std.specs.Prelude.{◌≡◌, ◌≤◌, true, length, get_or};
ghost use Rattle.definitions.specs.Texts.{same, starts, is_digit};
ghost use Rattle.words.specs.Numbers.{number_for, closed_for};

// A number and how many digits it has.
#[derive(Clone, Copy)]
pub struct Number {
    pub value: u16,
    pub digits: usize,
}

// "numbers of one to three digits"
const MOST_DIGITS: usize = 3;

// Two parts are the same text. The first bytes that differ end the comparison.
pub fn same_text(part: &[u8], text: &[u8]) -> bool
    ensures { result ≡ same part.now text.now }
{
    if part.len() != text.len() {
        return false;
    }
    part.iter().zip(text).all(|(a, b)| a == b)
}

// A part begins with a text.
pub fn starts_with(part: &[u8], text: &[u8]) -> bool
    ensures value { result ≡ starts text.now part.now }
    ensures long { result ≡ true → length text.now ≤ length part.now }
{
    if part.len() < text.len() {
        return false;
    }
    same_text(&part[..text.len()], text)
}

// There is a digit at a place of a part.
pub fn digit_at(part: &[u8], at: usize) -> bool
    ensures { result ≡ is_digit (get_or part.now at 0) }
{
    matches!(part.get(at), Some(b'0'..=b'9'))
}

// The number at the front of a part. No more than MOST_DIGITS digits are taken, so it stays below 1000.
pub fn read_number(part: &[u8]) -> Option<Number>
    ensures { result ≡ number_for part.now }
{
    let mut value = 0;
    let mut digits = 0;
    while digit_at(part, digits) {
        if digits == MOST_DIGITS {
            return None;
        }
        value = 10 * value + u16::from(part[digits] - b'0');
        digits += 1;
    }
    if digits == 0 {
        return None;
    }
    if 1 < digits && starts_with(part, b"0") {
        return None;
    }
    Some(Number { value, digits })
}

// A number that a text follows, and nothing else.
pub fn read_closed(part: &[u8], closing: &[u8]) -> Option<Number>
    ensures { result ≡ closed_for part.now closing.now }
{
    let number = read_number(part)?;
    if same_text(&part[number.digits..], closing) {
        Some(number)
    } else {
        None
    }
}
