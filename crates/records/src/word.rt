// The words of a line: what a text begins with, and the text behind it.
ghost use Rattle.std.specs.Prelude.{◌≡◌, ◌<◌, ◌≤◌, length, drop, option_map, IfSome};
ghost use Rattle.records.specs.Words.{byte_at, digit_value, digits_at, token_at, split_behind, line_goes_on, next_text, line_feed_at, line_length};

// Every NaN is this pattern here, since the bits of a NaN are free.
pub const NAN: u64 = 0x7ff8_0000_0000_0000;

// The digit that a text begins with, 0 to 15, and the text behind it.
#[tactic(auto, unfolding(crate::specs::Words::digit_value))]
fn digit(text: &[u8]) -> Option<(u8, &[u8])>
    ensures value { option_map (λ digit. digit.0) result ≡ digit_value (byte_at text.now 0) }
    ensures behind { IfSome result (λ digit. digit.1.now ≡ drop 1 text.now) }
    ensures below_16 { IfSome result (λ digit. digit.0 < 16) }
{
    match text {
        [byte @ b'0'..=b'9', behind @ ..] => Some((byte - b'0', behind)),
        [byte @ b'a'..=b'f', behind @ ..] => Some((byte - b'a' + 10, behind)),
        _ => None,
    }
}

// The number of the digits that a text begins with, 1 to 16 of them, and the text behind them.
// By hand: `from_str_radix` wants a `&str` cut to the digits, and takes upper case, a sign and more digits too.
fn digits(text: &[u8]) -> Option<(u64, &[u8])>
    ensures { option_map (λ word. (word.0, word.1.now)) result ≡ split_behind text.now (digits_at text.now 0) }
{
    let mut value = 0;
    let mut rest = text;
    while let Some((next, behind)) = digit(rest) {
        if text.len() - rest.len() == 16 {
            return None;
        }
        value = value * 16 + u64::from(next);
        rest = behind;
    }
    if rest.len() == text.len() {
        return None;
    }
    Some((value, rest))
}

// The number of what a text begins with, digits or `nan`, and the text behind it.
#[tactic(auto, unfolding(crate::specs::Words::token_at, crate::specs::Words::spells_nan))]
pub fn token(text: &[u8]) -> Option<(u64, &[u8])>
    ensures { option_map (λ word. (word.0, word.1.now)) result ≡ split_behind text.now (token_at text.now 0) }
{
    if let Some(behind) = text.strip_prefix(b"nan") {
        return Some((NAN, behind));
    }
    digits(text)
}

// Whether a line has a byte before its end.
#[tactic(auto, unfolding(crate::specs::Words::line_goes_on))]
pub fn line_goes_on(text: &[u8]) -> bool
    ensures { result ≡ line_goes_on text.now 0 }
{
    text.first().is_some_and(|byte| *byte != b'\n')
}

// What a reader goes on with behind a word: the line feed, or what a space has behind it in the line.
#[tactic(auto, unfolding(crate::specs::Words::next_text))]
pub fn next_text(behind: &[u8]) -> Option<&[u8]>
    ensures { option_map (λ next. next.now) result ≡ next_text behind.now }
{
    match behind {
        [b'\n', ..] => Some(behind),
        [b' ', next @ ..] if line_goes_on(next) => Some(next),
        _ => None,
    }
}

// How far the first line feed is, if there is one.
fn line_feed_at(text: &[u8]) -> Option<usize>
    ensures place { result ≡ line_feed_at text.now }
    ensures within { IfSome result (λ place. place < length text.now) }
{
    text.iter().position(|byte| *byte == b'\n')
}

// How many bytes stand before the first line feed; all, where there is none.
pub fn line_length(text: &[u8]) -> usize
    ensures length { result ≡ line_length text.now }
    ensures within { result ≤ length text.now }
{
    line_feed_at(text).unwrap_or(text.len())
}
