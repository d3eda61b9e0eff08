//! Lines, words and numbers of a text.
ghost use Rattle.std.specs.Prelude.{◌≡◌, ◌⊎◌, ◌++◌, ◌==◌, ℕ, ◌<◌, ◌^◌, [], ◌∷◌, length, MatchOption, IfSome, IfNone};
ghost use Rattle.std.specs.List.{list_all, slice_split};
ghost use Rattle.std.specs.Option.{option_map_or};
ghost use Rattle.std.specs.Char.{is_ascii_digit};
ghost use Rattle.std.specs.Fmt.{decimal};
ghost use Rattle.td_plan.specs.Text.{text_lines, words, is_printable, is_passed_over, is_numeral, natural_of, number_of};

/// What stands before the first `at`, and what stands after it, if it is there.
fn cut(text: &str, at: char) -> (&str, Option<&str>)
    requires { at < 128 }
    ensures split { slice_split (λ b. b == at) text.now ≡ result.0.now ∷ option_map_or (λ rest. slice_split (λ b. b == at) rest.now) result.1 [] }
    ensures whole { IfNone result.1 (result.0.now ≡ text.now) }
    ensures around { IfSome result.1 (λ rest. text.now ≡ result.0.now ++ at ∷ rest.now) }
    ensures shorter { IfSome result.1 (λ rest. length rest.now < length text.now) }
{
    match text.split_once(at) {
        Some((before, after)) => (before, Some(after)),
        None => (text, None),
    }
}

/// The first line of a text, without its line feed, and the text after it.
pub fn next_line(text: &str) -> Option<(&str, &str)>
    ensures lines { MatchOption result (text_lines text.now ≡ []) (λ p. text_lines text.now ≡ p.0.now ∷ text_lines p.1.now) }
    ensures bytes { IfSome result (λ p. (text.now ≡ p.0.now ++ 10 ∷ p.1.now) ⊎ ((text.now ≡ p.0.now) × (p.1.now ≡ []))) }
    ensures shorter { IfSome result (λ p. length p.1.now < length text.now) }
{
    if text.is_empty() {
        return None;
    }
    let (line, rest) = cut(text, '\n');
    match rest {
        Some(rest) => Some((line, rest)),
        None => Some((line, "")),
    }
}

/// The first word of a line, and the line after it. Words stand between spaces.
pub fn next_word(line: &str) -> Option<(&str, &str)>
    ensures split { MatchOption result (words line.now ≡ []) (λ p. words line.now ≡ p.0.now ∷ words p.1.now) }
    ensures some { IfSome result (λ p. 0 < length p.0.now) }
    ensures shorter { IfSome result (λ p. length p.1.now < length line.now) }
{
    let mut left = line;
    while !left.is_empty() {
        let (word, rest) = cut(left, ' ');
        let rest = rest.unwrap_or("");
        if !word.is_empty() {
            return Some((word, rest));
        }
        left = rest;
    }
    None
}

/// Whether each byte is a printable ASCII character.
pub fn is_printable(line: &str) -> bool
    ensures { result ≡ list_all is_printable line.now }
{
    line.as_bytes().iter().all(|b| *b >= 32 && *b <= 126)
}

/// Whether a line is passed over: it is printable, and has no word, or a first word that begins with `#`.
pub fn is_passed_over(line: &str) -> bool
    ensures { result ≡ is_passed_over line.now }
{
    if !is_printable(line) {
        return false;
    }
    match next_word(line) {
        None => true,
        Some((word, _)) => word.as_bytes()[0] == b'#',
    }
}

/// The number below 2^64 that a word writes: digits, with no sign and no leading zeros.
pub fn natural(word: &str) -> Option<u64>
    ensures exact { result ≡ natural_of word.now }
    // What is read is what that number prints, and what a number prints is read.
    ensures printed { IfSome result (λ n. word.now ≡ decimal n) }
    ensures none { IfNone result ((n : ℕ) → n < 2 ^ 64 → word.now ≡ decimal n → ⊥) }
{
    if !is_numeral(word.as_bytes()) {
        return None;
    }
    word.parse().ok()
}

/// The number that a word writes in at most nine digits, with no leading zeros.
pub fn number(word: &str) -> Option<u32>
    ensures exact { result ≡ number_of word.now }
    ensures printed { IfSome result (λ n. word.now ≡ decimal n) }
    ensures small { IfSome result (λ n. n < 1000000000) }
    ensures none { IfNone result ((n : ℕ) → n < 1000000000 → word.now ≡ decimal n → ⊥) }
{
    let number = natural(word)?;
    if number < 1_000_000_000 {
        Some(number as u32)
    } else {
        None
    }
}

fn is_numeral(word: &[u8]) -> bool
    ensures { result ≡ is_numeral word.now }
{
    if !are_digits(word) {
        return false;
    }
    if word.is_empty() {
        return false;
    }
    if word[0] == b'0' {
        return word.len() == 1;
    }
    true
}

fn are_digits(word: &[u8]) -> bool
    ensures { result ≡ list_all is_ascii_digit word.now }
{
    word.iter().all(|b| b.is_ascii_digit())
}
