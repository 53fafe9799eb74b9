// Words of eight hex digits. Not std's parsing, which takes a sign, fewer digits and lower case: none of these is a word here.
ghost use Rattle.std.specs.Prelude.{◌≡◌, ◌+◌, ◌<◌, ◌≤◌, length};
ghost use Rattle.replay.specs.Words.{is_digit, digit_of, is_pair, pair_of, is_word, word_of};

#[tactic(auto, unfolding(crate::specs::Words::is_digit))]
fn is_digit(b: u8) -> bool
    ensures { result ≡ is_digit b }
{
    matches!(b, b'0'..=b'9' | b'A'..=b'F')
}

// The value of a hex digit; 0 where b is none.
#[tactic(auto, unfolding(crate::specs::Words::digit_of))]
fn digit(b: u8) -> u8
    ensures value { result ≡ digit_of b }
    ensures small { result < 16 }
{
    match b {
        b'0'..=b'9' => b - b'0',
        b'A'..=b'F' => b - b'A' + 10,
        _ => 0,
    }
}

#[tactic(auto, unfolding(crate::specs::Words::is_pair))]
fn is_pair(s: &[u8], i: usize) -> bool
    requires { i + 2 ≤ length s.now }
    ensures { result ≡ is_pair s.now i }
{
    is_digit(s[i]) && is_digit(s[i + 1])
}

// The byte that two hex digits at i spell.
#[tactic(auto, unfolding(crate::specs::Words::pair_of))]
pub fn pair(s: &[u8], i: usize) -> u8
    requires { i + 2 ≤ length s.now }
    ensures { result ≡ pair_of s.now i }
{
    digit(s[i]) * 16 + digit(s[i + 1])
}

// Whether eight hex digits stand at i.
#[tactic(auto, unfolding(crate::specs::Words::is_word))]
pub fn is_word(s: &[u8], i: usize) -> bool
    requires { i + 8 ≤ length s.now }
    ensures { result ≡ is_word s.now i }
{
    is_pair(s, i) && is_pair(s, i + 2) && is_pair(s, i + 4) && is_pair(s, i + 6)
}

// The word that eight hex digits at i spell.
#[tactic(auto, unfolding(crate::specs::Words::word_of))]
pub fn word(s: &[u8], i: usize) -> u32
    requires { i + 8 ≤ length s.now }
    ensures { result ≡ word_of s.now i }
{
    u32::from_be_bytes([pair(s, i), pair(s, i + 2), pair(s, i + 4), pair(s, i + 6)])
}
