//! Words that are compared.
ghost use Rattle.std.specs.Prelude.{◌≡◌, length};
ghost use Rattle.std.specs.Str.{bytes_eq};

/// Whether the word is this text.
#[inline(always)]
pub fn is_word(word: &[u8], text: &[u8]) -> bool
    ensures { result ≡ bytes_eq word.now text.now }
{
    if word.len() != text.len() {
        return false;
    }
    are_alike(word, text)
}

/// Whether words of one length are alike; most differ early, so that a call of `==` would be the longer way.
#[inline(always)]
fn are_alike(word: &[u8], text: &[u8]) -> bool
    requires { length word.now ≡ length text.now }
    ensures { result ≡ bytes_eq word.now text.now }
{
    for place in 0..text.len() {
        if word[place] != text[place] {
            return false;
        }
    }
    true
}
