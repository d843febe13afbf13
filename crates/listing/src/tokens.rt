ghost use Rattle.std.specs.Prelude.{◌≡◌, ◌==◌, not, position, IfSome, ◌<◌, length};
ghost use Rattle.listing.specs.Words as spec;
ghost use Rattle.listing.specs.Words.{only_word, triple_bytes, uncommented, word_bytes, words, words_of_pair};

use text::cut;

// Where the first word begins.
fn word_start(s: &[u8]) -> Option<usize>
    ensures is { result ≡ position (λ x. not (x == 32)) s.now }
    ensures within { IfSome result (λ p. p < length s.now) }
{
    s.iter().position(|x| *x != b' ')
}

/// The first word, and what follows it.
pub fn next_word(s: &[u8]) -> Option<(&[u8], &[u8])>
    ensures { words_of_pair result ≡ words s.now }
{
    let t = &s[word_start(s)?..];
    Some(cut(t, b' ').unwrap_or((t, &[])))
}

/// What stands before the comment.
pub fn before_comment(line: &[u8]) -> &[u8]
    ensures { result.now ≡ uncommented line.now }
{
    cut(line, b'#').map_or(line, |(said, _)| said)
}

/// The only word.
pub fn one_word(s: &[u8]) -> Option<&[u8]>
    ensures { word_bytes result ≡ only_word (words s.now) }
{
    let (word, rest) = next_word(s)?;
    next_word(rest).is_none().then_some(word)
}

/// The words, if there are just three.
pub fn three_words(s: &[u8]) -> Option<(&[u8], &[u8], &[u8])>
    ensures { triple_bytes result ≡ spec.three_words (words s.now) }
{
    let (first, rest) = next_word(s)?;
    let (second, rest) = next_word(rest)?;
    let third = one_word(rest)?;
    Some((first, second, third))
}
