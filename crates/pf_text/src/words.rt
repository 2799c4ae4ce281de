//! The words of a line.
ghost use Rattle.std.specs.Prelude.{◌≡◌, ◌≤◌, ◌++◌, ◌∷◌, [], filter, length, map, take};
ghost use Rattle.std.specs.List.{position};
ghost use Rattle.pf_text.specs.Words.{words_of, is_blank, is_word, trimmed};

use arrayvec::ArrayVec;

/// Where the first blank of these bytes stands.
fn blank_in(bytes: &[u8]) -> Option<usize>
    ensures { result ≡ position is_blank bytes.now }
{
    bytes
        .iter()
        .position(|byte| *byte == b' ' || *byte == b'\t')
}

/// Puts what stands between two blanks behind the words before it, where it is a word and has room.
fn put_word<'a>(words: &mut ArrayVec<&'a [u8], 8>, piece: &'a [u8])
    requires { length words.old.items ≤ 8 }
    ensures words { map (λ word. word.now) words.new.items ≡ take 8 (map (λ word. word.now) words.old.items ++ filter is_word (piece.now ∷ [])) }
    ensures room { length words.new.items ≤ 8 }
{
    if piece.is_empty() {
        return;
    }
    if words.is_full() {
        return;
    }
    words.push(piece);
}

/// The first 8 words of a line, as they stand in it.
pub fn first_words(line: &[u8]) -> ArrayVec<&[u8], 8>
    ensures { map (λ word. word.now) result.items ≡ take 8 (words_of line.now) }
{
    let mut words = ArrayVec::new();
    let mut rest = line;
    while let Some(at) = blank_in(rest) {
        put_word(&mut words, &rest[..at]);
        rest = &rest[at + 1..];
    }
    put_word(&mut words, rest);
    words
}

/// The line without one carriage return at its end.
pub fn trim(line: &[u8]) -> &[u8]
    ensures { result.now ≡ trimmed line.now }
{
    match line {
        [front @ .., b'\r'] => front,
        _ => line,
    }
}
