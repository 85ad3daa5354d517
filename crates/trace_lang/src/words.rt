//! The words of a line.
ghost use Rattle.std.specs.Prelude.{◌≡◌, ◌<◌, ◌≤◌, ◌∷◌, ◌++◌, map, take, length, slice_index, IfSome, IfNone};
ghost use Rattle.trace_lang.specs.Grammar.{HasNoSpace};
ghost use Rattle.trace_lang.specs.Words.{words_of};

/// The most words that stand after the permission of a mapping.
pub(crate) const MAX_WORDS: usize = 4;

/// Where the first space stands.
#[inline(never)]
fn space_in(text: &[u8]) -> Option<usize>
    ensures none { IfNone result (HasNoSpace text.now) }
    ensures first { IfSome result (λ at. HasNoSpace (take at text.now)) }
    ensures space { IfSome result (λ at. (at < length text.now) × (slice_index text.now at ≡ 32)) }
{
    for at in 0..text.len() {
        if text[at] == b' ' {
            return Some(at);
        }
    }
    None
}

/// The first word, and what the other words stand in; `None` where there is no other.
pub(crate) fn cut(text: &[u8]) -> Option<(&[u8], &[u8])>
    ensures parts { IfSome result (λ r. text.now ≡ r.0.now ++ 32 ∷ r.1.now) }
    ensures word { IfSome result (λ r. HasNoSpace r.0.now) }
    ensures alone { IfNone result (HasNoSpace text.now) }
{
    let at = space_in(text)?;
    Some((&text[..at], &text[at + 1..]))
}

/// Writes the words of a text, which stand between its spaces, to the front of an array, and returns how many they are; `None`
/// exactly where they are more than four.
pub(crate) fn split_words<'a>(text: &'a [u8], words: &mut [&'a [u8]; MAX_WORDS]) -> Option<usize>
    ensures found { IfSome result (λ count. (count ≤ 4) × (map (λ w. w.now) (take count words.new) ≡ words_of text.now)) }
    ensures none { IfNone result (4 < length (words_of text.now)) }
    ensures room { length words.new ≡ 4 }
{
    let mut count = 0;
    for word in text.split(|byte| *byte == b' ') {
        if count == MAX_WORDS {
            return None;
        }
        words[count] = word;
        count += 1;
    }
    Some(count)
}
