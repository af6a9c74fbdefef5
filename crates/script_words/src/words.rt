ghost use Rattle.std.specs.Prelude.{◌≡◌, ◌<◌, ◌↔◌, ◌==◌, [], ◌∷◌, length, position, MatchOption, IsTrue};
ghost use Rattle.script_words.specs.Words.{left, pieces};

// The place of the first octet that is `at`.
fn place_of(text: &[u8], at: u8) -> Option<usize>
    ensures { result ≡ position (λ c. c == at) text.now }
{
    text.iter().position(|octet| *octet == at)
}

/// What stands before the first octet that is `at`, and what stands behind it.
pub fn cut(text: &[u8], at: u8) -> Option<(&[u8], &[u8])>
    ensures { MatchOption result (pieces at text.now ≡ text.now ∷ []) (λ r. (pieces at text.now ≡ r.0.now ∷ pieces at r.1.now) × (length r.1.now < length text.now)) }
{
    let end = place_of(text, at)?;
    let (front, rest) = text.split_at(end);
    let (_, behind) = rest.split_at(1);
    Some((front, behind))
}

/// Whether a line or a word is this text.
pub fn is_text(line: &[u8], text: &str) -> bool
    ensures { IsTrue result ↔ (line.now ≡ text.now) }
{
    line == text.as_bytes()
}

/// The words of a line that are still to be read.
#[derive(Clone, Copy)]
pub struct Words<'a> {
    rest: Option<&'a [u8]>,
}

impl<'a> Words<'a> {
    /// All words of a line.
    pub fn of(line: &'a [u8]) -> Words<'a>
        ensures { left result ≡ pieces 32 line.now }
    {
        Words { rest: Some(line) }
    }

    /// The next word, and the words behind it.
    pub fn word(self) -> Option<(&'a [u8], Words<'a>)>
        ensures { MatchOption result (left self.entry ≡ []) (λ r. left self.entry ≡ r.0.now ∷ left r.1) }
    {
        let text = self.rest?;
        match cut(text, b' ') {
            Some((word, behind)) => Some((word, Words { rest: Some(behind) })),
            None => Some((text, Words { rest: None })),
        }
    }

    /// Whether no word is left.
    pub fn is_empty(self) -> bool
        ensures { IsTrue result ↔ (left self.entry ≡ []) }
    {
        match self.rest {
            Some(_) => false,
            None => true,
        }
    }
}
