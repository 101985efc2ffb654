// A line as its words.
ghost use Rattle.std.specs.Prelude.{◌≡◌, ◌||◌, List, eqb};
ghost use Rattle.std.specs.Iterator.{YieldsFirstRef, item_count};
ghost use Rattle.script.specs.Signs.{blank, hash};
ghost use Rattle.script.specs.Words.{line_words};

// The words of a line that are still to come: what is left of it, with its comment.
#[derive(Drop)]
pub(crate) struct Words<'a> {
    rest: &'a [u8],
}

// A space, a tab or a carriage return.
fn is_blank(byte: u8) -> bool
    ensures { result ≡ blank byte }
{
    matches!(byte, b' ' | b'\t' | b'\r')
}

// What no word has: a blank, or the `#` of a comment.
fn ends_word(byte: u8) -> bool
    ensures { result ≡ (blank byte || eqb byte hash) }
{
    is_blank(byte) || byte == b'#'
}

// All the words of a line; none is read before it is asked for.
pub(crate) fn words_of(line: &[u8]) -> Words<'_>
    ensures { line_words result.rest.now ≡ line_words line.now }
{
    Words { rest: line }
}

impl<'a> Iterator for Words<'a> {
    type Item = &'a [u8];

    ghost next_gives = { YieldsFirstRef (λ s. line_words s.rest.now) };

    ghost remaining = { item_count (λ s. line_words s.rest.now) };

    fn next(&mut self) -> Option<&'a [u8]> {
        let from = self.rest.iter().position(|byte| !is_blank(*byte))?;
        let line = &self.rest[from..];
        let to = line
            .iter()
            .position(|byte| ends_word(*byte))
            .unwrap_or(line.len());
        // A comment hides what follows.
        if to == 0 {
            return None;
        }
        let (word, rest) = line.split_at(to);
        self.rest = rest;
        Some(word)
    }
}
