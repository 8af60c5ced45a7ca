// The lines of a text.
ghost use Rattle.std.specs.Prelude.{◌≡◌, ◌==◌, position};
ghost use Rattle.std.specs.Iterator.{YieldsFirstRef, item_count};
ghost use Rattle.hexpairs.specs.Lines.{FirstLine, lines_of, left_of};

// The lines of a text that are still to come. No `split_inclusive`: with its closure it has no type that `lines_of` could
// name, and a result `impl Iterator` gets no proof.
#[derive(Drop)]
pub struct Lines<'a> {
    left: &'a [u8],
}

// Where the first line feed stands.
fn feed(text: &[u8]) -> Option<usize>
    ensures { result ≡ position (λ b. b == 10) text.now }
{
    text.iter().position(|b| *b == b'\n')
}

// The first line of a text, and what stands behind its line feed.
fn first_line<'a>(text: &'a [u8]) -> (&'a [u8], &'a [u8])
    ensures { FirstLine text.now result.0.now result.1.now }
{
    match feed(text) {
        Some(at) => (&text[..at], &text[at + 1..]),
        None => (text, &[]),
    }
}

impl<'a> Iterator for Lines<'a> {
    type Item = &'a [u8];

    ghost next_gives = { YieldsFirstRef left_of };

    ghost remaining = { item_count left_of };

    #[tactic(auto, using(crate::proofs::Cuts::next_line))]
    fn next(&mut self) -> Option<&'a [u8]> {
        if self.left.is_empty() {
            return None;
        }
        let (line, rest) = first_line(self.left);
        self.left = rest;
        Some(line)
    }
}

// The lines of a text: each ends at a line feed, which the last may lack.
pub fn lines_of<'a>(text: &'a [u8]) -> Lines<'a>
    ensures { left_of result ≡ lines_of text.now }
{
    Lines { left: text }
}

#[cfg(test)]
mod tests {
    use super::*;
    use std::test::Fail;

    #[test]
    fn lines_of_texts(rt: HostRuntime) -> Result<(), Fail> {
        assert!(rt; lines_of(b"").count() == 0);
        assert!(rt; lines_of(b"a\n").count() == 1);
        assert!(rt; lines_of(b"\n\r\n").count() == 2);
        let texts: [&[u8]; 3] = [b"ab", b"", b"c"];
        for (line, text) in lines_of(b"ab\n\nc").zip(texts) {
            assert!(rt; line == text);
        }
        Ok(())
    }
}
