// The lines of a text, one by one.
ghost use Rattle.std.specs.Prelude.{◌≡◌, ◌≤◌, length, drop};
ghost use Rattle.std.specs.List.{prefix_len};
ghost use Rattle.texts.specs.Lines.{in_line, lines_of, lines_left};

// How many bytes the first line has.
fn line_len(s: &[u8]) -> usize
    ensures run { result ≡ prefix_len in_line s.now }
    ensures within { result ≤ length s.now }
{
    s.iter().take_while(|b| **b != b'\n').count()
}

// What stands after the byte that ends a line.
fn past_end(s: &[u8]) -> &[u8]
    ensures { result.now ≡ drop 1 s.now }
{
    match s {
        [_, more @ ..] => more,
        [] => s,
    }
}

// The lines that are left, without the byte that ends each; a last line need not end. The readers' loops do not prove over
// `split_inclusive`.
#[derive(Drop)]
pub struct Lines<'t> {
    rest: &'t [u8],
}

impl<'t> Lines<'t> {
    pub fn new(text: &'t [u8]) -> Lines<'t>
        ensures { lines_left result ≡ lines_of text.now }
    {
        Lines { rest: text }
    }
}

impl<'t> Iterator for Lines<'t> {
    ghost use Rattle.std.specs.Prelude.{length};
    ghost use Rattle.std.specs.Iterator.{YieldsFirstRef, at_most};
    ghost use Rattle.texts.specs.Lines.{lines_left};

    type Item = &'t [u8];

    ghost next_gives = { YieldsFirstRef lines_left };

    ghost remaining = { λ s. at_most (length s.rest.now) };

    fn next(&mut self) -> Option<&'t [u8]> {
        if self.rest.is_empty() {
            return None;
        }
        let (line, after) = self.rest.split_at(line_len(self.rest));
        self.rest = past_end(after);
        Some(line)
    }
}
