// What is left of an item.
ghost use Rattle.std.specs.Prelude.{◌≡◌, ◌≤◌, length};
ghost use Rattle.textfiles.specs.Cursors.{has, run, spot, skip, past, flaw, shut, item};

use crate::flaws::{Flaw, What};
use circuit::Place;
use texts::{in_name, is_space};

// Which bytes go on with what has begun. An enum and not closures, so that a contract names the bytes that are passed.
#[derive(Clone, Copy)]
pub(crate) enum Class {
    // Up to a comment.
    Content,
    // What is ignored around an item.
    Blank,
    // What may stand before a `/`.
    Space,
    Name,
}

impl Class {
    fn has(self, b: u8) -> bool
        ensures { result ≡ has self b }
    {
        match self {
            Class::Content => b != b'#',
            Class::Blank => is_space(b),
            Class::Space => b == b' ' || b == b'\t',
            Class::Name => in_name(b),
        }
    }

    // How many bytes of the class stand in front.
    pub(crate) fn run(self, s: &[u8]) -> usize
        ensures run { result ≡ run self s.now }
        ensures within { result ≤ length s.now }
    {
        s.iter().take_while(|b| self.has(**b)).count()
    }
}

// The rest of an item; `end` is the column after the item.
#[derive(Clone, Copy)]
pub(crate) struct Cursor<'t> {
    pub(crate) rest: &'t [u8],
    line: usize,
    end: usize,
}

// How many bytes there are without the blanks at the end.
fn shut_len(s: &[u8]) -> usize
    ensures value { result ≡ shut s.now }
    ensures within { result ≤ length s.now }
{
    match s.iter().rposition(|b| !Class::Blank.has(*b)) {
        Some(last) => last + 1,
        None => 0,
    }
}

impl<'t> Cursor<'t> {
    // The item among these bytes of a line.
    pub(crate) fn item(bytes: &'t [u8], line: usize) -> Cursor<'t>
        ensures { spot result ≡ item line bytes.now }
    {
        let rest = &bytes[..shut_len(bytes)];
        let cursor = Cursor {
            rest,
            line,
            end: rest.len() + 1,
        };
        cursor.past(Class::Blank)
    }

    // Past so many bytes, or all.
    pub(crate) fn skip(self, n: usize) -> Cursor<'t>
        ensures { spot result ≡ skip n (spot self.entry) }
    {
        let (_, rest) = self.rest.split_at(n.min(self.rest.len()));
        Cursor { rest, ..self }
    }

    // Past the bytes of a class.
    pub(crate) fn past(self, class: Class) -> Cursor<'t>
        ensures { spot result ≡ past class (spot self.entry) }
    {
        self.skip(class.run(self.rest))
    }

    // A flaw at the first byte of the rest.
    pub(crate) fn flaw(self, what: What) -> Flaw
        ensures { result ≡ flaw (spot self.entry) what }
    {
        let place = Place {
            line: self.line,
            column: self.end.saturating_sub(self.rest.len()),
        };
        Flaw { place, what }
    }
}
