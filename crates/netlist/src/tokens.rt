// The tokens of a netlist's line.
ghost use Rattle.std.specs.Prelude.{◌≡◌, ◌+◌, ◌≤◌, [], ◌∷◌, length};
ghost use Rattle.std.specs.List.{prefix_len};
ghost use Rattle.texts.specs.Bytes.{name_byte, space_byte};
ghost use Rattle.netlist.specs.Tokens.{gap, sort_of, sign_word, first_word, line_tokens, seen, spelling, toks, first, after};

mod scanner;

use circuit::Place;
pub(crate) use scanner::Scanner;
use texts::{in_name, is_space};

// Which of the tokens it is.
#[derive(Clone, Copy, PartialEq, Eq)]
pub(crate) enum Sort {
    // The longest run of letters, digits and underscores.
    Name,
    Open,
    Close,
    Comma,
    Equals,
    // A byte that fits nowhere.
    Stray,
    // Where the line ends.
    End,
}

// A token is a part of the text, with its place.
#[derive(Clone, Copy)]
pub(crate) struct Token<'t> {
    pub(crate) sort: Sort,
    pub(crate) bytes: &'t [u8],
    pub(crate) place: Place,
}

// How many bytes at the front belong to a name.
fn run_len(s: &[u8]) -> usize
    ensures run { result ≡ prefix_len name_byte s.now }
    ensures within { result ≤ length s.now }
{
    s.iter().take_while(|b| in_name(**b)).count()
}

// How many separators stand in front.
fn space_len(s: &[u8]) -> usize
    ensures run { result ≡ prefix_len space_byte s.now }
    ensures within { result ≤ length s.now }
{
    s.iter().take_while(|b| is_space(**b)).count()
}

// How many bytes stand before the first token: separators, and a comment.
#[tactic(auto, using(crate::proofs::Gaps::gap_spaces))]
fn gap_len(s: &[u8]) -> usize
    ensures { result ≡ gap s.now }
{
    let spaces = space_len(s);
    match &s[spaces..] {
        [b'#', ..] => s.len(),
        _ => spaces,
    }
}

// The sort of a token of one byte.
impl From<u8> for Sort {
    ghost from_gives = { λ b sort. sort ≡ sort_of (sign_word b) };

    fn from(b: u8) -> Sort {
        match b {
            b'(' => Sort::Open,
            b')' => Sort::Close,
            b',' => Sort::Comma,
            b'=' => Sort::Equals,
            _ => Sort::Stray,
        }
    }
}

// The token that `s`, which has no gap in front, begins with.
#[tactic(auto, using(crate::proofs::Gaps::sign_spelt))]
fn first_token<'t>(s: &'t [u8], place: Place) -> Token<'t>
    ensures word { seen result ≡ record { word = first_word s.now; place = place } }
    ensures bytes { result.bytes.now ≡ spelling (first_word s.now) }
{
    let [b, ..] = s else {
        return Token {
            sort: Sort::End,
            bytes: s,
            place,
        };
    };
    if in_name(*b) {
        let (bytes, _) = s.split_at(run_len(s));
        Token {
            sort: Sort::Name,
            bytes,
            place,
        }
    } else {
        let (bytes, _) = s.split_at(1);
        let sort = Sort::from(*b);
        Token { sort, bytes, place }
    }
}

impl<'t> Scanner<'t> {
    // The tokens of a line, whose number counts from 1.
    pub(crate) fn new(bytes: &'t [u8], line: usize) -> Scanner<'t>
        requires { length bytes.now ≤ 65536 }
        ensures { toks result ≡ line_tokens line bytes.now }
    {
        Scanner {
            rest: bytes,
            line,
            end: bytes.len() + 1,
        }
    }

    pub(crate) fn next_token(&mut self) -> Token<'t>
        ensures token { seen result ≡ first (toks self.old) }
        ensures bytes { result.bytes.now ≡ spelling (first (toks self.old)).word }
        ensures rest { toks self.new ≡ after (toks self.old) }
    {
        let (_, text) = self.rest.split_at(gap_len(self.rest));
        let place = Place {
            line: self.line,
            column: self.end.saturating_sub(text.len()),
        };
        let token = first_token(text, place);
        let (_, left) = text.split_at(token.bytes.len());
        self.rest = left;
        token
    }
}
