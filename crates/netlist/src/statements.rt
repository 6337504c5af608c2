// The statement of a netlist's line.
ghost use Rattle.std.specs.Prelude.{◌≡◌, true, Ok};
ghost use Rattle.netlist.specs.Tokens.{seen, toks, after};
ghost use Rattle.netlist.specs.Statements.{named, told, stated, want_name, want, one_name, next_pin, pins, pin_labels, pins_left, want_kind, gate_statement, form_of, statement_of};

mod pins;

use crate::tokens::{Scanner, Sort, Token};
use circuit::{Kind, Place, Refusal};
pub(crate) use pins::Pins;

// A name as a part of the text, with its place.
#[derive(Clone, Copy)]
pub(crate) struct Label<'t> {
    pub(crate) bytes: &'t [u8],
    pub(crate) place: Place,
}

// The names of the pins that are left.
#[derive(Drop)]
pub(crate) struct Labels<'t> {
    count: usize,
    scanner: Scanner<'t>,
}

impl<'t> From<Token<'t>> for Label<'t> {
    ghost from_gives = { λ token label. (label.bytes ≡ token.bytes) × (label.place ≡ token.place) };

    fn from(token: Token<'t>) -> Label<'t> {
        Label {
            bytes: token.bytes,
            place: token.place,
        }
    }
}

#[derive(Clone, Copy)]
pub(crate) enum Statement<'t> {
    // The line has none.
    Blank,
    Input(Label<'t>),
    Output(Label<'t>),
    Gate(Label<'t>, Pins<'t>),
}

fn want(token: Token<'_>, sort: Sort) -> Result<(), Refusal>
    ensures { result ≡ want (seen token.entry) sort }
{
    if token.sort == sort {
        Ok(())
    } else {
        Err(Refusal::Misform(token.place))
    }
}

fn want_name<'t>(token: Token<'t>) -> Result<Label<'t>, Refusal>
    ensures { told result ≡ want_name (seen token.entry) }
{
    want(token, Sort::Name)?;
    Ok(Label::from(token))
}

// A name in brackets, and nothing after it.
fn one_name<'t>(sc: &mut Scanner<'t>) -> Result<Label<'t>, Refusal>
    ensures { told result ≡ one_name (toks sc.old) }
{
    want(sc.next_token(), Sort::Open)?;
    let name = want_name(sc.next_token())?;
    want(sc.next_token(), Sort::Close)?;
    want(sc.next_token(), Sort::End)?;
    Ok(name)
}

// After a pin's name: whether another one stands there, or the closing sign and the line's end.
fn next_pin(sc: &mut Scanner<'_>) -> Result<bool, Refusal>
    ensures value { result ≡ next_pin (toks sc.old) }
    ensures rest { next_pin (toks sc.old) ≡ Ok true → toks sc.new ≡ after (after (toks sc.old)) }
{
    let sign = sc.next_token();
    match sign.sort {
        Sort::Comma => {
            want_name(sc.next_token())?;
            Ok(true)
        }
        Sort::Close => {
            want(sc.next_token(), Sort::End)?;
            Ok(false)
        }
        _ => Err(Refusal::Misform(sign.place)),
    }
}

// How many pins stand after an opening sign, up to the line's end.
fn read_pins(sc: &mut Scanner<'_>) -> Result<usize, Refusal>
    ensures { result ≡ pins (toks sc.old) }
{
    want_name(sc.next_token())?;
    let mut count = 1;
    // An iterator whose steps may be refused would be no plainer.
    while next_pin(sc)? {
        count += 1;
    }
    Ok(count)
}

fn want_kind(word: Label<'_>) -> Result<Kind, Refusal>
    ensures { result ≡ want_kind (named word.entry) }
{
    Kind::try_from(word.bytes).or(Err(Refusal::NoKind(word.place)))
}

// What stands after the name of a line that a gate drives: the form first, then the kind, then the number of pins.
fn read_gate<'t>(name: Label<'t>, sc: &mut Scanner<'t>) -> Result<Statement<'t>, Refusal>
    ensures { stated result ≡ gate_statement (named name.entry) (toks sc.old) }
{
    want(sc.next_token(), Sort::Equals)?;
    let word = want_name(sc.next_token())?;
    want(sc.next_token(), Sort::Open)?;
    let scanner = *sc;
    let count = read_pins(sc)?;
    let kind = want_kind(word)?;
    if !kind.takes(count) {
        return Err(Refusal::WrongPins(word.place));
    }
    let pins = Pins {
        kind,
        count,
        scanner,
    };
    Ok(Statement::Gate(name, pins))
}

#[derive(Clone, Copy)]
enum Form {
    OneInput,
    OneOutput,
    OneGate,
}

// A first word INPUT or OUTPUT settles the form.
impl From<&[u8]> for Form {
    ghost from_gives = { λ word form. form ≡ form_of word.now };

    fn from(word: &[u8]) -> Form {
        match word {
            b"INPUT" => Form::OneInput,
            b"OUTPUT" => Form::OneOutput,
            _ => Form::OneGate,
        }
    }
}

pub(crate) fn read_statement<'t>(sc: &mut Scanner<'t>) -> Result<Statement<'t>, Refusal>
    ensures { stated result ≡ statement_of (toks sc.old) }
{
    let head = sc.next_token();
    match head.sort {
        Sort::End => Ok(Statement::Blank),
        Sort::Name => match Form::from(head.bytes) {
            Form::OneInput => {
                let name = one_name(sc)?;
                Ok(Statement::Input(name))
            }
            Form::OneOutput => {
                let name = one_name(sc)?;
                Ok(Statement::Output(name))
            }
            Form::OneGate => read_gate(Label::from(head), sc),
        },
        _ => Err(Refusal::Misform(head.place)),
    }
}

impl<'t> Pins<'t> {
    pub(crate) fn labels(self) -> Labels<'t>
        ensures { pins_left result ≡ pin_labels self.entry }
    {
        Labels {
            count: self.count,
            scanner: self.scanner,
        }
    }
}

impl<'t> Iterator for Labels<'t> {
    ghost use Rattle.std.specs.Iterator.{YieldsFirstBy, at_most};

    type Item = Label<'t>;

    ghost next_gives = { YieldsFirstBy named pins_left };

    ghost remaining = { λ s. at_most s.count };

    // A name; the sign after it is passed over.
    fn next(&mut self) -> Option<Label<'t>> {
        self.count = self.count.checked_sub(1)?;
        let name = self.scanner.next_token();
        let _sign = self.scanner.next_token();
        Some(Label::from(name))
    }
}
