// Fault lists. The circuit is an argument of each step that names a line: a reader that holds it would be no plainer.
ghost use Rattle.std.specs.Prelude.{◌≡◌, ◌==◌, position, vec_items};
ghost use Rattle.circuit.specs.Plans.{plan};
ghost use Rattle.textfiles.specs.Cursors.{spot, item};
ghost use Rattle.textfiles.specs.Denotes.{Denotes, Faithful};
ghost use Rattle.textfiles.specs.Flaws.{Answers};
ghost use Rattle.textfiles.specs.Items.{items_of, Accepts};
ghost use Rattle.textfiles.specs.Faults.{line_at, pin_at, places_from, only, fed_pin, bit_at, value_at, site_after, fault_of, faults_of};

use crate::cursors::{Class, Cursor};
use crate::flaws::{Flaw, ReadError, What};
use crate::items::read_all;
use circuit::{Circuit, Fault, Line, Pins, Site};
use std::alloc::Global;

// The line of the name in front.
fn read_name(at: Cursor<'_>, circuit: &Circuit) -> Result<u16, Flaw>
    ensures { result ≡ line_at (plan circuit.now) (spot at.entry) }
{
    let name = &at.rest[..Class::Name.run(at.rest)];
    if name.is_empty() {
        return Err(at.flaw(What::NoName));
    }
    let line = circuit
        .draft
        .line_of(name)
        .ok_or(at.flaw(What::UnknownName))?;
    Ok(line as u16)
}

// The pin of a line's gate that the digit in front gives.
fn read_pin(at: Cursor<'_>, circuit: &Circuit, line: u16) -> Result<u8, Flaw>
    ensures { result ≡ pin_at (plan circuit.now) line (spot at.entry) }
{
    let [digit @ b'0'..=b'9', ..] = at.rest else {
        return Err(at.flaw(What::NoPin));
    };
    let pin = *digit - b'0';
    if !circuit.has_site(Site::Pin(line, pin)) {
        return Err(at.flaw(What::NoPin));
    }
    Ok(pin)
}

// The first pin that a line feeds.
fn first_pin(pins: &[u16], line: u16) -> Option<usize>
    ensures { result ≡ position (λ q. q == line) pins.now }
{
    pins.iter().position(|pin| *pin == line)
}

// The one pin that a line feeds among a gate's pins, or a flaw at `from`.
fn only_pin(from: Cursor<'_>, pins: &Pins, line: u16) -> Result<u8, Flaw>
    ensures { result ≡ only (spot from.entry) (places_from line 0 pins.now) }
{
    let pins = pins.as_slice();
    match first_pin(pins, line) {
        None => Err(from.flaw(What::NotFed)),
        Some(pin) if pins[pin + 1..].contains(&line) => Err(from.flaw(What::FedTwice)),
        Some(pin) => Ok(pin as u8),
    }
}

// The pin of a line's gate that another line feeds.
fn fed_pin(from: Cursor<'_>, circuit: &Circuit, line: u16, gate: u16) -> Result<u8, Flaw>
    ensures { result ≡ fed_pin (plan circuit.now) (spot from.entry) line gate }
{
    match circuit.line(gate as usize) {
        Some(Line::Gate(gate)) => only_pin(from, &gate.pins, line),
        _ => Err(from.flaw(What::NotFed)),
    }
}

fn read_bit(at: Cursor<'_>) -> Result<bool, Flaw>
    ensures { result ≡ bit_at (spot at.entry) }
{
    match at.rest {
        [b'0', ..] => Ok(false),
        [b'1', ..] => Ok(true),
        _ => Err(at.flaw(What::NoValue)),
    }
}

// Spaces, a slash, the value and nothing more; `missing` is the flaw where there is no slash.
fn read_value(at: Cursor<'_>, missing: What) -> Result<bool, Flaw>
    ensures { result ≡ value_at missing (spot at.entry) }
{
    let slash = at.past(Class::Space);
    let [b'/', ..] = slash.rest else {
        return Err(slash.flaw(missing));
    };
    let value = slash.skip(1);
    let stuck = read_bit(value)?;
    let after = value.skip(1);
    if !after.rest.is_empty() {
        return Err(after.flaw(What::Trailing));
    }
    Ok(stuck)
}

// What stands after the first name of an item, which is that of `line`.
fn read_site(
    item: Cursor<'_>,
    circuit: &Circuit,
    line: u16,
    sign: Cursor<'_>,
) -> Result<Fault, Flaw>
    ensures { result ≡ site_after (plan circuit.now) (spot item.entry) line (spot sign.entry) }
{
    match sign.rest {
        [b'.', ..] => {
            let pin = read_pin(sign.skip(1), circuit, line)?;
            let stuck = read_value(sign.skip(2), What::NoSlash)?;
            let site = Site::Pin(line, pin);
            Ok(Fault { site, stuck })
        }
        [b'-', b'>', ..] => {
            let name = sign.skip(2);
            let gate = read_name(name, circuit)?;
            let pin = fed_pin(item, circuit, line, gate)?;
            let stuck = read_value(name.past(Class::Name), What::NoSlash)?;
            let site = Site::Pin(gate, pin);
            Ok(Fault { site, stuck })
        }
        _ => {
            let stuck = read_value(sign, What::NoSign)?;
            let site = Site::Stem(line);
            Ok(Fault { site, stuck })
        }
    }
}

fn read_item(item: Cursor<'_>, circuit: &Circuit) -> Result<Fault, Flaw>
    ensures { result ≡ fault_of (plan circuit.now) (spot item.entry) }
{
    let line = read_name(item, circuit)?;
    read_site(item, circuit, line, item.past(Class::Name))
}

// A fault that is given by itself; places count from line 1 and column 1.
pub fn read_fault(word: &[u8], circuit: &Circuit) -> Result<Fault, Flaw>
    ensures value { result ≡ fault_of (plan circuit.now) (item 1 word.now) }
    ensures law { Faithful (plan circuit.now) (item 1 word.now).rest result }
{
    read_item(Cursor::item(word, 1), circuit)
}

// The faults of a text.
pub fn read_faults(heap: Global, text: &[u8], circuit: &Circuit) -> Result<Vec<Fault>, ReadError>
    ensures value { Answers vec_items result (faults_of text.now (plan circuit.now)) }
    ensures law { Accepts vec_items (λ s f. Denotes (plan circuit.now) s.rest f) (items_of text.now) result }
{
    read_all(heap, text, |item| read_item(item, circuit))
}
