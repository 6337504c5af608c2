// Faults, vectors and output words as text.
ghost use Rattle.std.specs.Prelude.{◌≡◌, ◌/◌, ◌^◌, ◌<◌, true, [], ◌∷◌, IfOk, Some, Ok, string_bytes, IsUtf8};
ghost use Rattle.std.specs.Option.{option_map};
ghost use Rattle.circuit.specs.Plans.{plan, has_site, line_of};
ghost use Rattle.circuit.specs.Spelled.{bytes_of};
ghost use Rattle.textfiles.specs.Cursors.{item};
ghost use Rattle.textfiles.specs.Denotes.{Names};
ghost use Rattle.textfiles.specs.Faults.{fault_of};
ghost use Rattle.textfiles.specs.Writing.{spelled, name_of, fault_text, low_bit, bits_text, log_line};

use circuit::{Circuit, Fault, Name, Site};
use std::alloc::{AllocError, Global};
use std::fmt;
use std::str::from_utf8;

// The bit at a place of a word, as it is printed.
fn bit_at(word: u64, place: usize) -> &'static str
    requires { place < 64 }
    ensures { result.now ≡ low_bit (word / 2 ^ place) ∷ [] }
{
    if (word >> place) % 2 == 1 { "1" } else { "0" }
}

// The first bits of a word, bit 0 leftmost.
#[derive(Clone, Copy)]
struct Bits {
    word: u64,
    count: usize,
}

impl fmt::Display for Bits {
    ghost output = { λ b. Some (bits_text b.word b.count) };

    fn fmt<W: fmt::Write>(&self, f: &mut fmt::Formatter<W>) -> fmt::Result {
        let Bits { word, count } = *self;
        for place in 0..count.min(u64::BITS as usize) {
            f.write_str(bit_at(word, place))?;
        }
        Ok(())
    }
}

// The first bits of a word, bit 0 leftmost. Its own loop, since it takes longer through `Bits`.
pub fn bits_text(heap: Global, word: u64, count: usize) -> Result<String, AllocError>
    ensures { IfOk result (λ s. string_bytes s ≡ bits_text word count) }
{
    let mut text = String::new(heap);
    for place in 0..count.min(u64::BITS as usize) {
        text.push_str(bit_at(word, place))?;
    }
    Ok(text)
}

// A vector and the output word that it gives.
#[tactic(auto, using(crate::proofs::Digits::spaced))]
pub fn log_line(
    heap: Global,
    vector: u64,
    inputs: usize,
    word: u64,
    outputs: usize,
) -> Result<String, AllocError>
    ensures { IfOk result (λ s. string_bytes s ≡ log_line vector inputs word outputs) }
{
    let vector = Bits {
        word: vector,
        count: inputs,
    };
    let answer = Bits {
        word,
        count: outputs,
    };
    format!(in heap; "{vector} {answer}")
}

// A fault as it stands in a fault list, under the name of its line.
#[derive(Clone, Copy)]
struct Named<'n> {
    name: &'n str,
    fault: Fault,
}

impl fmt::Display for Named<'_> {
    ghost output = { λ n. Some (fault_text n.name.now n.fault) };

    #[tactic(auto, using(crate::proofs::Digits::value_digit))]
    fn fmt<W: fmt::Write>(&self, f: &mut fmt::Formatter<W>) -> fmt::Result {
        let name = self.name;
        let value = u8::from(self.fault.stuck);
        match self.fault.site {
            Site::Stem(_) => write!(f, "{name}/{value}"),
            Site::Pin(_, pin) => write!(f, "{name}.{pin}/{value}"),
        }
    }
}

// A name as text: empty where it is no text, or there is none, since both are written alike.
fn name_text(name: &Option<Name>) -> &str
    ensures text { IsUtf8 (spelled (option_map bytes_of name.now)) → result.now ≡ spelled (option_map bytes_of name.now) }
    ensures other { (IsUtf8 (spelled (option_map bytes_of name.now)) → ⊥) → result.now ≡ [] }
{
    match name {
        Some(name) => from_utf8(name.bytes()).unwrap_or(""),
        None => "",
    }
}

// A fault as it stands in a fault list. The name is empty where it is no text or the circuit has no such line.
pub fn fault_text(heap: Global, circuit: &Circuit, fault: Fault) -> Result<String, AllocError>
    ensures named { IsUtf8 (name_of (plan circuit.now) fault) → IfOk result (λ s. string_bytes s ≡ fault_text (name_of (plan circuit.now) fault) fault) }
    ensures unnamed { (IsUtf8 (name_of (plan circuit.now) fault) → ⊥) → IfOk result (λ s. string_bytes s ≡ fault_text [] fault) }
    ensures law { Names (plan circuit.now) (name_of (plan circuit.now) fault) (line_of fault.site) → has_site (plan circuit.now) fault.site ≡ true → IfOk result (λ s. fault_of (plan circuit.now) (item 1 (string_bytes s)) ≡ Ok fault) }
{
    let name = circuit.name(fault.site.line() as usize);
    let name = name_text(&name);
    Named { name, fault }.to_string(heap)
}
