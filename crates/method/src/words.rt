// Bits of a word.
ghost use Rattle.std.specs.Prelude.{◌≡◌, ℕ, ◌<◌, [], ◌∷◌, if◌then◌else◌, nat_eq};
ghost use Rattle.circuit.specs.Gates.{gate_on};
ghost use Rattle.circuit.specs.Machines.{bit_of};

use circuit::Kind;

// The word of one bit everywhere.
pub(crate) fn all(bit: bool) -> u64
    ensures { (l : ℕ) → l < 64 → bit_of result l ≡ bit }
{
    if bit { u64::MAX } else { 0 }
}

// A gate's answer, bit by bit. The words are no array: it would be taken apart here, and put together again in the proof.
pub(crate) fn gate(kind: Kind, a: u64, b: u64, c: u64, d: u64) -> u64
    ensures { (l : ℕ) → l < 64 → bit_of result l ≡ gate_on kind (bit_of a l ∷ bit_of b l ∷ bit_of c l ∷ bit_of d l ∷ []) }
{
    match kind {
        Kind::And => a & b & c & d,
        Kind::Nand => !(a & b & c & d),
        Kind::Or => a | b | c | d,
        Kind::Nor => !(a | b | c | d),
        Kind::Xor => a ^ b ^ c ^ d,
        Kind::Xnor => !(a ^ b ^ c ^ d),
        Kind::Not => !a,
        Kind::Buff => a,
    }
}

// The word with bit `at` made `bit`.
pub(crate) fn put(word: u64, at: usize, bit: bool) -> u64
    requires { at < 64 }
    ensures { (l : ℕ) → l < 64 → bit_of result l ≡ (if nat_eq l at then bit else bit_of word l) }
{
    let mask = 1u64 << at;
    if bit { word | mask } else { word & !mask }
}

// Bit `at` of a word; 0 past its last.
pub fn bit(word: u64, at: usize) -> bool
    ensures { result ≡ bit_of word at }
{
    if at >= 64 {
        return false;
    }
    (word >> at) & 1 == 1
}
