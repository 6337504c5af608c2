ghost use Rattle.std.specs.Prelude.{◌≡◌, ◌<◌, ◌≤◌, map, length, IfSome};
ghost use Rattle.circuit.specs.Names.{find, print_of};
ghost use Rattle.circuit.specs.Spelled.{bytes_of, Short};

use super::Name;
use crate::few::Few;

fn print_of(word: &[u8]) -> u64
    ensures { result ≡ print_of word.now }
{
    word.iter().fold(0, |print: u64, b| {
        print.wrapping_mul(31).wrapping_add(u64::from(*b))
    })
}

impl Name {
    // The name of these bytes, unless there are more than sixteen.
    pub fn new(word: &[u8]) -> Option<Name>
        ensures { Short word.now result }
    {
        let bytes = Few::of(word, 0)?;
        let print = print_of(word);
        Some(Name { bytes, print })
    }

    pub fn bytes(&self) -> &[u8]
        ensures value { result.now ≡ bytes_of self.now }
        ensures short { length (bytes_of self.now) ≤ 16 }
    {
        self.bytes.as_slice()
    }
}

// The first place at which a word stands among the names. They are a list, since a map would ask for memory while a netlist is read.
pub(crate) fn find(names: &[Name], word: &[u8]) -> Option<usize>
    ensures value { result ≡ find (map bytes_of names.now) word.now }
    ensures within { IfSome result (λ i. i < length names.now) }
{
    let print = print_of(word);
    names
        .iter()
        .position(|name| name.print == print && name.bytes() == word)
}
