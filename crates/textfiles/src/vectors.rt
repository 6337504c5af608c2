// Files of test vectors.
ghost use Rattle.std.specs.Prelude.{◌≡◌, vec_items};
ghost use Rattle.textfiles.specs.Cursors.{spot};
ghost use Rattle.textfiles.specs.Flaws.{Answers};
ghost use Rattle.textfiles.specs.Items.{items_of, Accepts};
ghost use Rattle.textfiles.specs.Vectors.{vector_of, vectors_of, Spells};

use crate::cursors::Cursor;
use crate::flaws::{Flaw, ReadError, What};
use crate::items::read_all;
use circuit::MAX_INPUTS;
use std::alloc::Global;

// The number whose bit j is the item's byte j.
#[tactic(auto, using(crate::proofs::BitTurns::too_long))]
fn read_vector(item: Cursor<'_>, inputs: usize) -> Result<u64, Flaw>
    ensures { result ≡ vector_of inputs (spot item.entry) }
{
    let most = inputs.min(MAX_INPUTS);
    let mut vector: u64 = 0;
    for (j, b) in item.rest.iter().enumerate() {
        if j >= most {
            return Err(item.skip(j).flaw(What::LongVector));
        }
        match *b {
            b'0' => {}
            b'1' => vector += 1 << j,
            _ => return Err(item.skip(j).flaw(What::NotABit)),
        }
    }
    if item.rest.len() < inputs {
        return Err(item.flaw(What::ShortVector));
    }
    Ok(vector)
}

// The vectors of a text, for a circuit of so many inputs. None is accepted where there are more than 64.
pub fn read_vectors(heap: Global, text: &[u8], inputs: usize) -> Result<Vec<u64>, ReadError>
    ensures value { Answers vec_items result (vectors_of text.now inputs) }
    ensures law { Accepts vec_items (λ s v. Spells inputs s.rest v) (items_of text.now) result }
{
    read_all(heap, text, |item| read_vector(item, inputs))
}
