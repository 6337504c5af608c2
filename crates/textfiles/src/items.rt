// The items of a text, one after another.
ghost use Rattle.std.specs.Prelude.{◌≡◌, [], vec_items, Result};
ghost use Rattle.textfiles.specs.Cursors.{Spot, spot};
ghost use Rattle.textfiles.specs.Flaws.{Answers};
ghost use Rattle.textfiles.specs.Items.{item_of, items_of, each, Means};

use crate::cursors::{Class, Cursor};
use crate::flaws::{Flaw, ReadError};
use std::alloc::Global;
use texts::Lines;

// The item of a line, with no bytes where the line has none.
fn item_of<'t>(line: &'t [u8], number: usize) -> Cursor<'t>
    ensures { spot result ≡ item_of number line.now }
{
    let content = &line[..Class::Content.run(line)];
    Cursor::item(content, number)
}

// What the items of a text mean, where `read` says what one means.
pub(crate) fn read_all<T: Drop, F: Fn(Cursor<'_>) -> Result<T, Flaw>>(
    heap: Global,
    text: &[u8],
    read: F,
) -> Result<Vec<T>, ReadError>
    requires { F.IsAlwaysCallable read }
    ensures { (m : Spot → Result T Flaw) → Means (F.post read) m → Answers vec_items result (each m [] (items_of text.now)) }
{
    let mut meant = Vec::new(heap);
    for (i, line) in Lines::new(text).enumerate() {
        let item = item_of(line, i + 1);
        if !item.rest.is_empty() {
            meant.push(read(item)?)?;
        }
    }
    Ok(meant)
}
