ghost use Rattle.std.specs.Prelude.{◌≡◌, ◌<◌, [], ◌∷◌, ◌++◌, length};
ghost use Rattle.std.specs.Option.{ForSome};
ghost use Rattle.std.specs.Iterator.{YieldsFirst, item_count};
ghost use Rattle.simulation.specs.Lanes.{line_at, at_line, left};
ghost use Rattle.simulation.specs.Members.{members};

use super::{Batch, MAX_BATCH};
use circuit::{Fault, Few, MAX_LINES, Site};

impl Batch {
    // No fault.
    pub(crate) fn new() -> Batch
        ensures { members result ≡ [] }
    {
        let none = Fault {
            site: Site::Stem(0),
            stuck: false,
        };
        Batch {
            faults: Few::new(none),
            heads: [None; MAX_LINES],
            links: [None; MAX_BATCH],
        }
    }

    // One fault more, in the next lane.
    pub(crate) fn add(&mut self, fault: Fault)
        requires { length (members self.old) < 64 }
        ensures { members self.new ≡ members self.old ++ fault ∷ [] }
    {
        let line = fault.site.line() as usize;
        let at = self.faults.as_slice().len();
        self.faults.try_push(fault).unwrap();
        if line < MAX_LINES {
            self.links[at] = self.heads[line];
            self.heads[line] = Some(at as u8);
        }
    }

    // The faults at a line, the last first, each with its lane.
    pub(crate) fn at(&self, line: usize) -> Chain<'_>
        requires { line < 1024 }
        ensures { left (members result.batch.now) result.next ≡ at_line (members self.now) line (length (members self.now)) }
    {
        Chain {
            batch: self,
            next: self.heads[line],
        }
    }
}

// The faults of a batch at one line.
#[derive(Drop)]
pub(crate) struct Chain<'a> {
    batch: &'a Batch,
    next: Option<u8>,
    ghost within: { ForSome next (λ i. (i < length batch.now.faults.items) × (line_at batch.now.faults.items i < 1024)) },
}

impl<'a> Iterator for Chain<'a> {
    type Item = (usize, Fault);

    ghost next_gives = { YieldsFirst (λ c. left (members c.batch.now) c.next) };

    ghost remaining = { item_count (λ c. left (members c.batch.now) c.next) };

    fn next(&mut self) -> Option<(usize, Fault)> {
        let at = self.next? as usize;
        let fault = self.batch.faults.as_slice()[at];
        self.next = self.batch.links[at];
        Some((at + 1, fault))
    }
}
