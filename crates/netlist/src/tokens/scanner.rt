// What is left of a line.
ghost use Rattle.std.specs.Prelude.{◌≤◌, length};

#[derive(Clone, Copy)]
pub(crate) struct Scanner<'t> {
    pub(super) rest: &'t [u8],
    pub(super) line: usize,
    // The column where the line ends.
    pub(super) end: usize,
    ghost short: { length rest.now ≤ 65536 },
}
