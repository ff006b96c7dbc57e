// What a joined sink keeps.
ghost use Rattle.std.specs.Prelude.{◌≡◌, ℕ, ◌≤◌, false, [], ◌∷◌, ◌++◌, length, take, drop, Some, None};
ghost use Rattle.text.specs.Arguments.{separator, arguments, join};
ghost use Rattle.text.specs.Cuts.{holds};
ghost use Rattle.joined.specs.Parts.{ClearFrom, Text};

#[derive(Drop)]
pub struct Joined<'a> {
    // lent by the caller, since no sink of ours takes from the heap: so the places stand beside it
    pub(crate) buffer: &'a mut [u8],
    // how many arguments are finished, and where their text ends
    pub(crate) count: usize,
    pub(crate) finished: usize,
    // where the open argument starts, if one is open
    pub(crate) start: Option<usize>,
    // where the content ends
    pub(crate) used: usize,
    ghost within: { used ≤ length buffer.now },
    ghost order: { finished ≤ used },
    ghost zeros: { ClearFrom used buffer.now },
    ghost text: { Text buffer.now finished count },
    ghost shut: { start ≡ None → used ≡ finished },
    ghost behind: { (at : ℕ) → start ≡ Some at → at ≤ used },
    ghost whole: { (at : ℕ) → start ≡ Some at → holds separator (drop at (take used buffer.now)) ≡ false },
    ghost content: { (at : ℕ) → start ≡ Some at → take used buffer.now ≡ join (arguments (take finished buffer.now) ++ drop at (take used buffer.now) ∷ []) },
}
