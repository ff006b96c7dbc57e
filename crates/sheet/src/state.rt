// What a sheet keeps.
ghost use Rattle.std.specs.Prelude.{◌≡◌, ◌+◌, ◌<◌, ◌≤◌, true, length, take, IsSome};
ghost use Rattle.std.specs.Option.{unwrap_or};
ghost use Rattle.sheet.specs.Rows.{chained, ClearFrom};
ghost use Rattle.sheet.specs.Sheet.{limit_of};

// Both slices are lent by the caller, since no sink of ours takes from the heap: so the lengths stand beside them.
#[derive(Drop)]
pub struct Sheet<'a> {
    pub(crate) bytes: &'a mut [u8],
    // the caller's table: the offset and the length of each finished argument
    pub(crate) pairs: &'a mut [(u16, u16)],
    // how many bytes are used at most: kept, as the contracts name it
    pub(crate) limit: usize,
    // how many arguments are finished, and where they end
    pub(crate) count: usize,
    pub(crate) finished: usize,
    // the length of the open argument behind them, if there is one
    pub(crate) pending: Option<usize>,
    ghost limited: { limit ≡ limit_of (length bytes.now) },
    ghost within: { finished + unwrap_or pending 0 ≤ limit },
    ghost few: { count ≤ length pairs.now },
    ghost row: { IsSome pending → count < length pairs.now },
    ghost zeros: { ClearFrom 0 limit (finished + unwrap_or pending 0) bytes.now },
    ghost blank: { ClearFrom (0, 0) (length pairs.now) count pairs.now },
    ghost lined: { chained 0 (take count pairs.now) finished ≡ true },
}
