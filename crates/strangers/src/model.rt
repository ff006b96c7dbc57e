// A plain model of the joined sink and of the sheet: lists of bytes, and the rules said once more in the simplest way.
// One model for both: they differ in four places.
use std::alloc::Global;
use std::test::Fail;
use text::Refusal;

// Which sink it is a model of.
#[derive(Clone, Copy)]
pub(crate) enum Kind {
    Joined,
    Sheet { rows: usize },
}

#[derive(Drop)]
pub(crate) struct Model {
    heap: Global,
    kind: Kind,
    size: usize,
    pub list: Vec<Vec<u8>>,
    pub pending: Option<Vec<u8>>,
}

impl Model {
    pub(crate) fn new(heap: Global, size: usize, kind: Kind) -> Model {
        Model {
            heap,
            kind,
            size,
            list: Vec::new(heap),
            pending: None,
        }
    }

    // How many bytes the arguments have, with the separators of a joined sink.
    pub(crate) fn used(&self) -> usize {
        let arguments = self.list.iter().chain(self.pending.iter());
        let bytes = arguments.fold(0usize, |n, argument| n.saturating_add(argument.len()));
        match self.kind {
            Kind::Joined => bytes.saturating_add(self.list.len()),
            Kind::Sheet { .. } => bytes,
        }
    }

    // Whether one more argument can begin.
    fn has_room(&self) -> bool {
        match self.kind {
            Kind::Joined => self.used() <= self.size,
            Kind::Sheet { rows } => self.list.len() < rows,
        }
    }

    pub(crate) fn begin(&mut self) -> Result<(), Refusal> {
        if self.pending.is_some() {
            return Err(Refusal::OutOfTurn);
        }
        if !self.has_room() {
            return Err(Refusal::NoSpace);
        }
        self.pending = Some(Vec::new(self.heap));
        Ok(())
    }

    // The first byte that does not go in is told. Byte by byte, as the rules say it: a model shares no search with what it is held against.
    fn check_bytes(&self, bytes: &[u8]) -> Result<(), Refusal> {
        let mut left = self.size.saturating_sub(self.used());
        for b in bytes {
            if *b == 31 && matches!(self.kind, Kind::Joined) {
                return Err(Refusal::CannotCarry);
            }
            left = left.checked_sub(1).ok_or(Refusal::NoSpace)?;
        }
        Ok(())
    }

    pub(crate) fn write(&mut self, bytes: &[u8]) -> Result<Result<(), Refusal>, Fail> {
        if self.pending.is_none() {
            return Ok(Err(Refusal::OutOfTurn));
        }
        let told = self.check_bytes(bytes);
        if let (Ok(()), Some(argument)) = (told, &mut self.pending) {
            argument.extend_from_slice(bytes)?;
        }
        Ok(told)
    }

    pub(crate) fn finish(&mut self) -> Result<Result<(), Refusal>, Fail> {
        let Some(argument) = self.pending.take() else {
            return Ok(Err(Refusal::OutOfTurn));
        };
        if matches!(self.kind, Kind::Joined) && self.list.is_empty() && argument.is_empty() {
            return Ok(Err(Refusal::CannotCarry));
        }
        self.list.push(argument)?;
        Ok(Ok(()))
    }

    pub(crate) fn withdraw(&mut self) -> Result<(), Refusal> {
        self.pending.take().ok_or(Refusal::OutOfTurn)?;
        Ok(())
    }

    pub(crate) fn cut(&mut self, n: usize) -> Result<(), Refusal> {
        if self.pending.is_some() {
            return Err(Refusal::OutOfTurn);
        }
        self.list.truncate(n);
        Ok(())
    }

    pub(crate) fn empty(&mut self) {
        self.pending = None;
        self.list.clear();
    }

    // What the buffer of a joined sink has to hold.
    pub(crate) fn text(&self) -> Result<Vec<u8>, Fail> {
        let mut text = Vec::new(self.heap);
        for (n, argument) in self.list.iter().chain(self.pending.iter()).enumerate() {
            if n > 0 {
                text.push(31)?;
            }
            text.extend_from_slice(argument.as_slice())?;
        }
        Ok(text)
    }
}
