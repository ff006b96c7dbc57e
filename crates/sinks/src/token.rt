// What is owed for an open argument.

// Stands for one begun argument. It cannot be let go: `finish` and `withdraw` of a sink take it.
pub struct Token {
    owed: (),
}

impl Token {
    // For a sink, as it begins an argument.
    pub fn issue() -> Token {
        Token { owed: () }
    }

    // For a sink, as it ends one.
    pub fn spend(self) {
        let Token { owed: _ } = self;
    }
}
