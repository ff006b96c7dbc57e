// The words of what rustc reports.
ghost use Rattle.words.specs.Spellings.{lint_levels, lint_level, error_formats, error_format, colors, color};
ghost use Rattle.std.specs.Prelude.{length};
ghost use Rattle.words.specs.Reading.{longest};
ghost use Rattle.std.proofs.Common.{rules};

use super::set::WordSet;

// A level of lints, of `--cap-lints`.
#[derive(Clone, Copy, Debug, PartialEq, Eq)]
pub enum LintLevel {
    Allow,
    Warn,
    Deny,
    Forbid,
}

const LINT_LEVELS: &[LintLevel] = &[
    LintLevel::Allow,
    LintLevel::Warn,
    LintLevel::Deny,
    LintLevel::Forbid,
];

impl WordSet for LintLevel {
    const COUNT: usize = LINT_LEVELS.len();

    const LONGEST: usize = b"forbid".len();

    ghost COUNT = { length lint_levels };

    ghost LONGEST = { longest lint_levels lint_level };

    ghost words = { lint_levels };

    ghost spelled = { lint_level };

    ghost counted = { Prim.search rules };

    ghost bounded = { Prim.search rules };

    ghost reads = { Prim.search rules };

    ghost cleans = { Prim.search rules };

    fn at(place: usize) -> Option<Self> {
        LINT_LEVELS.get(place).copied()
    }

    fn spelling(self) -> &'static [u8] {
        match self {
            LintLevel::Allow => b"allow",
            LintLevel::Warn => b"warn",
            LintLevel::Deny => b"deny",
            LintLevel::Forbid => b"forbid",
        }
    }
}

// The form of messages, of `--error-format`.
#[derive(Clone, Copy, Debug, PartialEq, Eq)]
pub enum ErrorFormat {
    Human,
    Json,
    Short,
}

const ERROR_FORMATS: &[ErrorFormat] = &[ErrorFormat::Human, ErrorFormat::Json, ErrorFormat::Short];

impl WordSet for ErrorFormat {
    const COUNT: usize = ERROR_FORMATS.len();

    const LONGEST: usize = b"human".len();

    ghost COUNT = { length error_formats };

    ghost LONGEST = { longest error_formats error_format };

    ghost words = { error_formats };

    ghost spelled = { error_format };

    ghost counted = { Prim.search rules };

    ghost bounded = { Prim.search rules };

    ghost reads = { Prim.search rules };

    ghost cleans = { Prim.search rules };

    fn at(place: usize) -> Option<Self> {
        ERROR_FORMATS.get(place).copied()
    }

    fn spelling(self) -> &'static [u8] {
        match self {
            ErrorFormat::Human => b"human",
            ErrorFormat::Json => b"json",
            ErrorFormat::Short => b"short",
        }
    }
}

// When to colour messages, of `--color`.
#[derive(Clone, Copy, Debug, PartialEq, Eq)]
pub enum Color {
    Auto,
    Always,
    Never,
}

const COLORS: &[Color] = &[Color::Auto, Color::Always, Color::Never];

impl WordSet for Color {
    const COUNT: usize = COLORS.len();

    const LONGEST: usize = b"always".len();

    ghost COUNT = { length colors };

    ghost LONGEST = { longest colors color };

    ghost words = { colors };

    ghost spelled = { color };

    ghost counted = { Prim.search rules };

    ghost bounded = { Prim.search rules };

    ghost reads = { Prim.search rules };

    ghost cleans = { Prim.search rules };

    fn at(place: usize) -> Option<Self> {
        COLORS.get(place).copied()
    }

    fn spelling(self) -> &'static [u8] {
        match self {
            Color::Auto => b"auto",
            Color::Always => b"always",
            Color::Never => b"never",
        }
    }
}
