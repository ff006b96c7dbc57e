// The words of what rustc makes.
ghost use Rattle.words.specs.Spellings.{crate_types, crate_type, emits, emit};
ghost use Rattle.std.specs.Prelude.{length};
ghost use Rattle.words.specs.Reading.{longest};
ghost use Rattle.std.proofs.Common.{rules};

use super::set::WordSet;

// The type of a crate, of `--crate-type`.
#[derive(Clone, Copy, Debug, PartialEq, Eq)]
pub enum CrateType {
    Bin,
    Lib,
    Rlib,
    Dylib,
    Cdylib,
    Staticlib,
    ProcMacro,
}

const CRATE_TYPES: &[CrateType] = &[
    CrateType::Bin,
    CrateType::Lib,
    CrateType::Rlib,
    CrateType::Dylib,
    CrateType::Cdylib,
    CrateType::Staticlib,
    CrateType::ProcMacro,
];

impl WordSet for CrateType {
    const COUNT: usize = CRATE_TYPES.len();

    const LONGEST: usize = b"proc-macro".len();

    ghost COUNT = { length crate_types };

    ghost LONGEST = { longest crate_types crate_type };

    ghost words = { crate_types };

    ghost spelled = { crate_type };

    ghost counted = { Prim.search rules };

    ghost bounded = { Prim.search rules };

    ghost reads = { Prim.search rules };

    ghost cleans = { Prim.search rules };

    fn at(place: usize) -> Option<Self> {
        CRATE_TYPES.get(place).copied()
    }

    fn spelling(self) -> &'static [u8] {
        match self {
            CrateType::Bin => b"bin",
            CrateType::Lib => b"lib",
            CrateType::Rlib => b"rlib",
            CrateType::Dylib => b"dylib",
            CrateType::Cdylib => b"cdylib",
            CrateType::Staticlib => b"staticlib",
            CrateType::ProcMacro => b"proc-macro",
        }
    }
}

// A kind of output, of `--emit`.
#[derive(Clone, Copy, Debug, PartialEq, Eq)]
pub enum Emit {
    Asm,
    LlvmBc,
    LlvmIr,
    Obj,
    Metadata,
    Link,
    DepInfo,
    Mir,
}

const EMITS: &[Emit] = &[
    Emit::Asm,
    Emit::LlvmBc,
    Emit::LlvmIr,
    Emit::Obj,
    Emit::Metadata,
    Emit::Link,
    Emit::DepInfo,
    Emit::Mir,
];

impl WordSet for Emit {
    const COUNT: usize = EMITS.len();

    const LONGEST: usize = b"metadata".len();

    ghost COUNT = { length emits };

    ghost LONGEST = { longest emits emit };

    ghost words = { emits };

    ghost spelled = { emit };

    ghost counted = { Prim.search rules };

    ghost bounded = { Prim.search rules };

    ghost reads = { Prim.search rules };

    ghost cleans = { Prim.search rules };

    fn at(place: usize) -> Option<Self> {
        EMITS.get(place).copied()
    }

    fn spelling(self) -> &'static [u8] {
        match self {
            Emit::Asm => b"asm",
            Emit::LlvmBc => b"llvm-bc",
            Emit::LlvmIr => b"llvm-ir",
            Emit::Obj => b"obj",
            Emit::Metadata => b"metadata",
            Emit::Link => b"link",
            Emit::DepInfo => b"dep-info",
            Emit::Mir => b"mir",
        }
    }
}
