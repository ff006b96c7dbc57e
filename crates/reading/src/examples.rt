// Texts of which the flags are known.
ghost use Rattle.std.specs.Prelude.{◌≡◌};
ghost use Rattle.std.specs.Option.{option_map};
ghost use Rattle.reading.specs.Examples.{text_at, AllRead};

const TEXTS: [&[u8]; 17] = [
    b"-hV",
    b"-A",
    b"--allow",
    b"-o\x1f",
    b"-o\x1f\x1f-h",
    b"--help=x\x1f-v",
    b"--\x1f-h",
    b"-Cb=c=d",
    b"--cfg=a=\"\"",
    b"--cfg=a=\"b",
    b"--emit=zz,link,,asm\x1f-h",
    b"--remap-path-prefix=a=b=c",
    b"-L\x1fx=y",
    b"-ldylib=a=b",
    b"--edition=+02021",
    b"--edition=65535",
    b"--edition=65536",
];

// The text of the example at a place. Under the options of rustc each example gives the flags that are listed with it.
#[tactic(auto, using(crate::proofs::Shown::all_read))]
pub fn example(place: usize) -> Option<&'static [u8]>
    ensures text { option_map (λ x. x.now) result ≡ text_at place }
    ensures flags { AllRead }
{
    TEXTS.get(place).copied()
}
