// The names of the settings' words, as lines of a sheet begin with them, and their ranges.
#![tactic(auto)]

ghost use Rattle.std.specs.Prelude.{◌<◌};
ghost use Rattle.settings.specs.Words.{size, entry_at};
ghost use Rattle.names.specs.Names.{IsFieldOf};

use settings::{LONGEST, SHORTEST, WORDS};

// A line's field, and no field of a motor: a word's name with an equals sign, whether the word is a gain (a yes or no, as settings/specs/Words `Entry`
// has it), and its range.
#[derive(Clone, Copy)]
pub struct Field {
    pub key: &'static [u8],
    pub gain: bool,
    pub lo: i32,
    pub hi: i32,
}

// In the order of the words.
static FIELDS: [Field; WORDS] = [
    Field {
        key: b"T=",
        gain: false,
        lo: SHORTEST,
        hi: LONGEST,
    },
    Field {
        key: b"sKp=",
        gain: true,
        lo: 1,
        hi: 32767,
    },
    Field {
        key: b"sKcor=",
        gain: true,
        lo: 0,
        hi: 4096,
    },
    Field {
        key: b"sKi=",
        gain: true,
        lo: 0,
        hi: 32767,
    },
    Field {
        key: b"cKp=",
        gain: true,
        lo: 1,
        hi: 32767,
    },
    Field {
        key: b"cKcor=",
        gain: true,
        lo: 0,
        hi: 4096,
    },
    Field {
        key: b"cKi=",
        gain: true,
        lo: 0,
        hi: 32767,
    },
    Field {
        key: b"V=",
        gain: false,
        lo: 1,
        hi: 4096,
    },
    Field {
        key: b"Q=",
        gain: false,
        lo: 1,
        hi: 8191,
    },
    Field {
        key: b"Kr=",
        gain: false,
        lo: 1,
        hi: 4096,
    },
    Field {
        key: b"Kt=",
        gain: false,
        lo: 0,
        hi: 32767,
    },
    Field {
        key: b"Kth=",
        gain: false,
        lo: 0,
        hi: 8191,
    },
    Field {
        key: b"Kn=",
        gain: false,
        lo: 1,
        hi: 4096,
    },
    Field {
        key: b"F=",
        gain: false,
        lo: 410,
        hi: 8191,
    },
    Field {
        key: b"R=",
        gain: false,
        lo: 1,
        hi: 8191,
    },
];

// The name and the range of word i, counted from 0.
#[tactic(auto, using(crate::proofs::Tables::at), unfolding(settings::specs::Words::entries))]
pub fn field_at(i: usize) -> Field
    requires { i < size }
    ensures { IsFieldOf result (entry_at i) }
{
    FIELDS[i]
}
