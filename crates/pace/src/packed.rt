// A script's calls, packed.
ghost use Rattle.std.specs.Prelude.{◌≤◌};
ghost use Rattle.pace.specs.Room.{room};

use verbs::Verb;

const ROOM: usize = 4096;

// So many calls; what stands behind them is not made.
#[derive(Clone, Copy)]
pub struct Packed {
    calls: [Verb; ROOM],
    count: usize,
    ghost fits: { count ≤ room },
}

impl Packed {
    // The first calls of a script.
    pub fn of(script: &[u8]) -> Packed {
        let mut calls = [Verb::Tick; ROOM];
        let mut count = 0;
        for asked in script.split(|b| *b == b'\n').filter_map(language::read) {
            if count < ROOM {
                calls[count] = asked;
                count += 1;
            }
        }
        Packed { calls, count }
    }

    pub fn calls(&self) -> &[Verb] {
        &self.calls[..self.count]
    }
}
