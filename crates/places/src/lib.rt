//! Where a name stands in a list: at the place that is guessed for it, or found by going through all.
#![tactic(auto)]

ghost use Rattle.std.specs.Prelude.{◌≡◌, ◌<◌, true, map, length, position, IfSome};
ghost use Rattle.rm_base.specs.declared.name.Name.{Name};
ghost use Rattle.rm_base.specs.Name.{same_name};
ghost use Rattle.rm_rules.specs.Sound.{are_distinct};

use rm_base::name::Name;
use rm_base::rows::PoolRow;
use rm_rules::state::Reserve;

/// Something that has a name.
pub trait Named {
    ghost name: { Self → Name };

    fn name(&self) -> Name
        ensures { result ≡ name self.now };
}

impl Named for PoolRow {
    ghost name = { λ row. row.name };

    fn name(&self) -> Name {
        self.name
    }
}

impl Named for Reserve {
    ghost name = { λ e. e.pool };

    fn name(&self) -> Name {
        self.pool
    }
}

/// How many guesses are kept: one for each value of a byte, to which the names are folded.
const GUESSES: usize = 256;

/// The place that was last noted for a name, or for another that is folded to the same byte.
#[derive(Clone, Copy, Debug)]
pub struct Guesses {
    places: [u8; GUESSES],
}

/// The name, folded to a byte.
fn folded(name: Name) -> u8 {
    let mut sum: u8 = 0;
    for byte in name.as_str().as_bytes() {
        sum = sum.wrapping_mul(31).wrapping_add(*byte);
    }
    sum
}

impl Guesses {
    /// No place was noted yet.
    pub fn new() -> Guesses {
        Guesses {
            places: [0; GUESSES],
        }
    }

    /// The places of these rows.
    pub fn of<T: Named>(rows: &[T]) -> Guesses {
        let mut places = Guesses::new();
        for (place, row) in rows.iter().enumerate() {
            places.note(row.name(), place);
        }
        places
    }

    /// The name stands at this place now.
    pub fn note(&mut self, name: Name, place: usize) {
        if let Ok(place) = u8::try_from(place) {
            self.places[usize::from(folded(name))] = place;
        }
    }

    /// The place of the row that has this name. Whatever was noted, it is the right one; what was noted well is found at once.
    pub fn place_of<T: Named>(&self, rows: &[T], name: Name) -> Option<usize>
        requires { are_distinct (map (λ row. T.name row) rows.now) ≡ true }
        ensures value { result ≡ position (λ row. same_name (T.name row) name) rows.now }
        ensures within { IfSome result (λ place. place < length rows.now) }
    {
        let guess = usize::from(self.places[usize::from(folded(name))]);
        if guess < rows.len() && rows[guess].name().same(name) {
            return Some(guess);
        }
        rows.iter().position(|row| row.name().same(name))
    }
}
