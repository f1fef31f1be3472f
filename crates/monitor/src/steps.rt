// The steps of a monitor as a table: a cell for each two states and letter.
// One read tells whether a state may follow another.
ghost use Rattle.std.specs.Prelude.{◌≡◌, ◌+◌, ◌*◌, ◌<◌};
ghost use Rattle.monitor.specs.Edits.{no_steps, stepped};
ghost use Rattle.monitor.specs.Tables.{steps_of};

// The cells stand in one array: one write sets a letter, and a table of tables gets no proof of its literal.
#[derive(Clone, Copy)]
pub struct Steps {
    cells: [bool; 256],
}

impl Steps {
    pub(crate) fn none() -> Steps
        ensures { steps_of result ≡ no_steps }
    {
        Steps {
            cells: [false; 256],
        }
    }

    // Whether `r` may follow `q` by the letter.
    #[tactic(auto, using(std::proofs::lemmas::Bool::Decides::nat_tests), unfolding(crate::specs::Tables::steps_of))]
    pub(crate) fn has(&self, q: usize, letter: u8, r: usize) -> bool
        ensures { result ≡ steps_of self.now q letter r }
    {
        q < 4 && letter < 16 && r < 4 && self.cells[cell(q, letter, r)]
    }

    // The table in which `r` may also follow `q` by each letter whose bits under `care` are `value`.
    pub(crate) fn with(mut self, q: usize, care: u8, value: u8, r: usize) -> Steps
        requires { (q < 4) × (r < 4) }
        ensures { steps_of result ≡ stepped q care value r (steps_of self) }
    {
        for letter in 0..16u8 {
            if letter & care == value {
                self.cells[cell(q, letter, r)] = true;
            }
        }
        self
    }
}

// Where the cell of two states and a letter stands.
fn cell(q: usize, letter: u8, r: usize) -> usize
    requires { (q < 4) × ((letter < 16) × (r < 4)) }
    ensures { result ≡ (q * 4 + r) * 16 + letter }
{
    (q * 4 + r) * 16 + usize::from(letter)
}
