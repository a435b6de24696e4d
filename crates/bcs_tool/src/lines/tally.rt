//! The number of answered lines by status.
ghost use Rattle.std.specs.Prelude.{◌≡◌, ◌<◌, ◌+◌, ◌^◌, ◌++◌, ◌∷◌, [], ℕ, List};
ghost use Rattle.bcs_tool.specs.Lines.{IsTally, tally_status};

/// The number of answered lines, the number with each status, and the greatest status.
#[derive(Clone, Copy, Debug, Drop)]
pub struct Tally {
    pub answered: u64,
    /// With status 0.
    pub done: u64,
    /// With status 1.
    pub negative: u64,
    /// With status 2.
    pub refused: u64,
    /// The greatest status, or 0 if no line was answered.
    pub status: u8,
}

impl Tally {
    /// No line has been answered yet.
    pub fn new() -> Tally
        ensures { IsTally result [] }
    {
        Tally {
            answered: 0,
            done: 0,
            negative: 0,
            refused: 0,
            status: 0,
        }
    }

    /// One more line was answered, with this status.
    pub fn with(self, status: u8) -> Tally
        requires below { status < 3 }
        requires counted { (statuses : List ℕ) × IsTally self statuses }
        requires room { self.answered + 1 < 2 ^ 64 }
        ensures { (statuses : List ℕ) → IsTally self statuses → IsTally result (statuses ++ status ∷ []) }
    {
        Tally {
            answered: self.answered + 1,
            done: self.done + u64::from(status == 0),
            negative: self.negative + u64::from(status == 1),
            refused: self.refused + u64::from(status == 2),
            status: self.status.max(status),
        }
    }

    /// The status of the run: the greatest one. If refusals are JSON, refused lines don't count.
    pub fn run_status(self, json_refusals: bool) -> u8
        ensures { result ≡ tally_status json_refusals self }
    {
        if json_refusals {
            if self.negative == 0 { 0 } else { 1 }
        } else {
            self.status
        }
    }
}
