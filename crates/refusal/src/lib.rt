// Why a call is refused: the question at its door that got the first no, or a word that is not listed.
#![tactic(auto)]

ghost use Rattle.std.specs.Prelude.{◌≡◌};
ghost use Rattle.refusal.specs.Refusal.{refusal_number};

#[derive(Clone, Copy, Debug, PartialEq, Eq)]
pub enum Refusal {
    Image,
    Map,
    Table,
    State,
    Recording,
    Trace,
    Input,
    Unlisted,
    Page,
}

impl Refusal {
    // The paper's number.
    pub fn number(self) -> u8
        ensures { result ≡ refusal_number self }
    {
        match self {
            Refusal::Image => 11,
            Refusal::Map => 12,
            Refusal::Table => 13,
            Refusal::State => 14,
            Refusal::Recording => 15,
            Refusal::Trace => 16,
            Refusal::Input => 18,
            Refusal::Unlisted => 22,
            Refusal::Page => 41,
        }
    }
}
