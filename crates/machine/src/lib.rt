// The machine: what a word leaves, and what it reads. The values, the latches and the call stack are lent, the
// rest of the state is a small struct, so that a loop over steps keeps all of it in place.
#![tactic(auto)]

pub mod act;

ghost use Rattle.std.specs.Prelude.{◌≡◌, ℕ, List, eqb, Some, None};
ghost use Rattle.choice.specs.Choice.{pick};
ghost use Rattle.machine.specs.Step.{came_to_stop, stepped};
ghost use Rattle.machine.specs.Parts.{whole, outcome, stop_number, fetch_of};
ghost use Rattle.machine.specs.Numbers.{numbered, left_by};

// PC, the address that an XEC chose if one is pending, depth.
#[derive(Clone, Copy)]
pub struct Sequencer {
    pub pc: usize,
    pub pending: Option<usize>,
    pub depth: usize,
}

// Why a machine stops: the first step question that gets a no.
#[derive(Clone, Copy, PartialEq, Eq)]
pub enum Stop {
    Outside,
    Invalid,
    Unreadable,
    Unwritable,
    Unlisted,
    Full,
    Empty,
}

impl Stop {
    // The paper's number.
    pub fn number(self) -> u8
        ensures { result ≡ stop_number self }
    {
        match self {
            Stop::Outside => 21,
            Stop::Invalid => 22,
            Stop::Unreadable => 23,
            Stop::Unwritable => 24,
            Stop::Unlisted => 25,
            Stop::Full => 26,
            Stop::Empty => 27,
        }
    }
}

// What the trace tells of a word: nothing, a bank's address chosen, data written at it, or a stop. A bank is a number, 0 or 1, as a bit
// of the source or target gives it: it picks latch, address and set.
#[derive(Clone, Copy)]
pub enum Event {
    Quiet,
    Address { bank: usize, address: u8 },
    Data { bank: usize, address: u8, data: u8 },
    Stopped(Stop),
}

// What a word leaves.
#[derive(Clone, Copy)]
pub struct Effect {
    pub q: Sequencer,
    pub event: Event,
}

impl Sequencer {
    // The sequencer of a state's numbers: the address is pending where the flag is 1.
    pub fn of(pc: usize, flag: usize, pending: usize, depth: usize) -> Sequencer
        ensures parts { result ≡ record { pc = pc; pending = pick (eqb flag 1) (Some pending) None; depth = depth } }
        ensures fetch { fetch_of result ≡ pick (eqb flag 1) pending pc }
        ensures step { (image map bus values latches returns : List ℕ) → stepped image map bus (numbered pc flag pending depth values latches returns) ≡ left_by flag pending (stepped image map bus (whole result values latches returns)) }
    {
        Sequencer {
            pc,
            pending: if flag == 1 { Some(pending) } else { None },
            depth,
        }
    }

    // A stop changes nothing but the stop number.
    pub fn stopped(self, why: Stop) -> Effect
        ensures { (v l s : List ℕ) → outcome result v l s ≡ came_to_stop (whole self v l s) (stop_number why) }
    {
        Effect {
            q: self,
            event: Event::Stopped(why),
        }
    }
}
