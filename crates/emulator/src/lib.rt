// The steps of a run: one for each pair of a recording, with its trace record.
#![tactic(auto)]

ghost use Rattle.std.specs.Prelude.{◌≡◌, [], ◌∷◌, ◌≤◌, ◌<◌, length};
ghost use Rattle.machine.specs.Parts.{whole, event_kind, event_bytes};
ghost use Rattle.emulator.specs.Run.{ran_over, written_over, image_fits};
ghost use Rattle.emulator.specs.Parts.{half_length, address_bytes, ran_to, laid_over, Accepted};

use machine::{Event, Sequencer};

// A recording has a left and a right byte for each step, a trace a record of eight: what the word does, and where.
pub const PAIR: usize = 2;

pub const RECORD: usize = 8;

const HALF: usize = 4;

// What a run that is not refused answers: the count of trace records and the stop number or 0, as byte 35 of the state has it: a run of
// a state that is stopped gives that number.
#[derive(Clone, Copy, Debug, PartialEq, Eq)]
pub struct RunEnd {
    pub count: usize,
    pub stop: usize,
}

// What the steps of a run leave: the sequencer, how many steps there were, the stop number or 0.
#[derive(Clone, Copy)]
pub struct Last {
    pub q: Sequencer,
    pub count: usize,
    pub stop: usize,
}

// Writes half a record at the start of a part of the trace.
fn write_half(part: &mut [u8], a: u8, b: u8, c: u8, d: u8)
    requires { half_length ≤ length part.old }
    ensures { part.new ≡ written_over (a ∷ b ∷ c ∷ d ∷ []) part.old }
{
    part[0] = a;
    part[1] = b;
    part[2] = c;
    part[3] = d;
}

// What a step's word does. Not as an array that is copied: that takes 8 instructions a step more (of 91, the timing image).
fn write_event(part: &mut [u8], event: Event)
    requires { (half_length ≤ length part.old) × (event_kind event < 256) }
    ensures { part.new ≡ written_over (event_bytes event) part.old }
{
    match event {
        Event::Quiet => write_half(part, 0, 0, 0, 0),
        Event::Address { bank, address } => write_half(part, (1 + bank) as u8, address, 0, 0),
        Event::Data {
            bank,
            address,
            data,
        } => write_half(part, (3 + bank) as u8, address, data, 0),
        Event::Stopped(why) => write_half(part, 5, 0, 0, why.number()),
    }
}

// PC and the fetch address before a step, the low byte first.
fn write_addresses(part: &mut [u8], q: Sequencer)
    requires { half_length ≤ length part.old }
    ensures { part.new ≡ written_over (address_bytes q) part.old }
{
    let [pc_low, pc_high, ..] = q.pc.to_le_bytes();
    let [at_low, at_high, ..] = processor::fetch_address(q).to_le_bytes();
    write_half(part, pc_low, pc_high, at_low, at_high);
}

// Steps over the pairs of the recording until the machine stops.
pub fn steps(
    image: &[u8],
    map: &[u8; map::LENGTH],
    recording: &[u8],
    start: Sequencer,
    values: &mut [u8; 11],
    latches: &mut [u8; 2],
    returns: &mut [u16; 8],
    trace: &mut [u8],
) -> Last
    requires { Accepted image.now recording.now trace.old (whole start values.old latches.old returns.old) }
    ensures { ran_to result values.new latches.new returns.new trace.new ≡ laid_over (ran_over image.now map.now recording.now (whole start values.old latches.old returns.old)) trace.old }
{
    let mut q = start;
    let pairs = recording.len() / PAIR;
    for i in 0..pairs {
        let bus = [recording[PAIR * i], recording[PAIR * i + 1]];
        let at = RECORD * i;
        write_addresses(&mut trace[at + HALF..], q);
        let e = processor::step(image, map, bus, q, values, latches, returns);
        write_event(&mut trace[at..], e.event);
        q = e.q;
        if let Event::Stopped(why) = e.event {
            return Last {
                q,
                count: i + 1,
                stop: usize::from(why.number()),
            };
        }
    }
    Last {
        q,
        count: pairs,
        stop: 0,
    }
}

// Is the image's length even, 2 to 16,384 bytes?
pub fn image_fits(image: &[u8]) -> bool
    ensures { result ≡ image_fits image.now }
{
    (image.len() % 2 == 0) & ((2 <= image.len()) & (image.len() <= 16384))
}
