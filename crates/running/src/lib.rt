// The run: the questions at the door, the steps, the state stored.
#![tactic(auto)]

ghost use Rattle.std.specs.Prelude.{◌≡◌, ◌<◌, true, false, length, Ok, IfOk, IfErr};
ghost use Rattle.refusal.specs.declared.Refusal.{Refusal};
ghost use Rattle.state.specs.State.{state_length, EachBelow, Formed, loaded};
ghost use Rattle.machine.specs.Parts.{whole};
ghost use Rattle.emulator.specs.Run.{ran_over, state_fits, trace_fits, run_told, yielded, ended, run_result};
ghost use Rattle.emulator.specs.Parts.{last_state, Accepted};

use emulator::{Last, PAIR, RECORD, RunEnd};
use machine::Sequencer;
use refusal::Refusal;
use state::State;

// The sequencer of a well-formed state that is not stopped: an XEC is pending where the flag is 1.
fn sequencer_of(s: State) -> Sequencer
    requires { Formed s × (s.stop ≡ 0) }
    ensures { whole result s.values s.latches s.returns ≡ s }
{
    let pending = if s.flag == 1 { Some(s.pending) } else { None };
    Sequencer {
        pc: s.pc,
        pending,
        depth: s.depth,
    }
}

// The state that the steps of a run leave.
fn last_state(last: Last, values: [u8; 11], latches: [u8; 2], returns: [u16; 8]) -> State
    ensures { result ≡ last_state last values latches returns }
{
    let q = last.q;
    State {
        pc: q.pc,
        flag: usize::from(q.pending.is_some()),
        pending: q.pending.unwrap_or(0),
        values,
        latches,
        depth: q.depth,
        returns,
        stop: last.stop,
    }
}

// The steps of a run from a state that is not stopped, and the state stored.
fn run_from(
    image: &[u8],
    map: &[u8; map::LENGTH],
    s: State,
    state: &mut [u8],
    recording: &[u8],
    trace: &mut [u8],
) -> RunEnd
    requires { Accepted image.now recording.now trace.old s × (s.stop ≡ 0) × (length state.old ≡ state_length) }
    ensures { yielded (run_told (Ok result)) state.new trace.new ≡ ended trace.old (ran_over image.now map.now recording.now s) }
{
    let start = sequencer_of(s);
    let mut values = s.values;
    let mut latches = s.latches;
    let mut returns = s.returns;
    let last = emulator::steps(
        image,
        map,
        recording,
        start,
        &mut values,
        &mut latches,
        &mut returns,
        trace,
    );
    let after = last_state(last, values, latches, returns);
    storing::store(after, state);
    RunEnd {
        count: last.count,
        stop: last.stop,
    }
}

// The state of 36 bytes that are well formed.
fn state_of(bytes: &[u8]) -> Result<State, Refusal>
    ensures formed { IfOk result (λ s. (state_fits bytes.now ≡ true) × (length bytes.now ≡ state_length) × (s ≡ loaded bytes.now)) }
    ensures bytes { EachBelow 256 bytes.now }
    ensures refusal { IfErr result (λ e. (state_fits bytes.now ≡ false) × (e ≡ Refusal.State)) }
{
    let Ok(bytes) = <&[u8; state::LENGTH]>::try_from(bytes) else {
        return Err(Refusal::State);
    };
    let s = state::load(bytes);
    if !state::well_formed(s) {
        return Err(Refusal::State);
    }
    Ok(s)
}

// Has the trace a record for each pair? Four times a recording's length may be no usize.
fn trace_fits(recording: &[u8], trace: &[u8]) -> bool
    ensures { result ≡ trace_fits recording.now trace.now }
{
    (trace.len() % RECORD == 0) & (trace.len() / RECORD == recording.len() / PAIR)
}

// Runs an image under a map, from the state's 36 bytes, over the pairs of a recording, and writes their trace.
// Yields the count of trace records and the stop number or 0; or a refusal, 11, 12, 14, 15 or 16, and then no byte changes.
pub fn run(
    image: &[u8],
    map: &[u8],
    state: &mut [u8],
    recording: &[u8],
    trace: &mut [u8],
) -> Result<RunEnd, Refusal>
    ensures { yielded (run_told result) state.new trace.new ≡ run_result image.now map.now state.old recording.now trace.old }
{
    if !emulator::image_fits(image) {
        return Err(Refusal::Image);
    }
    let Ok(map) = <&[u8; map::LENGTH]>::try_from(map) else {
        return Err(Refusal::Map);
    };
    let s = state_of(state)?;
    if recording.len() % PAIR != 0 {
        return Err(Refusal::Recording);
    }
    if !trace_fits(recording, trace) {
        return Err(Refusal::Trace);
    }
    let stop = s.stop;
    if stop != 0 {
        return Ok(RunEnd { count: 0, stop });
    }
    Ok(run_from(image, map, s, state, recording, trace))
}
