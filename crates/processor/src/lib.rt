// The processor: the word at an address and its form, and one step over a fetched word.
#![tactic(auto)]

ghost use Rattle.std.specs.Prelude.{◌≡◌, ◌<◌};
ghost use Rattle.word.specs.Word.{InRange, decoded};
ghost use Rattle.machine.specs.Step.{word_count, word_at, shape_at, word_step, step_from, stepped};
ghost use Rattle.machine.specs.Parts.{whole, fetch_of, outcome, Ready};
ghost use Rattle.forms.specs.Forms.{shape_is, FormFits};
ghost use Rattle.processor.specs.Fetching.{Fetches, Runs};

use forms::Form;
use machine::{Effect, Sequencer, Stop};
use word::Word;

// Executes a word at the sequencer's PC.
#[tactic(auto, unfolding(machine::specs::Step::go_state))]
fn execute(
    form: Form,
    map: &[u8; map::LENGTH],
    bus: [u8; 2],
    q: Sequencer,
    values: &mut [u8; 11],
    latches: &mut [u8; 2],
    returns: &mut [u16; 8],
) -> Effect
    requires { Ready q × FormFits form }
    ensures { outcome result values.new latches.new returns.new ≡ word_step map.now (shape_is form) bus (whole q values.old latches.old returns.old) }
{
    match form {
        Form::Act(a) => delivery::act(map, bus, a, q, values, latches),
        Form::Jump { a } => control::go_to(a, q.depth),
        Form::Branch(w) => control::nzt(map, bus, w, q, values),
        Form::Defer(w) => control::xec(map, bus, w, q, values),
        Form::Call { i } => control::call(i, q, values, returns),
        Form::Return => control::ret(q, returns),
        Form::Invalid => q.stopped(Stop::Invalid),
    }
}

// The word at an address.
pub fn word_at(image: &[u8], at: usize) -> Word
    requires { at < word_count image.now }
    ensures { (result ≡ decoded (word_at image.now at)) × InRange result }
{
    word::decode_bytes(image[2 * at], image[2 * at + 1])
}

// Its form.
pub fn form_at(image: &[u8], at: usize) -> Form
    requires { at < word_count image.now }
    ensures { (shape_is result ≡ shape_at image.now at) × FormFits result }
{
    forms::form_of(word_at(image, at))
}

// A decoded word that is valid, or none.
pub fn fetched_of(word: Word) -> Option<Word>
    ensures { Fetches word result }
{
    match word {
        Word::Invalid => None,
        _ => Some(word),
    }
}

// Where the next word is fetched.
pub fn fetch_address(q: Sequencer) -> usize
    ensures { result ≡ fetch_of q }
{
    q.pending.unwrap_or(q.pc)
}

// One step of a machine that is not stopped. The word is decoded here and not by word_at, so that the decoder becomes part
// of the loop over steps.
pub fn step(
    image: &[u8],
    map: &[u8; map::LENGTH],
    bus: [u8; 2],
    q: Sequencer,
    values: &mut [u8; 11],
    latches: &mut [u8; 2],
    returns: &mut [u16; 8],
) -> Effect
    requires { Runs image.now q }
    ensures { step_from (whole q values.old latches.old returns.old) (outcome result values.new latches.new returns.new) ≡ stepped image.now map.now bus (whole q values.old latches.old returns.old) }
{
    let at = fetch_address(q);
    if image.len() / 2 <= at {
        return q.stopped(Stop::Outside);
    }
    let decoded = word::decode_bytes(image[2 * at], image[2 * at + 1]);
    let Some(word) = fetched_of(decoded) else {
        return q.stopped(Stop::Invalid);
    };
    execute(forms::form_of(word), map, bus, q, values, latches, returns)
}
