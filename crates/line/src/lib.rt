// The line that the bench program prints, made from its input.
#![tactic(auto)]

ghost use Rattle.std.specs.Prelude.{◌≡◌, ◌≤◌, ◌<◌, length, take, drop};
ghost use Rattle.map.specs.Map.{map_length};
ghost use Rattle.choice.specs.Choice.{asked};
ghost use Rattle.refusal.specs.Refusal.{refusal_number};
ghost use Rattle.text.specs.Text.{door_line};
ghost use Rattle.text.specs.Parts.{Written};
ghost use Rattle.report.specs.Report.{words_line};
ghost use Rattle.line.specs.Line.{input_questions, line_of};

use refusal::Refusal;

// A refusal at the door.
fn put_refusal(out: &mut [u8], refusal: Refusal) -> usize
    requires { 11 ≤ length out.old }
    ensures { Written out.old 0 (door_line (refusal_number refusal)) out.new result × (result ≤ 11) }
{
    text::put_door(out, usize::from(refusal.number()))
}

// The line without its end.
fn put_words(out: &mut [u8], input: &[u8]) -> usize
    requires { 64 ≤ length out.old }
    ensures { Written out.old 0 (asked (input_questions input.now) (words_line (take map_length input.now) (drop map_length input.now)) door_line) out.new result × (result < 64) }
{
    let Some((map, image)) = input.split_first_chunk() else {
        return put_refusal(out, Refusal::Map);
    };
    if 928 < input.len() {
        return put_refusal(out, Refusal::Input);
    }
    if !emulator::image_fits(image) {
        return put_refusal(out, Refusal::Image);
    }
    report::put_answer(out, map, image)
}

// Makes the line of an input, the map and then the image; its length.
pub fn line(input: &[u8], out: &mut [u8]) -> usize
    requires { 64 ≤ length out.old }
    ensures { (take result out.new ≡ line_of input.now) × (result ≤ length out.new) × (drop result out.new ≡ drop result out.old) }
{
    let e = put_words(out, input);
    text::put(out, e, b"\n")
}
