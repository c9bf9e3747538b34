// The listing page: one line of 32 bytes for each word of an image.
#![tactic(auto)]

ghost use Rattle.std.specs.Prelude.{◌≡◌, ◌*◌, ◌≤◌, length, take, drop};
ghost use Rattle.machine.specs.Step.{word_count};
ghost use Rattle.columns.specs.Line.{line_length};
ghost use Rattle.listing.specs.Answer.{answer_of};
ghost use Rattle.listing.specs.Listing.{page_of, page_yielded, list_result, printed_of};

use refusal::Refusal;

// Bytes of a line, its line feed included.
const LINE: usize = 32;

// The lines of all words.
fn lines(image: &[u8], page: &mut [u8])
    requires { length page.old ≡ line_length * word_count image.now }
    ensures { page.new ≡ page_of image.now }
{
    let (words, _) = image.as_chunks::<2>();
    for (a, word) in words.iter().enumerate() {
        columns::put_line(page, LINE * a, a, word[0], word[1]);
    }
}

// Writes the listing of an image into a page of 32 bytes for each word; or refuses, 11 or 41, and then no byte changes.
pub fn list(image: &[u8], page: &mut [u8]) -> Result<(), Refusal>
    ensures { page_yielded (answer_of result) page.new ≡ list_result image.now page.old }
{
    if !emulator::image_fits(image) {
        return Err(Refusal::Image);
    }
    if page.len() != LINE * (image.len() / 2) {
        return Err(Refusal::Page);
    }
    lines(image, page);
    Ok(())
}

// What the program `list` prints for its input; its length.
pub fn print(input: &[u8], out: &mut [u8]) -> usize
    requires { 262144 ≤ length out.old }
    ensures { (take result out.new ≡ printed_of input.now) × (result ≤ length out.new) × (drop result out.new ≡ drop result out.old) }
{
    if !emulator::image_fits(input) {
        let behind = text::put_door(out, usize::from(Refusal::Image.number()));
        return text::put(out, behind, b"\n");
    }
    let size = LINE * (input.len() / 2);
    lines(input, &mut out[..size]);
    size
}
