// Foretelling: what an admission of an image takes, without doing the work.
#![tactic(auto)]

ghost use Rattle.std.specs.Prelude.{◌≡◌, IfErr};
ghost use Rattle.refusal.specs.declared.Refusal.{Refusal};
ghost use Rattle.foretell.specs.Foretell.{foretold_as, foretold, foretold_numbers, foretelling};

use refusal::Refusal;

// At most so many sweeps change a table, for each word of its image.
const WORD_SWEEPS: usize = 108;

// The length of the table that an admission takes, and the most sweeps that it can count.
#[derive(Clone, Copy, Debug, PartialEq, Eq)]
pub struct Forecast {
    pub length: usize,
    pub bound: usize,
}

// Of an image: the length of its table, and the bound of its sweeps; or the refusal 11.
pub fn foretell(image: &[u8]) -> Result<Forecast, Refusal>
    ensures forecast { (foretold_as result ≡ foretold image.now) × (foretold_numbers (foretold_as result) ≡ foretelling image.now) }
    ensures refusal { IfErr result (λ e. e ≡ Refusal.Image) }
{
    if !emulator::image_fits(image) {
        return Err(Refusal::Image);
    }
    let words = image.len() / 2;
    Ok(Forecast {
        length: words * facts::WORD_RECORDS,
        bound: words * WORD_SWEEPS,
    })
}
