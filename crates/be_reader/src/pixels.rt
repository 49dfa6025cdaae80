ghost use Rattle.std.specs.Prelude.{◌≡◌, IfOk, drop, take};
ghost use Rattle.std.specs.Option.{option_map};
ghost use Rattle.std.specs.Result.{result_map_both};
ghost use Rattle.be_command.specs.Kinds.{formed};
ghost use Rattle.be_command.specs.Places.{judged};
ghost use Rattle.be_line.specs.Kinds.{pixels_in};

// The pixels of a bitmap's row, which stand in one word.

use be_color::Color;
use be_command::Reason;
use be_geom::NoMemory;
use be_lex::read_pixel;
use std::alloc::Global;

/// A row of so many pixels, or what is wrong with it. None stands for a missing word.
pub(crate) fn row(
    alloc: Global,
    word: Option<&[u8]>,
    count: u16,
) -> Result<Result<Vec<Color>, Reason>, NoMemory>
    ensures { IfOk result (λ read. result_map_both (λ row. row.items) (λ reason. reason) read
        ≡ judged (λ word. formed (pixels_in count word)) (option_map (λ w. w.now) word.entry)) }
{
    let Some(word) = word else {
        return Ok(Err(Reason::Shape));
    };
    Ok(read_row(alloc, word, count)?.ok_or(Reason::Shape))
}

fn read_row(alloc: Global, word: &[u8], count: u16) -> Result<Option<Vec<Color>>, NoMemory>
    ensures { IfOk result (λ row. option_map (λ row. row.items) row ≡ pixels_in count word.now) }
{
    let mut colors = Vec::new(alloc);
    let mut rest = word;
    let mut left = count;
    while left > 0 {
        let Some(color) = read_pixel(first_pixel(rest)) else {
            return Ok(None);
        };
        colors.push(color)?;
        rest = behind_pixel(rest);
        left -= 1;
    }
    if rest.is_empty() {
        Ok(Some(colors))
    } else {
        Ok(None)
    }
}

/// The first six bytes, where there are as many.
fn first_pixel(bytes: &[u8]) -> &[u8]
    ensures { result.now ≡ take 6 bytes.now }
{
    if bytes.len() < 6 { bytes } else { &bytes[..6] }
}

fn behind_pixel(bytes: &[u8]) -> &[u8]
    ensures { result.now ≡ drop 6 bytes.now }
{
    if bytes.len() < 6 { b"" } else { &bytes[6..] }
}
