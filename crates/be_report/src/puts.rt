ghost use Rattle.std.specs.Prelude.{◌≡◌, ◌<◌, ◌≤◌, length, OnOk, OnErr};
ghost use Rattle.be_outside.specs.Faults.{FaultsRose};
ghost use Rattle.be_outside.specs.Telling.{with_end, TakesPrefix};

use be_outside::{Failed, Sink};

/// Puts a text line by line, each line with its end as one piece.
pub fn put_lines<K: Sink>(text: &[u8], sink: &mut K) -> Result<(), Failed>
    ensures written { OnOk result (K.held sink.new ≡ with_end (K.held sink.old) text.now) }
    ensures prefix { OnErr result (TakesPrefix (K.held sink.old) (K.held sink.new) text.now) }
    ensures failed { OnErr result (FaultsRose (K.faults sink.old) (K.faults sink.new)) }
    ensures never_falls { K.faults sink.old ≤ K.faults sink.new }
{
    let mut from = 0;
    while from < text.len() {
        let end = line_end(text, from);
        match sink.put(&text[from..end]) {
            Ok(()) => from = end,
            Err(Failed) => return Err(Failed),
        }
    }
    Ok(())
}

/// The end of the line that starts at a place, behind its line feed; the last line may lack it.
fn line_end(text: &[u8], from: usize) -> usize
    requires { from < length text.now }
    ensures behind { from < result }
    ensures within { result ≤ length text.now }
{
    for place in from..text.len() {
        if text[place] == b'\n' {
            return place + 1;
        }
    }
    text.len()
}
