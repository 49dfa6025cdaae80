ghost use Rattle.std.specs.Prelude.{◌≡◌, ◌<◌, IfOk, OnOk, OnErr, IfSome, IfErr, vec_len, flat_map};
ghost use Rattle.be_outside.specs.Faults.{FaultsRose};
ghost use Rattle.be_outside.specs.Telling.{with_front, with_end, TakesPrefix};
ghost use Rattle.run_tests.specs.declared.outside.DrainFault.TheVariants.{NoMemory};

use be_outside::{
    Failed, Gate, MemorySink, MemorySource, OpenGate, ReaderSource, Sink, SinkFault, Source, Spot,
    WriterSink,
};
use std::alloc::{AllocError, Global};
use std::io;
use std::io::{ErrorKind, Read, Write};
use std::test::Fail;

#[derive(Clone, Copy, Debug, PartialEq, Eq)]
enum DrainFault {
    Read,
    NoMemory,
}

impl From<AllocError> for DrainFault {
    ghost from_gives = { λ _ fault. fault ≡ NoMemory };

    fn from(_: AllocError) -> Self {
        DrainFault::NoMemory
    }
}

// Reads to the end, or until there are `limit` bytes. Of a source it knows what the trait says.
fn drain<S: Source>(alloc: Global, source: &mut S, limit: usize) -> Result<Vec<u8>, DrainFault>
    ensures front { IfOk result (λ v. S.left source.old ≡ with_front v.items (S.left source.new)) }
    ensures whole { IfOk result
        (λ v. IfSome (S.left source.old) (λ all. vec_len v < limit → v.items ≡ all)) }
    ensures failed { IfErr result (λ fault. fault ≡ DrainFault.Read
        → FaultsRose (S.faults source.old) (S.faults source.new)) }
{
    let mut bytes = Vec::new(alloc);
    let mut buf = [0; 4];
    while bytes.len() < limit {
        match source.read(&mut buf) {
            Ok(0) => return Ok(bytes),
            Ok(count) => bytes.extend_from_slice(&buf[..count])?,
            Err(Failed) => return Err(DrainFault::Read),
        }
    }
    Ok(bytes)
}

// Puts one piece behind another. Of a sink it knows what the trait says.
fn put_each<K: Sink>(sink: &mut K, pieces: &[&[u8]]) -> Result<(), Failed>
    ensures appends { OnOk result (K.held sink.new
        ≡ with_end (K.held sink.old) (flat_map (λ piece. piece.now) pieces.now)) }
    ensures prefix { OnErr result (TakesPrefix (K.held sink.old) (K.held sink.new)
        (flat_map (λ piece. piece.now) pieces.now)) }
    ensures failed { OnErr result (FaultsRose (K.faults sink.old) (K.faults sink.new)) }
{
    for piece in pieces {
        sink.put(piece)?;
    }
    Ok(())
}

// Gives two bytes a call, and fails once, where it has given `cut` of them.
#[derive(Drop)]
struct Flaky<'a> {
    text: &'a [u8],
    at: usize,
    cut: Option<usize>,
}

impl Read for Flaky<'_> {
    fn read(&mut self, buf: &mut [u8]) -> io::Result<usize> {
        if self.cut == Some(self.at) {
            self.cut = None;
            return Err(io::Error::from(ErrorKind::BrokenPipe));
        }
        let mut left = &self.text[self.at.min(self.text.len())..];
        let most = buf.len().min(2);
        let count = left.read(&mut buf[..most])?;
        self.at = self.at.saturating_add(count);
        Ok(count)
    }
}

// Takes three bytes a call, fails once, where it holds `cut`, and takes none from `full` on.
#[derive(Drop)]
struct Choppy {
    held: Vec<u8>,
    cut: Option<usize>,
    full: usize,
}

impl Write for Choppy {
    fn write(&mut self, buf: &[u8]) -> io::Result<usize> {
        if self.cut == Some(self.held.len()) {
            self.cut = None;
            return Err(io::Error::from(ErrorKind::BrokenPipe));
        }
        let most = buf
            .len()
            .min(3)
            .min(self.full.saturating_sub(self.held.len()));
        self.held.extend_from_slice(&buf[..most])?;
        Ok(most)
    }

    fn flush(&mut self) -> io::Result<()> {
        Ok(())
    }
}

#[test]
fn a_source_in_memory_fails_where_it_is_told_to(rt: HostRuntime) -> Result<(), Fail> {
    let failing = [1u64].to_vec(rt.alloc())?;
    let mut source = MemorySource::new(b"abcdef".to_vec(rt.alloc())?, failing);
    let mut buf = *b"....";
    for (want, text) in [
        (Ok(4), b"abcd"),
        (Err(Failed), b"abcd"),
        (Ok(2), b"efcd"),
        (Ok(0), b"efcd"),
    ] {
        assert_eq!(rt; source.read(&mut buf), want);
        assert_eq!(rt; buf.as_slice(), text.as_slice(), "at {want:?}");
    }
    let mut source = MemorySource::new(b"abcdef".to_vec(rt.alloc())?, Vec::new(rt.alloc()));
    let all = drain(rt.alloc(), &mut source, 99)?;
    assert_eq!(rt; all.as_slice(), b"abcdef".as_slice());
    Ok(())
}

#[test]
fn a_cut_source_gives_pieces(rt: HostRuntime) -> Result<(), Fail> {
    let failing = [1u64].to_vec(rt.alloc())?;
    let sizes = [2usize, 9, 1].to_vec(rt.alloc())?;
    let mut source = MemorySource::cut(b"abcdef".to_vec(rt.alloc())?, failing, sizes);
    let mut buf = *b"....";
    for (want, text) in [
        (Ok(2), b"ab.."),
        (Err(Failed), b"ab.."),
        (Ok(1), b"cb.."),
        (Ok(3), b"def."),
        (Ok(0), b"def."),
    ] {
        assert_eq!(rt; source.read(&mut buf), want);
        assert_eq!(rt; buf.as_slice(), text.as_slice(), "at {want:?}");
    }
    Ok(())
}

#[test]
fn a_sink_in_memory_takes_what_fits(rt: HostRuntime) -> Result<(), Fail> {
    let failing = [1u64].to_vec(rt.alloc())?;
    let mut sink = MemorySink::new(rt.alloc(), 8, failing)?;
    for (pieces, want) in [
        ([b"abc".as_slice(), b"de".as_slice()], Err(Failed)),
        ([b"".as_slice(), b"efgh".as_slice()], Ok(())),
        ([b"".as_slice(), b"i".as_slice()], Err(Failed)),
    ] {
        assert_eq!(rt; put_each(&mut sink, &pieces), want, "at {pieces:?}");
    }
    assert_eq!(rt; sink.held(), b"abcdefgh".as_slice());
    Ok(())
}

#[test]
fn a_sink_without_memory_hands_its_list_back(rt: HostRuntime) -> Result<(), Fail> {
    let failing = [7u64].to_vec(rt.alloc())?;
    match MemorySink::new(rt.alloc(), usize::MAX, failing) {
        Ok(_) => return Err(Fail::from("there is no such room")),
        Err(SinkFault::NoMemory(back)) => assert_eq!(rt; back.as_slice(), [7u64].as_slice()),
    }
    Ok(())
}

#[test]
fn a_reader_is_read_to_its_end(rt: HostRuntime) -> Result<(), Fail> {
    let text = b"over the edge".as_slice();
    for (cut, first, second) in [
        (None, Ok(13), b"".as_slice()),
        (Some(4), Err(DrainFault::Read), b" the edge".as_slice()),
    ] {
        let mut source = ReaderSource::new(Flaky { text, at: 0, cut });
        let count = drain(rt.alloc(), &mut source, 99).map(|bytes| bytes.len());
        assert_eq!(rt; count, first);
        assert_eq!(rt;
            drain(rt.alloc(), &mut source, 99)?.as_slice(),
            second,
            "cut at {cut:?}"
        );
    }
    Ok(())
}

#[test]
fn a_writer_is_called_until_the_piece_is_out(rt: HostRuntime) -> Result<(), Fail> {
    let mut writer = Choppy {
        held: Vec::new(rt.alloc()),
        cut: Some(6),
        full: 8,
    };
    let mut sink = WriterSink::new(&mut writer);
    for (piece, want) in [
        (b"abcdefg".as_slice(), Err(Failed)),
        (b"gh".as_slice(), Ok(())),
        (b"".as_slice(), Ok(())),
        (b"i".as_slice(), Err(Failed)),
    ] {
        assert_eq!(rt; put_each(&mut sink, &[piece]), want, "at {piece:?}");
    }
    assert_eq!(rt; writer.held.as_slice(), b"abcdefgh".as_slice());
    Ok(())
}

fn ask<G: Gate + Sync>(gate: &G) {
    for spot in [Spot::Before, Spot::Inside, Spot::After] {
        gate.at(spot, 3);
    }
}

#[test]
fn an_open_gate_returns() {
    ask(&OpenGate);
}
