ghost use Rattle.std.specs.Prelude.{◌≡◌, ◌<◌, ◌≤◌, ◌-◌, ◌^◌, IfOk};
ghost use Rattle.be_parts.specs.Ports.{HasClosed, HasNotice, HasPosted, HasTaken, IsAnswered};
ghost use Rattle.be_parts.specs.Ports.{IsEmptyPort, IsFront, letters_of};
ghost use Rattle.be_parts.specs.Stands.{PortIs};

use crate::meaning::Meaning;
use be_geom::NoMemory;
use be_port::{Letter, Port, PostFault, queues_are_ports};
use be_told::Told;
use std::alloc::Global;
use std::marker::Model;

/// The letters of a window. It means all letters that ever arrived.
#[derive(Drop)]
pub struct PortPart {
    port: Port,
    told: Told<Meaning>,
}

impl Model for PortPart {
    ghost use Rattle.std.specs.Coded.{codes};
    ghost use Rattle.be_message.specs.Codes.{message_code};
    ghost use Rattle.be_reply.specs.Codes.{cell_code};
    ghost use Rattle.be_parts.specs.Stands.{PortIs};
    ghost use Rattle.be_rules.specs.Slices.{Slice};

    ghost Value = { Slice };

    ghost coded = { Prim.hlevel (codes, message_code, cell_code) };

    ghost view = { λ p. p.told.value };

    ghost invariant = { λ p. PortIs p.told.value p.port };
}

impl PortPart {
    /// The empty port of a window.
    pub fn new(alloc: Global, capacity: u8, means: Told<Meaning>) -> Result<PortPart, NoMemory>
        requires some { 1 ≤ capacity }
        requires within { capacity ≤ 100 }
        requires means { IsEmptyPort capacity means.value }
        ensures { IfOk result (λ part. part ≡ means.value) }
    {
        queues_are_ports();
        Ok(PortPart {
            port: Port::new(alloc, capacity)?,
            told: means,
        })
    }

    /// The letters that weren't taken.
    pub fn port(&self) -> &Port
        ensures { PortIs self.now result.now }
    {
        &self.port
    }

    /// Takes a letter, or gives it back: `write_port`.
    pub fn post(&mut self, letter: Letter, next: Told<Meaning>) -> Result<u64, PostFault>
        requires last { letters_of self.old < 2 ^ 64 - 1 }
        requires next { HasPosted letter self.old next.value }
        ensures slice { self.new ≡ next.value }
        ensures answer { IsAnswered letter.hop self.old result }
    {
        queues_are_ports();
        let result = self.port.post(letter);
        self.told = next;
        result
    }

    /// Takes the notice of an update.
    pub fn notice(&mut self, letter: Letter, next: Told<Meaning>)
        requires last { letters_of self.old < 2 ^ 64 - 1 }
        requires next { HasNotice letter self.old next.value }
        ensures slice { self.new ≡ next.value }
    {
        queues_are_ports();
        let _refused = self.port.notice(letter);
        self.told = next;
    }

    /// Gives the letter in front out: `read_port`.
    pub fn take(&mut self, next: Told<Meaning>) -> Letter
        requires { HasTaken self.old next.value }
        ensures slice { self.new ≡ next.value }
        ensures letter { IsFront result self.old }
    {
        queues_are_ports();
        let letter = self.port.take().unwrap();
        self.told = next;
        letter
    }

    /// Accepts no letter any more: `close_port`.
    pub fn close(&mut self, next: Told<Meaning>)
        requires { HasClosed self.old next.value }
        ensures slice { self.new ≡ next.value }
    {
        queues_are_ports();
        self.port.close();
        self.told = next;
    }
}
