ghost use Rattle.std.specs.Prelude.{◌≡◌, All, true};
ghost use Rattle.be_command.specs.Effects.{effect_of};
ghost use Rattle.be_pane.specs.StandsFor.{IsWhole};
ghost use Rattle.be_twin.specs.Judged.{HasPen, IsNoChange};

use crate::whole::is_whole;
use crate::window::{SIDE, window};
use be_color::Rgb;
use be_command::{Command, Names};
use be_pane::Pane;
use be_picture::{OffScreen, Picture, PictureFault, read_picture};
use be_twin::execute;
use std::alloc::Global;

/// Where a picture is played.
#[derive(Clone, Copy, Debug, PartialEq, Eq)]
pub enum Place {
    /// On a bitmap off the screen.
    Off,
    /// On a window.
    Window,
    /// It is only read, and its commands are copied, as those are that a window executes.
    Copied,
    /// It is only read.
    Nowhere,
}

/// Reads and plays a picture in each of the rounds, and gives how many pixels aren't white.
pub fn pixels_drawn(
    alloc: Global,
    bytes: &[u8],
    place: Place,
    rounds: u32,
) -> Result<usize, PictureFault> {
    match place {
        Place::Off => on_bitmap(alloc, bytes, rounds),
        Place::Window => on_window(alloc, bytes, rounds),
        Place::Copied => copied(alloc, bytes, rounds),
        Place::Nowhere => nowhere(alloc, bytes, rounds),
    }
}

fn nowhere(alloc: Global, bytes: &[u8], rounds: u32) -> Result<usize, PictureFault> {
    let names = Names::new(alloc);
    for _round in 0..rounds {
        let _picture = read_picture(alloc, bytes, &names)?;
    }
    Ok(0)
}

fn copied(alloc: Global, bytes: &[u8], rounds: u32) -> Result<usize, PictureFault> {
    let names = Names::new(alloc);
    for _round in 0..rounds {
        let picture = read_picture(alloc, bytes, &names)?;
        for command in picture.commands() {
            let _copy = command.copy(alloc).map_err(|_| PictureFault::NoMemory)?;
        }
    }
    Ok(0)
}

fn on_bitmap(alloc: Global, bytes: &[u8], rounds: u32) -> Result<usize, PictureFault> {
    let names = Names::new(alloc);
    let mut off = OffScreen::new(alloc, SIDE, SIDE).map_err(|_| PictureFault::NoMemory)?;
    for _round in 0..rounds {
        off.play(read_picture(alloc, bytes, &names)?, &[]);
    }
    Ok(pixels_on_bitmap(&off))
}

fn pixels_on_bitmap(off: &OffScreen) -> usize {
    let mut count = 0usize;
    for y in 0..i32::from(SIDE) {
        let row = (0..i32::from(SIDE)).filter(|x| off.pixel(*x, y) != Some(Rgb::WHITE));
        count = count.saturating_add(row.count());
    }
    count
}

fn on_window(alloc: Global, bytes: &[u8], rounds: u32) -> Result<usize, PictureFault> {
    let names = Names::new(alloc);
    let mut pane = window(alloc).map_err(|_| PictureFault::NoMemory)?;
    for _round in 0..rounds {
        let picture = read_picture(alloc, bytes, &names)?;
        // That it always is isn't proved here.
        if !is_whole(&pane) {
            return Err(PictureFault::NoMemory);
        }
        execute_all(alloc, &mut pane, &picture)?;
    }
    Ok(pixels_on_window(&pane))
}

/// Executes the commands of a picture.
fn execute_all(alloc: Global, pane: &mut Pane, picture: &Picture) -> Result<(), PictureFault>
    requires whole { IsWhole pane.old }
    requires pens { All (λ c. HasPen (effect_of c)) picture.now }
    ensures { IsWhole pane.new }
{
    let commands = picture.commands();
    for command in commands {
        let command = command.copy(alloc).map_err(|_| PictureFault::NoMemory)?;
        if draws(&command) {
            let _outcome = execute(pane, command, &[]);
        }
    }
    Ok(())
}

/// Whether a command leaves its window where it is, as each command of a picture does.
fn draws(command: &Command) -> bool
    ensures { result ≡ true → IsNoChange (effect_of command.now) }
{
    match command {
        Command::Change(_) => false,
        Command::Fill(..)
        | Command::Frame(..)
        | Command::Line(..)
        | Command::Text(..)
        | Command::Bitmap(..)
        | Command::High(..)
        | Command::Low(..)
        | Command::ViewColor(..)
        | Command::Mode(..)
        | Command::PenSize(..)
        | Command::Pen(..)
        | Command::Origin(..)
        | Command::Clip(..)
        | Command::Push(..)
        | Command::Pop(..)
        | Command::CopyBits(..)
        | Command::Invalidate(..)
        | Command::EndUpdate => true,
    }
}

fn pixels_on_window(pane: &Pane) -> usize {
    let mut count = 0usize;
    for y in 0..i32::from(SIDE) {
        let row = pane.spans.row_from(0, y);
        count = count.saturating_add(row.iter().filter(|cell| cell.rgb != Rgb::WHITE).count());
    }
    count
}
