ghost use Rattle.std.specs.Prelude.{◌≡◌, ◌≤◌, ℕ, Some, IfSome, is_some, length, map};
ghost use Rattle.std.specs.List.{list_any};
ghost use Rattle.std.specs.Str.{bytes_eq};
ghost use Rattle.be_command.specs.Names.{number_in};
ghost use Rattle.be_said.specs.Names.{handler_names};
ghost use Rattle.be_said.specs.SoFar.{app_names, bitmap_names, has_message, known_in, nothing_said};
ghost use Rattle.be_said.specs.SoFar.{plain_names, row_width, site_of, view_names, window_names};
ghost use Rattle.be_said.specs.SoFar.{window_of};

mod bitmaps;
mod chains;
mod doing;
mod ending;
mod events;
mod everywhere;
mod names;
mod opening;
mod programs;
mod steps;
mod windows;

use crate::begun::Begun;
use crate::inside::Inside;
use be_command::Names;
use be_line::Site;
use be_message::Text;
use be_script::{
    AppLine, BitmapLine, BodyLine, DrawLine, FilterLine, HandlerLine, InputLine, ViewLine,
    WindowLine,
};
use std::alloc::Global;
use std::marker::Model;

/// What the lines of a script said so far.
#[derive(Drop)]
pub struct SoFar {
    screen: Option<(u16, u16)>,
    bitmaps: Vec<BitmapLine>,
    windows: Vec<WindowLine>,
    views: Vec<ViewLine>,
    handlers: Vec<HandlerLine>,
    filters: Vec<FilterLine>,
    bodies: Vec<BodyLine>,
    draws: Vec<DrawLine>,
    apps: Vec<AppLine>,
    input: Vec<InputLine>,
    begun: Begun,
    /// What was said of each window.
    inside: Vec<Inside>,
}

impl Model for SoFar {
    ghost use Rattle.std.specs.Coded.{codes};
    ghost use Rattle.be_actor.specs.Drafts.{draft_code};
    ghost use Rattle.be_said.specs.SoFar as sofar;

    ghost Value = { sofar.SoFar };

    ghost coded = { Prim.hlevel (codes, draft_code) };

    ghost use Rattle.be_said.specs.Inside.{AreInside};
    ghost use Rattle.be_said.specs.Said.{seen_said};

    ghost view = { seen_said };

    ghost invariant = { λ s. AreInside (seen_said s) s.inside.items };
}

impl SoFar {
    /// Nothing was said yet.
    pub fn new(alloc: Global) -> SoFar
        ensures { result ≡ nothing_said }
    {
        SoFar {
            screen: None,
            bitmaps: Vec::new(alloc),
            windows: Vec::new(alloc),
            views: Vec::new(alloc),
            handlers: Vec::new(alloc),
            filters: Vec::new(alloc),
            bodies: Vec::new(alloc),
            draws: Vec::new(alloc),
            apps: Vec::new(alloc),
            input: Vec::new(alloc),
            begun: Begun::Nothing,
            inside: Vec::new(alloc),
        }
    }

    /// How wide and high the screen is.
    pub fn screen(&self) -> Option<(u16, u16)>
        ensures screen { result ≡ self.now.screen }
        ensures small { (size : ℕ × ℕ) → result ≡ Some size → (size.0 ≤ 1024) × (size.1 ≤ 768) }
    {
        self.screen
    }

    /// Where the next line stands.
    pub fn site(&self) -> Site
        ensures { result ≡ site_of self.now }
    {
        if self.screen.is_none() {
            return Site::AtStart;
        }
        match &self.begun {
            Begun::Nothing => Site::Outside,
            Begun::Bitmap { .. } => Site::AmongRows,
            Begun::HandlerBody { .. } => Site::InHandler,
            Begun::DrawBody { .. } => Site::InDraw,
            Begun::Program { lock: None, .. } => Site::InProgram,
            Begun::Program { lock: Some(_), .. } => Site::UnderLock,
        }
    }

    /// How many pixels the next row of a bitmap has.
    pub fn row_width(&self) -> u16
        ensures { result ≡ row_width self.now.begun }
    {
        self.begun.row_width()
    }

    /// Whether there is a current message.
    pub fn has_message(&self) -> bool
        ensures { result ≡ has_message self.now.begun }
    {
        self.begun.has_message()
    }

    /// The names that a command here may use; none where no window is for it.
    pub fn names(&self) -> Option<&Names>
        ensures there { is_some result ≡ is_some (window_of self.now.begun) }
        ensures names { IfSome result
            (λ names. names.now ≡ known_in self.now (window_of self.now.begun)) }
    {
        let window = self.begun.window()?;
        Some(&self.inside[usize::from(window)].names)
    }
}

/// Names that were said.
impl SoFar {
    /// The number of the window with this name. None where none was declared. Like the calls below,
    /// it looks at each name of its kind at most once.
    pub fn window_named(&self, word: &[u8]) -> Option<u16>
        ensures { result ≡ number_in (window_names self.now) word.now }
    {
        number_of_window(&self.windows, word)
    }

    /// The number of the application with this name. None where none was declared.
    pub fn app_named(&self, word: &[u8]) -> Option<u16>
        ensures { result ≡ number_in (app_names self.now) word.now }
    {
        number_of_app(&self.apps, word)
    }

    /// A view of the window. A window that isn't there has the root alone.
    pub fn view_named(&self, window: Option<u16>, word: &[u8]) -> Option<u16>
        ensures { result ≡ number_in (view_names self.now window) word.now }
    {
        match self.inside.get(usize::from(window?)) {
            Some(inside) => inside.names.view(word),
            None if word == b"root".as_slice() => Some(0),
            None => None,
        }
    }

    /// A plain handler of the window.
    pub fn plain_named(&self, window: Option<u16>, word: &[u8]) -> Option<u16>
        ensures { result ≡ number_in (plain_names self.now window) word.now }
    {
        let inside = self.inside.get(usize::from(window?))?;
        number_of_name(&inside.plain, word)
    }

    /// Whether a bitmap with this name was declared.
    pub fn has_bitmap(&self, word: &[u8]) -> bool
        ensures { result ≡ list_any (λ other. bytes_eq other word.now) (bitmap_names self.now) }
    {
        has_bitmap(&self.bitmaps, word)
    }

    /// Whether a window with this name was declared.
    pub fn has_window(&self, word: &[u8]) -> bool
        ensures { result ≡ list_any (λ other. bytes_eq other word.now) (window_names self.now) }
    {
        self.window_named(word).is_some()
    }

    /// Whether the window has a view or a plain handler of that name.
    pub fn has_handler(&self, window: Option<u16>, word: &[u8]) -> bool
        ensures { result
            ≡ list_any (λ other. bytes_eq other word.now) (handler_names self.now window) }
    {
        self.view_named(window, word).is_some() || self.plain_named(window, word).is_some()
    }

    /// Whether an application with this name was declared.
    pub fn has_app(&self, word: &[u8]) -> bool
        ensures { result ≡ list_any (λ other. bytes_eq other word.now) (app_names self.now) }
    {
        self.app_named(word).is_some()
    }
}

fn number_of_window(lines: &[WindowLine], word: &[u8]) -> Option<u16>
    requires { length lines.now ≤ 32 }
    ensures { result ≡ number_in (map (λ line. line.name) lines.now) word.now }
{
    for (place, line) in lines.iter().enumerate() {
        if line.name.as_slice() == word {
            return Some(place as u16);
        }
    }
    None
}

fn number_of_app(lines: &[AppLine], word: &[u8]) -> Option<u16>
    requires { length lines.now ≤ 16 }
    ensures { result ≡ number_in (map (λ line. line.name) lines.now) word.now }
{
    for (place, line) in lines.iter().enumerate() {
        if line.name.as_slice() == word {
            return Some(place as u16);
        }
    }
    None
}

fn number_of_name(names: &[Text], word: &[u8]) -> Option<u16>
    requires { length names.now ≤ 16 }
    ensures { result ≡ number_in names.now word.now }
{
    for (place, name) in names.iter().enumerate() {
        if name.as_slice() == word {
            return Some(place as u16);
        }
    }
    None
}

fn has_bitmap(lines: &[BitmapLine], word: &[u8]) -> bool
    ensures { result
        ≡ list_any (λ other. bytes_eq other word.now) (map (λ line. line.name) lines.now) }
{
    for line in lines {
        if line.name.as_slice() == word {
            return true;
        }
    }
    false
}
