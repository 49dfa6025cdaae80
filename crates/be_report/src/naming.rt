ghost use Rattle.std.specs.Prelude.{◌≡◌, ◌≤◌, ◌++◌, length, map, flat_map};
ghost use Rattle.std.specs.Str.{bytes_eq};
ghost use Rattle.be_command.specs.Names.{number_in};
ghost use Rattle.be_written.specs.Names.{app_actor, window_actors, actor_names};
ghost use Rattle.be_written.specs.Runners.{AreFew};
ghost use Rattle.be_script.specs.Script.{declared_by};

// The numbers of names.

use be_script::{AppLine, Script, WindowLine};

/// The window with this name.
pub(crate) fn window_named(lines: &[WindowLine], word: &[u8]) -> Option<u16>
    requires { length lines.now ≤ 32 }
    ensures { result ≡ number_in (map (λ line. line.name) lines.now) word.now }
{
    for (place, line) in lines.iter().enumerate() {
        if line.name.as_slice() == word {
            return Some(place as u16);
        }
    }
    None
}

/// The activity with this name.
#[tactic(auto, unfolding(be_written::specs::Names::actor_names))]
pub(crate) fn actor_named(script: &Script, word: &[u8]) -> Option<u32>
    requires { AreFew (declared_by script.now) }
    ensures { result ≡ number_in (actor_names (declared_by script.now)) word.now }
{
    if let Some(app) = app_acting(&script.apps, word) {
        return Some(app);
    }
    let apps = script.apps.len() as u32;
    if let Some(place) = window_acting(&script.windows, word) {
        return Some(apps + place);
    }
    let behind = apps + 2 * script.windows.len() as u32;
    if b"input".as_slice() == word {
        Some(behind)
    } else if b"stop".as_slice() == word {
        Some(behind + 1)
    } else {
        None
    }
}

/// The application whose activity has this name.
fn app_acting(lines: &[AppLine], word: &[u8]) -> Option<u32>
    requires { length lines.now ≤ 16 }
    ensures { result ≡ number_in (map (λ line. app_actor line.name) lines.now) word.now }
{
    for (place, line) in lines.iter().enumerate() {
        if is_joined(word, b"app:", line.name.as_slice()) {
            return Some(place as u32);
        }
    }
    None
}

/// The place of the activity with this name among those of the windows, each of which has two.
fn window_acting(lines: &[WindowLine], word: &[u8]) -> Option<u32>
    requires { length lines.now ≤ 32 }
    ensures { result ≡ number_in (flat_map window_actors lines.now) word.now }
{
    for (place, line) in lines.iter().enumerate() {
        if is_joined(word, b"loop:", line.name.as_slice()) {
            return Some(2 * place as u32);
        }
        if is_joined(word, b"twin:", line.name.as_slice()) {
            return Some(2 * place as u32 + 1);
        }
    }
    None
}

/// Whether the word is these two texts, one behind the other.
fn is_joined(word: &[u8], front: &[u8], back: &[u8]) -> bool
    ensures { result ≡ bytes_eq (front.now ++ back.now) word.now }
{
    if word.len() < front.len() {
        return false;
    }
    let (first, second) = word.split_at(front.len());
    front == first && back == second
}
