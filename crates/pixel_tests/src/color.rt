use be_color::{Color, Mode, Pattern, Rgb, blend, pick};

const HIGH: Rgb = Rgb {
    red: 1,
    green: 2,
    blue: 3,
};

const LOW: Rgb = Rgb {
    red: 4,
    green: 5,
    blue: 6,
};

fn rgb(red: u8, green: u8, blue: u8) -> Rgb {
    Rgb { red, green, blue }
}

/// What `src` makes of `dst` in a view whose colours are `HIGH` and `LOW`.
fn painted(mode: Mode, src: Color, dst: Rgb) -> Rgb {
    blend(mode, src, dst, Color::Solid(HIGH), Color::Solid(LOW))
}

#[test]
fn each_mode_paints_its_color(rt: HostRuntime) {
    let src = Color::Solid(rgb(100, 20, 254));
    let dst = rgb(200, 10, 255);
    for (mode, want) in [
        (Mode::Copy, rgb(100, 20, 254)),
        (Mode::Over, rgb(100, 20, 254)),
        (Mode::Erase, LOW),
        (Mode::Invert, rgb(55, 245, 0)),
        (Mode::Add, rgb(255, 30, 255)),
        (Mode::Subtract, rgb(100, 0, 1)),
        (Mode::Blend, rgb(150, 15, 254)),
        (Mode::Min, rgb(100, 10, 254)),
        (Mode::Max, rgb(200, 20, 255)),
        (Mode::Select, dst),
    ] {
        assert_eq!(rt; painted(mode, src, dst), want, "in {mode:?}");
        assert_eq!(rt; painted(mode, Color::Clear, dst), dst, "clear in {mode:?}");
    }
}

#[test]
fn invert_twice_gives_the_old_color(rt: HostRuntime) {
    let src = Color::Solid(LOW);
    let inverted = painted(Mode::Invert, src, Rgb::DESKTOP);
    assert_eq!(rt; inverted, rgb(0xcc, 0x99, 0x67));
    assert_eq!(rt; painted(Mode::Invert, src, inverted), Rgb::DESKTOP);
    // A computed 777477 is an ordinary colour, and is painted.
    assert_eq!(rt;
        painted(Mode::Invert, src, rgb(0x88, 0x8b, 0x88)),
        rgb(0x77, 0x74, 0x77)
    );
}

#[test]
fn erase_and_select_take_whole_colors(rt: HostRuntime) {
    let src = Color::Solid(Rgb::BLACK);
    let high = Color::Solid(HIGH);
    let low = Color::Solid(LOW);
    let looks_clear = rgb(0x77, 0x74, 0x77);
    for (mode, dst, high, low, want) in [
        (Mode::Erase, HIGH, high, Color::Clear, HIGH),
        (Mode::Select, HIGH, high, low, LOW),
        (Mode::Select, LOW, high, low, HIGH),
        (Mode::Select, rgb(1, 2, 6), high, low, rgb(1, 2, 6)),
        (Mode::Select, HIGH, high, Color::Clear, HIGH),
        (Mode::Select, LOW, Color::Clear, low, LOW),
        (Mode::Select, looks_clear, Color::Clear, low, looks_clear),
    ] {
        assert_eq!(rt;
            blend(mode, src, dst, high, low),
            want,
            "{mode:?} on {dst:?}"
        );
    }
}

#[test]
fn a_bit_picks_a_color(rt: HostRuntime) {
    let high = Color::Solid(HIGH);
    let low = Color::Solid(LOW);
    for (mode, bit, want) in [
        (Mode::Copy, true, high),
        (Mode::Copy, false, low),
        (Mode::Over, false, Color::Clear),
        (Mode::Erase, true, high),
        (Mode::Erase, false, Color::Clear),
        (Mode::Max, false, Color::Clear),
        (Mode::Select, true, high),
    ] {
        assert_eq!(rt; pick(mode, bit, high, low), want, "{bit} in {mode:?}");
    }
    assert_eq!(rt; high.rgba(), (1, 2, 3, 255));
    assert_eq!(rt; Color::Clear.rgba(), (0x77, 0x74, 0x77, 0));
}

#[test]
fn a_pattern_repeats_each_way(rt: HostRuntime) {
    let corners = Pattern {
        rows: [0x80, 0, 0, 0, 0, 0, 0, 0x01],
    };
    for (pattern, x, y, want) in [
        (Pattern::MIXED, 0, 0, true),
        (Pattern::MIXED, 1, 0, false),
        (Pattern::MIXED, 0, 1, false),
        (Pattern::MIXED, -1, 0, false),
        (Pattern::MIXED, -1, -1, true),
        (Pattern::HIGH, 3, -5, true),
        (Pattern::LOW, 3, -5, false),
        (corners, 8, 16, true),
        (corners, 7, 0, false),
        (corners, 0, 7, false),
        (corners, -1, -1, true),
        (corners, -8, -8, true),
        (corners, -1, 0, false),
        (corners, i32::MIN, i32::MIN, true),
        (corners, i32::MAX, i32::MAX, true),
    ] {
        assert_eq!(rt; pattern.bit(x, y), want, "{pattern:?} at {x}, {y}");
    }
    for (pattern, want) in [
        (Pattern::HIGH, Some(true)),
        (Pattern::LOW, Some(false)),
        (Pattern::MIXED, None),
        (corners, None),
    ] {
        assert_eq!(rt; pattern.solid_bit(), want, "{pattern:?}");
    }
}
