use be_color::{Color, Mode, Pattern, Rgb};
use be_lex::{
    Lines, Number, Words, cut_at, is_field_name, is_name, is_passed_over, is_printable,
    is_reserved_code, is_reserved_name, read_code, read_color, read_mode, read_pattern, read_pixel,
    write_code, write_color, write_mode, write_natural, write_number, write_pattern, write_rgb,
};
use std::process::Abort;
use std::test::Fail;

const BLACK: Option<Color> = Some(Color::Solid(Rgb::BLACK));

const BLUE: Option<Color> = Some(Color::Solid(Rgb {
    red: 9,
    green: 0xaf,
    blue: 0xf0,
}));

const GREY: Option<Color> = Some(Color::Solid(Rgb {
    red: 0x77,
    green: 0x74,
    blue: 0x77,
}));

/// Asserts that the words of a text are these, and what is left behind each.
fn assert_words(rt: &impl Abort, text: &[u8], want: &[(&[u8], &[u8])]) {
    let mut words = Words::of(text);
    for (word, rest) in want {
        same!(rt; (words.next(), words.rest()), (Some(*word), *rest), text);
    }
    same!(rt; words.next(), None, text);
}

const PASSED_OVER: [(&[u8], bool); 7] = [
    (b"", true),
    (b"  ", true),
    (b"#", true),
    (b"  # fill", true),
    (b"#fill", true),
    (b"fill #", false),
    (b"x", false),
];

#[test]
fn a_line_is_cut_into_words(rt: HostRuntime) {
    assert_words(&rt, b"", &[]);
    assert_words(&rt, b"   ", &[]);
    assert_words(&rt, b"push root", &[(b"push", b" root"), (b"root", b"")]);
    assert_words(
        &rt,
        b"  pop  root ",
        &[(b"pop", b"  root "), (b"root", b" ")],
    );
    assert_words(
        &rt,
        b"text v  a b ",
        &[
            (b"text", b" v  a b "),
            (b"v", b"  a b "),
            (b"a", b" b "),
            (b"b", b" "),
        ],
    );
    for (text, want) in &PASSED_OVER {
        same!(rt; is_passed_over(text), *want, *text);
    }
}

const CUT_AT_EQUALS: [(&[u8], Option<(&[u8], &[u8])>); 5] = [
    (b"port=5", Some((b"port", b"5"))),
    (b"n=s:a=b", Some((b"n", b"s:a=b"))),
    (b"=", Some((b"", b""))),
    (b"firstclick", None),
    (b"", None),
];

#[test]
fn a_word_is_cut_at_its_first_equals_sign(rt: HostRuntime) {
    for (word, want) in &CUT_AT_EQUALS {
        same!(rt; cut_at(word, b'='), *want, *word);
    }
}

/// Asserts that the lines of a text are these: each its length, whether it is ended, and its text.
fn assert_lines(rt: &impl Abort, text: &[u8], want: &[(usize, bool, &[u8])]) {
    let mut lines = Lines::of(text);
    for (length, is_ended, text) in want {
        let line = lines.next().expect(rt, "a line");
        let found = (line.len(), line.is_ended(), line.text());
        same!(rt; found, (*length, *is_ended, *text));
    }
    assert!(rt; lines.next().is_none());
    same!(rt; lines.rest(), b"".as_slice());
}

const PRINTABLE: [(&[u8], bool); 6] = [
    (b"", true),
    (b" ~", true),
    (b"\t", false),
    (b"a\r", false),
    (b"\x7f", false),
    (b"\xff", false),
];

#[test]
fn a_text_is_cut_into_lines(rt: HostRuntime) {
    assert_lines(&rt, b"", &[]);
    assert_lines(&rt, b"\n", &[(0, true, b"")]);
    assert_lines(&rt, b"a\nb", &[(1, true, b"a"), (1, false, b"b")]);
    assert_lines(&rt, b"a\r\n\r\n", &[(2, true, b"a"), (1, true, b"")]);
    assert_lines(&rt, b"a\r\r\nb\r", &[(3, true, b"a\r"), (2, false, b"b\r")]);
    for (text, want) in &PRINTABLE {
        same!(rt; is_printable(text), *want, *text);
    }
}

const NO_NUMBERS: [&[u8]; 11] = [
    b"", b"-", b"-0", b"+1", b"00", b"01", b"-01", b"--1", b"1 ", b"1a", b"0x1",
];

#[test]
fn a_number_has_its_form(rt: HostRuntime) {
    for word in &NO_NUMBERS {
        same!(rt; Number::of(word).is_none(), true, *word);
    }
}

const NUMBERS: [(&[u8], Option<i16>, Option<u64>); 11] = [
    (b"0", Some(0), Some(0)),
    (b"9", Some(9), Some(9)),
    (b"-1", Some(-1), None),
    (b"32767", Some(32767), Some(32767)),
    (b"32768", None, Some(32768)),
    (b"-32768", Some(-32768), None),
    (b"-32769", None, None),
    (b"18446744073709551615", None, Some(u64::MAX)),
    (b"18446744073709551616", None, None),
    (b"99999999999999999999999999999999999999999", None, None),
    (b"-99999999999999999999999999999999999999999", None, None),
];

#[test]
fn a_number_has_its_range(rt: HostRuntime) {
    for (word, coordinate, natural) in &NUMBERS {
        let number = Number::of(word).expect(&rt, "a number");
        let found = (number.coordinate(), number.up_to(u64::MAX));
        same!(rt; found, (*coordinate, *natural), *word);
    }
}

#[test]
fn a_number_is_between_two(rt: HostRuntime) {
    let size = Number::of(b"33").expect(&rt, "a number");
    same!(rt; size.between(1, 33), Some(33));
    same!(rt; size.between(1, 32), None);
    same!(rt; size.between(34, 100), None);
    same!(rt; size.up_to(33), Some(33));
    same!(rt; size.up_to(32), None);
}

const NAMES: [(&[u8], bool, bool); 12] = [
    (b"a", true, true),
    (b"window_2", true, true),
    (b"abcdefghijklmnop", true, true),
    (b"abcdefghijklmnopq", false, true),
    (b"abcdefghijklmnopqrstuvwxyz012345", false, true),
    (b"abcdefghijklmnopqrstuvwxyz0123456", false, false),
    (b"", false, false),
    (b"2a", false, false),
    (b"_a", false, false),
    (b"A", false, false),
    (b"aB", false, false),
    (b"a-b", false, false),
];

const RESERVED: [(&[u8], bool); 7] = [
    (b"window", true),
    (b"root", true),
    (b"common", true),
    (b"none", true),
    (b"windows", false),
    (b"roo", false),
    (b"", false),
];

#[test]
fn a_name_is_a_letter_and_at_most_so_many_others(rt: HostRuntime) {
    for (word, is_short, is_long) in &NAMES {
        let found = (is_name(word), is_field_name(word));
        same!(rt; found, (*is_short, *is_long), *word);
    }
    for (word, want) in &RESERVED {
        same!(rt; is_reserved_name(word), *want, *word);
    }
}

const COLORS: [(&[u8], Option<Color>, Option<Color>); 11] = [
    (b"000000", BLACK, BLACK),
    (b"09aff0", BLUE, BLUE),
    (b"777477", GREY, GREY),
    (b"clear", Some(Color::Clear), None),
    (b"------", None, Some(Color::Clear)),
    (b"09AFF0", None, None),
    (b"09aff", None, None),
    (b"09aff01", None, None),
    (b"09aff00f", None, None),
    (b"09afg0", None, None),
    (b"", None, None),
];

#[test]
fn a_color_is_six_digits_or_none(rt: HostRuntime) {
    for (word, color, pixel) in &COLORS {
        let found = (read_color(word), read_pixel(word));
        same!(rt; found, (*color, *pixel), *word);
    }
}

const CORNERS: Pattern = Pattern {
    rows: [0x80, 0, 0, 0, 0, 0, 0, 0x01],
};

const PATTERNS: [(&[u8], Option<Pattern>); 12] = [
    (b"high", Some(Pattern::HIGH)),
    (b"low", Some(Pattern::LOW)),
    (b"mixed", Some(Pattern::MIXED)),
    (b"ffffffffffffffff", Some(Pattern::HIGH)),
    (b"0000000000000000", Some(Pattern::LOW)),
    (b"aa55aa55aa55aa55", Some(Pattern::MIXED)),
    (b"8000000000000001", Some(CORNERS)),
    (b"FFFFFFFFFFFFFFFF", None),
    (b"fffffffffffffff", None),
    (b"fffffffffffffffff", None),
    (b"High", None),
    (b"", None),
];

#[test]
fn a_pattern_is_a_name_or_sixteen_digits(rt: HostRuntime) {
    for (word, want) in &PATTERNS {
        same!(rt; read_pattern(word), *want, *word);
    }
}

const MODES: [(&[u8], Option<Mode>); 13] = [
    (b"copy", Some(Mode::Copy)),
    (b"over", Some(Mode::Over)),
    (b"erase", Some(Mode::Erase)),
    (b"invert", Some(Mode::Invert)),
    (b"add", Some(Mode::Add)),
    (b"subtract", Some(Mode::Subtract)),
    (b"blend", Some(Mode::Blend)),
    (b"min", Some(Mode::Min)),
    (b"max", Some(Mode::Max)),
    (b"select", Some(Mode::Select)),
    (b"Copy", None),
    (b"copy ", None),
    (b"", None),
];

#[test]
fn a_mode_has_its_word(rt: HostRuntime) {
    for (word, want) in &MODES {
        same!(rt; read_mode(word), *want, *word);
    }
}

const CODES: [(&[u8], Option<u32>); 8] = [
    (b"PING", Some(0x5049_4e47)),
    (b"MUP_", Some(0x4d55_505f)),
    (b"a0Z_", Some(0x6130_5a5f)),
    (b"PIN", None),
    (b"PINGS", None),
    (b"PI-G", None),
    (b"*", None),
    (b"", None),
];

#[test]
fn a_code_is_four_letters(rt: HostRuntime) {
    for (word, want) in &CODES {
        same!(rt; read_code(word), *want, *word);
    }
    for (word, want) in [
        (b"UPDT", true),
        (b"NORE", true),
        (b"NOTU", true),
        (b"MDWN", false),
        (b"PING", false),
    ] {
        let code = u32::from_be_bytes(*word);
        same!(rt; is_reserved_code(code), want, word);
    }
}

#[test]
fn each_number_is_written(rt: HostRuntime) -> Result<(), Fail> {
    let mut out = Vec::new(rt.alloc());
    for number in [0, -1, 32767, -32768, i64::MIN] {
        write_number(&mut out, number)?;
        out.push(b' ')?;
    }
    write_natural(&mut out, u64::MAX)?;
    let due = b"0 -1 32767 -32768 -9223372036854775808 18446744073709551615";
    same!(rt; out.as_slice(), due.as_slice());
    Ok(())
}

#[test]
fn each_color_is_written(rt: HostRuntime) -> Result<(), Fail> {
    let mut out = Vec::new(rt.alloc());
    write_color(&mut out, Color::Clear)?;
    write_color(&mut out, Color::Solid(Rgb::DESKTOP))?;
    write_rgb(&mut out, Rgb::BLACK)?;
    write_code(&mut out, 0x4d55_505f)?;
    same!(rt; out.as_slice(), b"clear336698000000MUP_".as_slice());
    Ok(())
}

const STRIPES: Pattern = Pattern {
    rows: [0x55, 0xaa, 0x55, 0xaa, 0x55, 0xaa, 0x55, 0xaa],
};

const WRITTEN_PATTERNS: [(Pattern, &[u8]); 4] = [
    (Pattern::HIGH, b"high"),
    (Pattern::LOW, b"low"),
    (Pattern::MIXED, b"mixed"),
    (STRIPES, b"55aa55aa55aa55aa"),
];

#[test]
fn each_pattern_is_written(rt: HostRuntime) -> Result<(), Fail> {
    for (pattern, want) in &WRITTEN_PATTERNS {
        let mut out = Vec::new(rt.alloc());
        write_pattern(&mut out, *pattern)?;
        same!(rt; out.as_slice(), *want);
    }
    Ok(())
}

const WRITTEN_MODES: [(Mode, &[u8]); 2] = [(Mode::Copy, b"copy"), (Mode::Select, b"select")];

#[test]
fn each_mode_is_written(rt: HostRuntime) -> Result<(), Fail> {
    for (mode, want) in &WRITTEN_MODES {
        let mut out = Vec::new(rt.alloc());
        write_mode(&mut out, *mode)?;
        same!(rt; out.as_slice(), *want);
    }
    Ok(())
}
