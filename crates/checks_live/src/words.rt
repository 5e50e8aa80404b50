//! Command lines, by the rules of their words.
use mt_tokens::{Text, TextList};
use mt_words::{CommandSet, Words, WordsFault, read_entry, read_number, read_words};
use std::test::Fail;

/// What the words of a line say.
fn read(rt: &HostRuntime, line: &[&str]) -> Result<Words, WordsFault> {
    let mut words = TextList::new(rt.alloc());
    for word in line {
        words.push(Text::from_str(rt.alloc(), word)?)?;
    }
    read_words(rt.alloc(), words.as_slice(), CommandSet::Still)
}

/// Whether the first bad word of a line has this number.
fn is_bad(rt: &HostRuntime, line: &[&str], number: u32) -> bool {
    matches!(read(rt, line), Err(WordsFault::Bad { at }) if at == number)
}

/// Whether a line is read.
fn is_read(rt: &HostRuntime, line: &[&str]) -> bool {
    read(rt, line).is_ok()
}

/// Whether `bundle a.js` with one more word is read.
fn takes(rt: &HostRuntime, word: &str) -> bool {
    is_read(rt, &["bundle", "a.js", word])
}

/// Whether its third word is bad.
fn refuses(rt: &HostRuntime, word: &str) -> bool {
    is_bad(rt, &["bundle", "a.js", word], 3)
}

/// Whether an option has this name and this value.
fn is_option(option: Option<&(Text, Text)>, name: &str, value: &str) -> bool {
    option.is_some_and(|option| option.0.as_str() == name && option.1.as_str() == value)
}

/// Whether a positional is this word.
fn is_word(word: Option<&Text>, text: &str) -> bool {
    word.is_some_and(|word| word.as_str() == text)
}

#[test]
fn a_missing_word_has_the_number_after_the_last(rt: HostRuntime) {
    assert!(rt; is_bad(&rt, &[], 1));
    assert!(rt; is_bad(&rt, &["bundle"], 2));
    assert!(rt; is_bad(&rt, &["bundle", "--strip"], 3));
    assert!(rt; is_bad(&rt, &["bundle", "a.js", "--workers"], 4));
    assert!(rt; is_bad(&rt, &["bundle", "--workers"], 3));
    assert!(rt; is_bad(&rt, &["grow", "1", "2"], 4));
}

#[test]
fn a_command_is_one_of_the_set(rt: HostRuntime) {
    for command in ["bundle", "deps", "check", "replay"] {
        assert!(rt; is_read(&rt, &[command, "a.js"]), "{command}");
    }
    for command in ["", "serve", "client", "Bundle", "bundle ", "--strip", "-"] {
        assert!(rt; is_bad(&rt, &[command, "a.js"], 1), "{command}");
    }
}

#[test]
fn no_option_comes_twice(rt: HostRuntime) {
    assert!(rt; is_bad(&rt, &["bundle", "a.js", "--workers=9", "--workers", "3"], 4));
    assert!(rt; is_bad(&rt, &["bundle", "--strip", "--strip", "a.js"], 3));
    assert!(rt; is_bad(&rt, &["bundle", "--dev", "true", "--dev=true", "a.js"], 4));
    assert!(rt; is_bad(&rt, &["replay", "--full", "--strip", "--full", "a.js"], 4));
}

#[test]
fn a_bad_value_of_its_own_word_has_the_number_of_that_word(rt: HostRuntime) {
    assert!(rt; is_bad(&rt, &["bundle", "a.js", "--workers", "0"], 4));
    assert!(rt; is_bad(&rt, &["bundle", "a.js", "--workers", "65"], 4));
    assert!(rt; is_bad(&rt, &["bundle", "a.js", "--workers", ""], 4));
    assert!(rt; is_bad(&rt, &["bundle", "a.js", "--root", "-x"], 4));
    assert!(rt; is_bad(&rt, &["bundle", "--root", "--strip", "a.js"], 3));
    assert!(rt; is_bad(&rt, &["bundle", "--platform", "--workers", "0", "a.js"], 3));
}

#[test]
fn a_value_is_in_form(rt: HostRuntime) {
    for word in [
        "--workers=1",
        "--workers=64",
        "--dev=true",
        "--dev=false",
        "--platform=a",
        "--platform=a234567890bcdefg",
        "--root=a=b",
        "--root=.",
        "--cache=/c",
        "--strip",
    ] {
        assert!(rt; takes(&rt, word), "{word}");
    }
}

#[test]
fn a_value_out_of_form_is_bad(rt: HostRuntime) {
    for word in [
        "--workers=",
        "--workers=0",
        "--workers=65",
        "--workers=04",
        "--workers=+4",
        "--workers=-4",
        "--workers=4 ",
        "--workers=x",
        "--dev=",
        "--dev=True",
        "--dev=1",
        "--platform=",
        "--platform=iOS",
        "--platform=1a",
        "--platform=a234567890bcdefgh",
        "--root=",
        "--root=-x",
        "--cache=--x",
        "--strip=",
        "--strip=true",
    ] {
        assert!(rt; refuses(&rt, word), "{word}");
    }
}

#[test]
fn a_word_that_is_no_option_of_the_command_is_bad(rt: HostRuntime) {
    for word in [
        "", "-", "--", "-s", "-strip", "---strip", "--=x", "--full", "--port=1", "--Strip",
        "--stri", "--work=3",
    ] {
        assert!(rt; refuses(&rt, word), "{word}");
    }
    assert!(rt; is_bad(&rt, &["grow", "--strip", "1", "2", "3"], 2));
    assert!(rt; is_read(&rt, &["replay", "--full", "a.js"]));
}

#[test]
fn an_entry_is_a_path_other_than_the_root(rt: HostRuntime) {
    for word in ["/", "./a.js", "../a.js", "a//b", "a/", "a\u{7f}"] {
        assert!(rt; is_bad(&rt, &["bundle", word], 2), "{word}");
    }
    for word in ["a.js", "/a.js", "a b", "é", "a=b", "a-b"] {
        assert!(rt; is_read(&rt, &["bundle", word]), "{word}");
    }
}

#[test]
fn no_entry_comes_twice(rt: HostRuntime) {
    assert!(rt; is_bad(&rt, &["bundle", "a.js", "b.js", "a.js"], 4));
    assert!(rt; is_bad(&rt, &["bundle", "a.js", "--strip", "/a.js"], 4));
    assert!(rt; is_read(&rt, &["bundle", "a.js", "a.js.js", "A.js"]));
}

#[test]
fn there_are_at_most_16_entries(rt: HostRuntime) {
    let mut line = ["bundle"; 18];
    for (place, word) in [
        "a", "b", "c", "d", "e", "f", "g", "h", "i", "j", "k", "l", "m", "n", "o", "p", "q",
    ]
    .iter()
    .enumerate()
    {
        if let Some(at) = line.get_mut(place.wrapping_add(1)) {
            *at = word;
        }
    }
    assert!(rt; is_bad(&rt, &line, 18));
    assert!(rt; line.get(..17).is_some_and(|front| is_read(&rt, front)));
}

#[test]
fn grow_is_given_three_numbers(rt: HostRuntime) {
    assert!(rt; is_read(&rt, &["grow", "0", "1", "0"]));
    assert!(rt; is_read(&rt, &["grow", "18446744073709551615", "50000", "10000"]));
    assert!(rt; is_read(&rt, &["grow", "5", "--workers", "8", "5", "5"]));
    assert!(rt; is_bad(&rt, &["grow", "18446744073709551616", "1", "0"], 2));
    assert!(rt; is_bad(&rt, &["grow", "01", "1", "0"], 2));
    assert!(rt; is_bad(&rt, &["grow", "1", "0", "0"], 3));
    assert!(rt; is_bad(&rt, &["grow", "1", "50001", "0"], 3));
    assert!(rt; is_bad(&rt, &["grow", "1", "1", "10001"], 4));
    assert!(rt; is_bad(&rt, &["grow", "1", "1", "1", "1"], 5));
    assert!(rt; is_bad(&rt, &["grow", "1", "-1", "1"], 3));
}

#[test]
fn the_first_bad_word_is_told(rt: HostRuntime) {
    assert!(rt; is_bad(&rt, &["bundle", "/", "-x", "--workers=0"], 2));
    assert!(rt; is_bad(&rt, &["bundle", "a.js", "-x", "a.js"], 3));
    assert!(rt; is_bad(&rt, &["bundle", "--workers=0", "--dev"], 2));
    assert!(rt; is_bad(&rt, &["bundle", "--nothing", "0", "-"], 2));
}

#[test]
fn the_words_say_their_positionals_and_options_in_order(rt: HostRuntime) -> Result<(), Fail> {
    let words = read(
        &rt,
        &[
            "replay",
            "--workers",
            "64",
            "b.js",
            "--full",
            "--root=a=b",
            "/a.js",
            "--strip",
        ],
    )?;
    assert!(rt; words.command.as_str() == "replay");
    assert!(rt; words.positionals.len() == 2 && words.options.len() == 4);
    assert!(rt; is_word(words.positionals.get(0), "b.js"));
    assert!(rt; is_word(words.positionals.get(1), "/a.js"));
    assert!(rt; is_option(words.options.get(0), "workers", "64"));
    assert!(rt; is_option(words.options.get(1), "full", ""));
    assert!(rt; is_option(words.options.get(2), "root", "a=b"));
    assert!(rt; is_option(words.options.get(3), "strip", ""));
    Ok(())
}

#[test]
fn a_number_has_no_sign_and_no_leading_zero(rt: HostRuntime) {
    assert!(rt; read_number("0") == Some(0));
    assert!(rt; read_number("10") == Some(10));
    assert!(rt; read_number("18446744073709551615") == Some(u64::MAX));
    for text in [
        "",
        "00",
        "01",
        "+1",
        "-1",
        " 1",
        "1_0",
        "18446744073709551616",
        "0x1",
    ] {
        assert!(rt; read_number(text).is_none(), "{text}");
    }
}

#[test]
fn an_entry_has_its_path(rt: HostRuntime) -> Result<(), Fail> {
    let entry = read_entry(rt.alloc(), "a/b.js")?.ok_or("an entry")?;
    assert!(rt; entry.as_str() == "/a/b.js");
    let entry = read_entry(rt.alloc(), "/a/b.js")?.ok_or("an entry")?;
    assert!(rt; entry.as_str() == "/a/b.js");
    for word in ["", "-a", "/", "."] {
        assert!(rt; read_entry(rt.alloc(), word)?.is_none(), "{word}");
    }
    Ok(())
}
