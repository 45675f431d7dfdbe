//! The words of `grid serve`.

use serve_options::{OptionsRefused, ServeOptions, help_of_serve, read_options, why_refused};
use std::alloc::Global;
use std::test::Fail;

/// The words of a line, which single spaces part.
fn words_of(alloc: Global, line: &str) -> Result<Vec<String>, Fail> {
    let mut words = Vec::new(alloc);
    for word in line.split(' ') {
        words.push(String::from_str(alloc, word)?)?;
    }
    Ok(words)
}

#[test]
fn an_option_sets_its_field(rt: HostRuntime) -> Result<(), Fail> {
    let alloc = rt.alloc();
    for (line, members, backups, capacity, port, stays) in [
        ("serve", 3, 1, 1000, 5701, false),
        ("serve --members 1", 1, 1, 1000, 5701, false),
        ("serve --members=8", 8, 1, 1000, 5701, false),
        ("serve --backups 0", 3, 0, 1000, 5701, false),
        ("serve --backups 6", 3, 6, 1000, 5701, false),
        ("serve --capacity 0", 3, 1, 0, 5701, false),
        (
            "serve --capacity 2147483647",
            3,
            1,
            2_147_483_647,
            5701,
            false,
        ),
        ("serve --port 1", 3, 1, 1000, 1, false),
        ("serve --port=65528", 3, 1, 1000, 65_528, false),
        ("serve --port 00080", 3, 1, 1000, 80, false),
        ("serve --stay", 3, 1, 1000, 5701, true),
        ("serve --stay --port 7 --members 5", 5, 1, 1000, 7, true),
        ("serve --members 2 --backups 5", 2, 5, 1000, 5701, false),
    ] {
        let words = words_of(alloc, line)?;
        let options = ServeOptions {
            members,
            backups,
            capacity,
            port,
            stays,
        };
        assert!(rt;
            read_options(alloc, words.as_slice()) == Ok(options),
            "{line}"
        );
        assert!(rt; why_refused(alloc, words.as_slice())?.is_none(), "{line}");
    }
    Ok(())
}

#[test]
fn words_that_are_no_options_are_refused(rt: HostRuntime) -> Result<(), Fail> {
    let alloc = rt.alloc();
    for line in [
        "serve --members 0",
        "serve --members 9",
        "serve --backups 7",
        "serve --backups -1",
        "serve --capacity 2147483648",
        "serve --capacity some",
        "serve --port 0",
        "serve --port 65529",
        "serve --port",
        "serve --stay=yes",
        "serve --verbose",
        "serve now",
        "serve --port 1 --port 1",
        "serve --stay --stay",
        "serve --members 9 --help",
    ] {
        let words = words_of(alloc, line)?;
        assert!(rt;
            read_options(alloc, words.as_slice()) == Err(OptionsRefused::Usage),
            "{line}"
        );
        assert!(rt; why_refused(alloc, words.as_slice())?.is_some(), "{line}");
    }
    Ok(())
}

#[test]
fn help_names_each_option(rt: HostRuntime) -> Result<(), Fail> {
    let alloc = rt.alloc();
    let help = help_of_serve(alloc)?;
    for line in ["serve --help", "serve --port 1 -h"] {
        let words = words_of(alloc, line)?;
        assert!(rt;
            read_options(alloc, words.as_slice()) == Err(OptionsRefused::Help),
            "{line}"
        );
        let told = why_refused(alloc, words.as_slice())?.ok_or("a text")?;
        assert_eq!(rt; told.as_str(), help.as_str());
    }
    assert_eq!(rt;
        help.as_str(),
        "\
Serves clients on 127.0.0.1, and reads a control script from standard input

Usage: grid serve [OPTIONS]

Options:
      --members <NUMBER>   How many members the grid has, 1 to 8 [default: 3]
      --backups <NUMBER>   How many backups each partition has, 0 to 6 [default: 1]
      --capacity <NUMBER>  How many values a queue holds [default: 1000]
      --port <NUMBER>      The port of member 0; member M listens at this port plus M [default: 5701]
      --stay               Goes on serving once the control script has ended
  -h, --help               Print help
"
    );
    Ok(())
}

#[test]
fn a_person_is_told_what_is_wrong(rt: HostRuntime) -> Result<(), Fail> {
    let alloc = rt.alloc();
    let words = words_of(alloc, "serve --members 9")?;
    let told = why_refused(alloc, words.as_slice())?.ok_or("a text")?;
    assert_eq!(rt;
        told.as_str(),
        "\
error: invalid value '9' for '--members <NUMBER>': 9 is not in 1..=8

For more information, try '--help'.
"
    );
    let words = words_of(alloc, "serve --verbose")?;
    let told = why_refused(alloc, words.as_slice())?.ok_or("a text")?;
    assert_eq!(rt;
        told.as_str(),
        "\
error: unexpected argument '--verbose' found

Usage: grid serve [OPTIONS]

For more information, try '--help'.
"
    );
    Ok(())
}
