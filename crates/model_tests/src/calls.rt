//! The words that the program is called with, by a table.
use std::alloc::{AllocError, Global};
use std::test::Fail;
use tmf_words::{Asked, accepts, asked_by, bank_of, dir_of};

// The words of each call, with a bar between two of them, and the folder of those that are accepted.
const CALLS: [(&str, Option<Option<&str>>); 52] = [
    ("tmf|run", Some(None)),
    ("|run", Some(None)),
    ("tmf|run|--dir|D", Some(Some("D"))),
    ("tmf|run|--dir=D", Some(Some("D"))),
    ("tmf|run|--dir|/var/my tmf", Some(Some("/var/my tmf"))),
    ("tmf|run|--dir=a=b-c", Some(Some("a=b-c"))),
    ("tmf|run|--dir|run", Some(Some("run"))),
    ("tmf|run|--dir|ü", Some(Some("ü"))),
    ("", None),
    ("tmf", None),
    ("tmf|walk", None),
    ("tmf|Run", None),
    ("tmf|run|run", None),
    ("tmf|run|", None),
    ("tmf|run|--dir", None),
    ("tmf|run|--dir|", None),
    ("tmf|run|--dir=", None),
    ("tmf|run|--dir|-D", None),
    ("tmf|run|--dir=-D", None),
    ("tmf|run|--dir|=D", None),
    ("tmf|run|--dir==D", None),
    ("tmf|run|--dirs|D", None),
    ("tmf|run|-dir=D", None),
    ("tmf|run|--dir|D|--dir|D", None),
    ("tmf|run|--dir=D|--dir=D", None),
    ("tmf|--dir|D|run", None),
    ("tmf|bank|5", Some(None)),
    ("tmf|bank|4095", Some(None)),
    ("tmf|bank|5|--dir|d", Some(Some("d"))),
    ("tmf|bank|5|--dir=d", Some(Some("d"))),
    ("tmf|bank|--dir|d|5", Some(Some("d"))),
    ("tmf|bank|--dir=d|5", Some(Some("d"))),
    ("tmf|bank|--dir|5|5", Some(Some("5"))),
    ("tmf|bank", None),
    ("tmf|bank|", None),
    ("tmf|bank|0", None),
    ("tmf|bank|4096", None),
    ("tmf|bank|4294967301", None),
    ("tmf|bank|007", None),
    ("tmf|bank|+5", None),
    ("tmf|bank|-5", None),
    ("tmf|bank|5 ", None),
    ("tmf|bank|5|5", None),
    ("tmf|bank|5|run", None),
    ("tmf|bank|5|--dir", None),
    ("tmf|bank|--dir|5", None),
    ("tmf|bank|5|--dir=", None),
    ("tmf|bank|5|--dir|-x", None),
    ("tmf|bank|--dir=d", None),
    ("tmf|bank|--dir=d|5|--dir=d", None),
    ("tmf|run|5", None),
    ("tmf|5|bank", None),
];

#[test]
fn a_call_may_name_a_folder(rt: HostRuntime) -> Result<(), Fail> {
    let alloc = rt.alloc();
    assert!(rt; !accepts(&[]) && dir_of(&[]).is_none());
    for (call, answer) in CALLS {
        let mut words = Vec::new(alloc);
        for word in call.split('|') {
            words.push(String::from_str(alloc, word)?)?;
        }
        assert_eq!(rt; accepts(&words), answer.is_some(), "{call}");
        assert!(rt; dir_of(&words) == answer.flatten(), "{call}");
    }
    Ok(())
}

// The words of each call, and the number of transfers that they ask for.
const NUMBERS: [(&str, Option<u32>); 9] = [
    ("tmf|bank|1", Some(1)),
    ("tmf|bank|4095|--dir=d", Some(4095)),
    ("tmf|bank|--dir|7|50", Some(50)),
    ("tmf|bank|--dir=d|607", Some(607)),
    ("tmf|bank|0", None),
    ("tmf|bank|4096", None),
    ("tmf|bank|5|6", None),
    ("tmf|run", None),
    ("tmf|run|--dir|5", None),
];

#[test]
fn a_bank_run_has_a_number(rt: HostRuntime) -> Result<(), Fail> {
    let alloc = rt.alloc();
    for (call, answer) in NUMBERS {
        let mut words = Vec::new(alloc);
        for word in call.split('|') {
            words.push(String::from_str(alloc, word)?)?;
        }
        assert!(rt; bank_of(&words) == answer, "{call}");
    }
    Ok(())
}

// The words of each call, and what those that are accepted ask for.
const ASKED: [(&str, Option<Asked>); 10] = [
    ("tmf|run", Some(Asked::Run)),
    ("|run|--dir|bank", Some(Asked::Run)),
    ("tmf|run|--dir=5", Some(Asked::Run)),
    ("tmf|bank|1", Some(Asked::Bank(1))),
    ("bank|bank|4095|--dir=d", Some(Asked::Bank(4095))),
    ("tmf|bank|607|--dir|run", Some(Asked::Bank(607))),
    ("tmf|bank|--dir|7|50", Some(Asked::Bank(50))),
    ("tmf|bank|--dir=--dir|5", None),
    ("tmf|bank|--dir=a=b|5", Some(Asked::Bank(5))),
    ("tmf|--help", None),
];

// What the words ask for, if they are accepted.
fn asked(alloc: Global, words: &[String]) -> Result<Option<Asked>, AllocError> {
    if accepts(words) {
        Ok(Some(asked_by(alloc, words)?))
    } else {
        Ok(None)
    }
}

#[test]
fn accepted_words_ask_for_a_run(rt: HostRuntime) -> Result<(), Fail> {
    let alloc = rt.alloc();
    for (call, answer) in ASKED {
        let mut words = Vec::new(alloc);
        for word in call.split('|') {
            words.push(String::from_str(alloc, word)?)?;
        }
        assert!(rt; asked(alloc, &words)? == answer, "{call}");
    }
    Ok(())
}
