//! Texts and what is read of them, worked out by hand.
use std::fmt::Write;
use std::test::Fail;
use tmf_model::{Action, Close, Item, Op, Phase, Script, Transaction};
use tmf_script::{ParseError, bank_text, next_line, next_word, parse};

/// The three lines of a head.
const HEAD: &str = "trail A\nvolume $D A\nfile F $D 4\n";

/// What the text is refused with, as it is printed; `ok` where it is a script.
fn answer(rt: &HostRuntime, text: &[u8]) -> Result<String, Fail> {
    match parse(rt.alloc(), text) {
        Ok(_) => Ok(format!(in rt.alloc(); "ok")?),
        Err(ParseError::Refusal { line, why }) => Ok(format!(in rt.alloc(); "{line} {why}")?),
        Err(ParseError::NoMemory) => Ok(format!(in rt.alloc(); "memory")?),
    }
}

fn render_transaction(out: &mut String, transaction: &Transaction) -> Result<(), Fail> {
    write!(out, "begin {} ", transaction.attempts)?;
    for step in transaction.steps.as_slice() {
        write!(out, "({} {}", step.file, step.key)?;
        match &step.op {
            Op::Put(value) => write!(out, "={value})")?,
            Op::Add(number) => write!(out, "+{number})")?,
            Op::Del => write!(out, " del)")?,
            Op::Read => write!(out, " read)")?,
            Op::Lock => write!(out, " lock)")?,
        }
    }
    match transaction.close {
        Close::Commit => write!(out, "commit ")?,
        Close::Abort => write!(out, "abort ")?,
    }
    Ok(())
}

fn render_items(out: &mut String, items: &[Item]) -> Result<(), Fail> {
    write!(out, "[")?;
    for item in items {
        match item {
            Item::Transaction(transaction) => render_transaction(out, transaction)?,
            Item::Control(volume) => write!(out, "control {volume} ")?,
            Item::Dump(volume) => write!(out, "dump {volume} ")?,
        }
    }
    write!(out, "]")?;
    Ok(())
}

fn render_kill(out: &mut String, kill: &Option<u64>) -> Result<(), Fail> {
    if let Some(count) = kill {
        write!(out, ":{count}")?;
    }
    Ok(())
}

fn render_run(out: &mut String, phase: &Phase) -> Result<(), Fail> {
    write!(out, "run")?;
    render_kill(out, &phase.kill)?;
    for worker in phase.workers.as_slice() {
        render_items(out, worker.as_slice())?;
    }
    Ok(())
}

fn render_action(out: &mut String, action: &Action) -> Result<(), Fail> {
    match action {
        Action::Format => write!(out, "format")?,
        Action::Recover(kill) => {
            write!(out, "recover")?;
            render_kill(out, kill)?;
        }
        Action::Run(phase) => render_run(out, phase)?,
        Action::Lose(volume) => write!(out, "lose:{volume}")?,
        Action::Rollforward(volume, kill) => {
            write!(out, "rollforward:{volume}")?;
            render_kill(out, kill)?;
        }
        Action::List(file) => write!(out, "list:{file}")?,
    }
    write!(out, " ")?;
    Ok(())
}

fn rendered(rt: &HostRuntime, script: &Script) -> Result<String, Fail> {
    let mut out = String::new(rt.alloc());
    let config = &script.config;
    for trail in config.trails.as_slice() {
        write!(out, "{trail} ")?;
    }
    for volume in config.volumes.as_slice() {
        write!(out, "{}:{} ", volume.name, volume.trail)?;
    }
    for file in config.files.as_slice() {
        write!(out, "{}:{}:{} ", file.name, file.volume, file.blocks)?;
    }
    write!(
        out,
        "{} {} {} ",
        config.cache, config.car_count, config.car_holds
    )?;
    write!(out, "{} {} ", config.roll, config.steps)?;
    for action in script.actions.as_slice() {
        render_action(&mut out, action)?;
    }
    Ok(out)
}

/// The lines as a text, each between these two.
fn text_of(rt: &HostRuntime, front: &str, lines: &[&str], back: &str) -> Result<String, Fail> {
    let mut text = String::new(rt.alloc());
    for line in lines {
        text.push_str(front)?;
        text.push_str(line)?;
        text.push_str(back)?;
    }
    Ok(text)
}

/// The script of the lines, the same with comments, blanks and other line ends round them.
fn rendered_lines(rt: &HostRuntime, lines: &[&str]) -> Result<String, Fail> {
    let plain = text_of(rt, "", lines, "\n")?;
    let script = parse(rt.alloc(), plain.as_str().as_bytes())
        .ok()
        .ok_or("a script")?;
    let mut found = rendered(rt, &script)?;
    let dressed = text_of(rt, "\r\n #\tput\r\n\t ", lines, " \t\r\n")?;
    let script = parse(rt.alloc(), dressed.as_str().as_bytes())
        .ok()
        .ok_or("a script")?;
    if rendered(rt, &script)?.as_str() != found.as_str() {
        found.push_str("or another")?;
    }
    Ok(found)
}

#[test]
fn whole_heads(rt: HostRuntime) -> Result<(), Fail> {
    let lines = [
        "trail AUX1",
        "trail AUX2",
        "volume $DATA1 AUX2",
        "file ACCT $DATA1 4",
        "file MAT $DATA1 256",
        "cache 128",
        "car 1 0",
        "roll 256",
        "steps 3",
    ];
    let found = rendered_lines(&rt, &lines)?;
    assert_eq!(rt;
        found.as_str(),
        "AUX1 AUX2 $DATA1:2 ACCT:1:4 MAT:1:256 128 1 0 256 3 "
    );
    let found = rendered_lines(&rt, &["trail A", "volume $D A"])?;
    assert_eq!(rt; found.as_str(), "A $D:1 64 64 0 65536 1000000 ");
    Ok(())
}

#[test]
fn whole_runs(rt: HostRuntime) -> Result<(), Fail> {
    let lines = [
        "trail A",
        "volume $DATA1 A",
        "file MAT $DATA1 4",
        "file ACCT $DATA1 4",
        "format",
        "recover",
        "recover kill 0",
        "run kill 1000000000",
        "worker",
        "begin",
        "put ACCT k1 v1",
        "add ACCT k2 -9223372036854775808",
        "add ACCT k2 9223372036854775807",
        "del MAT k",
        "read ACCT k",
        "commit",
        "begin 8",
        "abort",
        "control $DATA1",
        "dump $DATA1",
        "worker",
        "end",
        "run",
        "end",
        "lose $DATA1",
        "rollforward $DATA1",
        "rollforward $DATA1 kill 7",
        "list MAT",
    ];
    let found = rendered_lines(&rt, &lines)?;
    let wanted = [
        "A $DATA1:1 MAT:1:4 ACCT:1:4 64 64 0 65536 1000000 format recover recover:0 ",
        "run:1000000000[begin 1 (2 k1=v1)(2 k2+-9223372036854775808)(2 k2+9223372036854775807)",
        "(1 k del)(2 k read)commit begin 8 abort control 1 dump 1 ][] run ",
        "lose:1 rollforward:1 rollforward:1:7 list:1 ",
    ];
    assert_eq!(rt; found.as_str(), text_of(&rt, "", &wanted, "")?.as_str());
    Ok(())
}

#[test]
fn whole_texts(rt: HostRuntime) -> Result<(), Fail> {
    let table: [(&[u8], &str); 24] = [
        (b"", "1 no volume"),
        (b"\n", "2 no volume"),
        (b"\r", "2 no volume"),
        (b"\n\n", "3 no volume"),
        (b"# nothing", "2 no volume"),
        (b"# \x01", "1 bad byte"),
        (b" \x7f", "1 bad byte"),
        (b"\n\x80", "2 bad byte"),
        (b"\r\r\n", "1 bad byte"),
        (b"trail A\r\r", "1 bad byte"),
        (b"tr\rail A", "1 bad byte"),
        (b"trail A\x00", "1 bad byte"),
        (b"trail A", "2 no volume"),
        (b"wibble", "1 unknown word"),
        (b"Trail A", "1 unknown word"),
        (b"tra", "1 unknown word"),
        (b"trails A", "1 unknown word"),
        (b"kill 1", "1 unknown word"),
        (b"format", "1 no volume"),
        (b"run", "1 no volume"),
        (b"trail A\nrecover", "2 no volume"),
        (b"trail A\nvolume $D A\nrun", "4 wrong place"),
        (b"trail A\nvolume $D A\nrun\nworker\n", "5 wrong place"),
        (
            b"trail A\nvolume $D A\nrun\nworker\nbegin\n",
            "6 wrong place",
        ),
    ];
    for (text, want) in table {
        assert_eq!(rt; answer(&rt, text)?.as_str(), want);
    }
    Ok(())
}

/// What the text is refused with, behind the three lines of the head.
fn behind_head(rt: &HostRuntime, text: &str) -> Result<String, Fail> {
    answer(rt, format!(in rt.alloc(); "{HEAD}{text}")?.as_bytes())
}

/// The rows whose lines, with a `/` for each line feed, are answered otherwise behind the front, each with that
/// answer.
fn wrong_rows(rt: &HostRuntime, front: &str, rows: &[(&str, &str)]) -> Result<String, Fail> {
    let mut wrong = String::new(rt.alloc());
    for (lines, want) in rows {
        let mut text = String::new(rt.alloc());
        text.push_str(front)?;
        for line in lines.split('/') {
            text.push_str(line)?;
            text.push_str("\n")?;
        }
        let found = answer(rt, text.as_str().as_bytes())?;
        if found.as_str() != *want {
            write!(wrong, "{lines}: {found}; ")?;
        }
    }
    Ok(wrong)
}

/// Trails and volumes.
#[test]
fn lines_of_trails(rt: HostRuntime) -> Result<(), Fail> {
    let rows = [
        ("/", "ok"),
        ("trail B", "ok"),
        ("trail", "4 wrong form"),
        ("trail B B", "4 wrong form"),
        ("trail MAT", "4 bad word"),
        ("trail $B", "4 bad word"),
        ("trail B1234567", "ok"),
        ("trail B12345678", "4 bad word"),
        ("trail 1B", "4 bad word"),
        ("trail b", "4 bad word"),
        ("trail A", "4 same name"),
        ("trail F", "ok"),
        ("volume $E A", "ok"),
        ("volume $E", "4 wrong form"),
        ("volume E A", "4 bad word"),
        ("volume $E $E", "4 bad word"),
        ("volume $E MAT", "4 bad word"),
        ("volume $ A", "4 bad word"),
        ("volume $E123456 A", "ok"),
        ("volume $E1234567 A", "4 bad word"),
        ("volume $E B", "4 unknown name"),
        ("volume $D A", "4 same name"),
    ];
    assert_eq!(rt; wrong_rows(&rt, HEAD, &rows)?.as_str(), "");
    Ok(())
}

/// Files, and the blocks of caches.
#[test]
fn lines_of_files(rt: HostRuntime) -> Result<(), Fail> {
    let rows = [
        ("file A $D 1", "ok"),
        ("file MAT $D 256", "ok"),
        ("file G $D 0", "4 bad number"),
        ("file G $D 257", "4 bad number"),
        ("file G $D", "4 wrong form"),
        ("file G $D 1 1", "4 wrong form"),
        ("file $G $D 1", "4 bad word"),
        ("file G D 1", "4 bad word"),
        ("file G $E 1", "4 unknown name"),
        ("file F $D 1", "4 same name"),
        ("cache 2", "ok"),
        ("cache 4096", "ok"),
        ("cache 1", "4 bad number"),
        ("cache 4097", "4 bad number"),
        ("cache 02", "4 bad number"),
        ("cache", "4 wrong form"),
        ("cache 2/cache 3", "5 same name"),
    ];
    assert_eq!(rt; wrong_rows(&rt, HEAD, &rows)?.as_str(), "");
    Ok(())
}

/// The other limits.
#[test]
fn lines_of_limits(rt: HostRuntime) -> Result<(), Fail> {
    let rows = [
        ("car 64 1000", "ok"),
        ("car 0 0", "4 bad number"),
        ("car 65 0", "4 bad number"),
        ("car 1 1001", "4 bad number"),
        ("car 1 00", "4 bad number"),
        ("car 1", "4 wrong form"),
        ("car 1 0/car 1 0", "5 same name"),
        ("roll 16777216", "ok"),
        ("roll 255", "4 bad number"),
        ("roll 16777217", "4 bad number"),
        ("roll 256/roll 256", "5 same name"),
        ("steps 1099511627776", "ok"),
        ("steps 2", "4 bad number"),
        ("steps 1099511627777", "4 bad number"),
        ("steps 18446744073709551619", "4 bad number"),
        ("steps 3/steps 3", "5 same name"),
    ];
    assert_eq!(rt; wrong_rows(&rt, HEAD, &rows)?.as_str(), "");
    Ok(())
}

/// Actions, a run aside.
#[test]
fn lines_of_actions(rt: HostRuntime) -> Result<(), Fail> {
    let rows = [
        ("format/format", "ok"),
        ("format now", "4 wrong form"),
        ("format/trail B", "5 wrong place"),
        ("format/cache 2", "5 wrong place"),
        ("recover kill 1000000000", "ok"),
        ("recover kill 1000000001", "4 bad number"),
        ("recover kill -1", "4 bad number"),
        ("recover kill", "4 wrong form"),
        ("recover Kill 1", "4 wrong form"),
        ("recover kill 1 1", "4 wrong form"),
        ("lose $D", "ok"),
        ("lose D", "4 bad word"),
        ("lose $E", "4 unknown name"),
        ("lose", "4 wrong form"),
        ("rollforward $D kill 0", "ok"),
        ("rollforward $D kills 0", "4 wrong form"),
        ("rollforward $D kill", "4 wrong form"),
        ("rollforward", "4 wrong form"),
        ("rollforward $D kill x", "4 bad number"),
        ("rollforward $E", "4 unknown name"),
    ];
    assert_eq!(rt; wrong_rows(&rt, HEAD, &rows)?.as_str(), "");
    Ok(())
}

/// Lists, and lines that do not stand behind a head.
#[test]
fn lines_elsewhere(rt: HostRuntime) -> Result<(), Fail> {
    let rows = [
        ("list F", "ok"),
        ("list $F", "4 bad word"),
        ("list G", "4 unknown name"),
        ("list", "4 wrong form"),
        ("worker", "4 wrong place"),
        ("end", "4 wrong place"),
        ("control $D", "4 wrong place"),
        ("begin", "4 wrong place"),
        ("put F k v", "4 wrong place"),
        ("commit", "4 wrong place"),
        ("audit A", "4 unknown word"),
        ("lockfile ACCT", "4 unknown word"),
    ];
    assert_eq!(rt; wrong_rows(&rt, HEAD, &rows)?.as_str(), "");
    Ok(())
}

/// Runs, workers and their items.
#[test]
fn lines_of_workers(rt: HostRuntime) -> Result<(), Fail> {
    let rows = [
        ("run/end", "ok"),
        ("run/end/run kill 0/end", "ok"),
        ("run kill x", "4 bad number"),
        ("run 1", "4 wrong form"),
        ("run/run", "5 wrong place"),
        ("run/format", "5 wrong place"),
        ("run/begin", "5 wrong place"),
        ("run/worker/worker/end", "ok"),
        ("run/worker 1", "5 wrong form"),
        ("run/end 1", "5 wrong form"),
        ("run/worker/trail B", "6 wrong place"),
        ("run/worker/put F k v", "6 wrong place"),
        ("run/worker/control $D/dump $D/end", "ok"),
        ("run/worker/control F", "6 bad word"),
        ("run/worker/control $E", "6 unknown name"),
        ("run/worker/dump", "6 wrong form"),
        ("run/worker/dump $E", "6 unknown name"),
        ("run/worker/begin 1/commit/begin 8/abort/end", "ok"),
    ];
    assert_eq!(rt; wrong_rows(&rt, HEAD, &rows)?.as_str(), "");
    Ok(())
}

/// Where transactions begin and end.
#[test]
fn lines_of_begins(rt: HostRuntime) -> Result<(), Fail> {
    let rows = [
        ("run/worker/begin 0", "6 bad number"),
        ("run/worker/begin 9", "6 bad number"),
        ("run/worker/begin 08", "6 bad number"),
        ("run/worker/begin +1", "6 bad number"),
        ("run/worker/begin 1x", "6 bad number"),
        ("run/worker/begin 18446744073709551617", "6 bad number"),
        ("run/worker/begin 1 1", "6 wrong form"),
        ("run/worker/begin/end", "7 wrong place"),
        ("run/worker/begin/begin", "7 wrong place"),
        ("run/worker/begin/commit now", "7 wrong form"),
        ("run/worker/begin/put F k v/commit/end", "ok"),
        ("run/worker/begin/lockfile F", "7 unknown word"),
    ];
    assert_eq!(rt; wrong_rows(&rt, HEAD, &rows)?.as_str(), "");
    Ok(())
}

/// Steps, and the lengths of keys and values.
#[test]
fn lines_of_puts(rt: HostRuntime) -> Result<(), Fail> {
    let rows = [
        ("run/worker/begin/put F k", "7 wrong form"),
        ("run/worker/begin/put F k v v", "7 wrong form"),
        ("run/worker/begin/put f k v", "7 bad word"),
        ("run/worker/begin/put G k v", "7 unknown name"),
        ("run/worker/begin/put F abcdefghijklmnop v/abort/end", "ok"),
        ("run/worker/begin/put F abcdefghijklmnopq v", "7 bad word"),
        (
            "run/worker/begin/put F k 0123456789012345678901234567890123456789/abort/end",
            "ok",
        ),
        (
            "run/worker/begin/put F k 01234567890123456789012345678901234567890",
            "7 bad word",
        ),
        ("run/worker/begin/add F k 0/add F k -1/abort/end", "ok"),
        ("run/worker/begin/add F k -0", "7 bad number"),
        ("run/worker/begin/add F k 00", "7 bad number"),
        ("run/worker/begin/add F k +1", "7 bad number"),
        ("run/worker/begin/add F k -", "7 bad number"),
        (
            "run/worker/begin/add F k 9223372036854775808",
            "7 bad number",
        ),
        (
            "run/worker/begin/add F k -9223372036854775809",
            "7 bad number",
        ),
        ("run/worker/begin/del F k/read F k/abort/end", "ok"),
        ("run/worker/begin/del F", "7 wrong form"),
        ("run/worker/begin/read G k", "7 unknown name"),
        ("run/worker/begin/read F k v", "7 wrong form"),
    ];
    assert_eq!(rt; wrong_rows(&rt, HEAD, &rows)?.as_str(), "");
    Ok(())
}

/// Lines in which two checks fail: the earlier one is the reason.
#[test]
fn pairs_with_early_reasons(rt: HostRuntime) -> Result<(), Fail> {
    let rows = [
        ("wibble \x01", "4 bad byte"),
        ("commit \x01", "4 bad byte"),
        ("list \x01 F", "4 bad byte"),
        ("list \x01", "4 bad byte"),
        ("cache \x01", "4 bad byte"),
        ("list G\x01", "4 bad byte"),
        ("trail A\r ", "4 bad byte"),
        ("trail B/trail C/trail E/trail G\x7f", "7 bad byte"),
        ("worker 1", "4 wrong place"),
        ("put f k v", "4 wrong place"),
        ("begin 9", "4 wrong place"),
        ("put G k v", "4 wrong place"),
        ("format/trail A", "5 wrong place"),
        ("trail B/trail C/trail E/format/trail G", "8 wrong place"),
        ("trail b b", "4 wrong form"),
        ("cache 1 1", "4 wrong form"),
    ];
    assert_eq!(rt; wrong_rows(&rt, HEAD, &rows)?.as_str(), "");
    Ok(())
}

/// The same, from the form on.
#[test]
fn pairs_with_late_reasons(rt: HostRuntime) -> Result<(), Fail> {
    let rows = [
        ("list G G", "4 wrong form"),
        ("trail A A", "4 wrong form"),
        ("trail B/trail C/trail E/trail G G", "7 wrong form"),
        ("file g $D 0", "4 bad word"),
        ("rollforward D kill x", "4 bad word"),
        ("volume E B", "4 bad word"),
        ("volume $D b", "4 bad word"),
        ("trail B/trail C/trail E/trail MAT", "7 bad word"),
        ("file G $E 0", "4 bad number"),
        ("rollforward $E kill x", "4 bad number"),
        ("file F $D 257", "4 bad number"),
        ("cache 2/cache 1", "5 bad number"),
        ("volume $D B", "4 unknown name"),
        ("file F $E 1", "4 unknown name"),
        ("trail B/trail C/trail E/trail A", "7 same name"),
    ];
    assert_eq!(rt; wrong_rows(&rt, HEAD, &rows)?.as_str(), "");
    Ok(())
}

/// The same, where no volume is declared.
#[test]
fn pairs_without_a_volume(rt: HostRuntime) -> Result<(), Fail> {
    let rows = [
        ("format \x01", "1 bad byte"),
        ("format now", "1 no volume"),
        ("lose D", "1 no volume"),
        ("recover kill x", "1 no volume"),
        ("list F", "1 no volume"),
    ];
    assert_eq!(rt; wrong_rows(&rt, "", &rows)?.as_str(), "");
    Ok(())
}

/// So many times the same lines between two others.
fn repeated(
    rt: &HostRuntime,
    front: &str,
    lines: &str,
    times: usize,
    back: &str,
) -> Result<String, Fail> {
    let mut text = String::new(rt.alloc());
    text.push_str(front)?;
    for _ in 0..times {
        text.push_str(lines)?;
    }
    text.push_str(back)?;
    behind_head(rt, text.as_str())
}

#[test]
fn counts_of_lines(rt: HostRuntime) -> Result<(), Fail> {
    let worker = "run\nworker\n";
    let begin = "run\nworker\nbegin\n";
    for (front, lines, times, back, want) in [
        ("run\n", "worker\n", 16, "end", "ok"),
        ("run\n", "worker\n", 17, "end", "21 too many"),
        (worker, "control $D\n", 4096, "end", "ok"),
        (worker, "control $D\n", 4096, "dump $D", "4102 too many"),
        (worker, "dump $D\n", 4096, "control $D", "4102 too many"),
        (worker, "begin\ncommit\n", 4096, "end", "ok"),
        (worker, "begin\ncommit\n", 4096, "begin", "8198 too many"),
        (worker, "dump $D\n", 4096, "begin 9", "4102 bad number"),
        (worker, "dump $D\n", 4096, "dump $E", "4102 unknown name"),
        (worker, "dump $D\n", 4096, "worker\ndump $D\nend", "ok"),
        (begin, "read F k\n", 64, "commit\nend", "ok"),
        (begin, "put F k v\n", 64, "read F k", "71 too many"),
        (begin, "read F k\n", 64, "add F k 1", "71 too many"),
        (begin, "read F k\n", 64, "del G k", "71 unknown name"),
    ] {
        let found = repeated(&rt, front, lines, times, back)?;
        assert_eq!(rt; found.as_str(), want, "{back}");
    }
    Ok(())
}

#[test]
fn counts_of_names(rt: HostRuntime) -> Result<(), Fail> {
    for (count, want) in [(7, "ok"), (8, "11 too many")] {
        let mut text = String::new(rt.alloc());
        for number in 0..count {
            write!(text, "volume $E{number} A\n")?;
        }
        assert_eq!(rt; behind_head(&rt, text.as_str())?.as_str(), want);
    }
    for (count, want) in [(15, "ok"), (16, "19 too many")] {
        let mut text = String::new(rt.alloc());
        for number in 0..count {
            write!(text, "file G{number} $D 1\n")?;
        }
        assert_eq!(rt; behind_head(&rt, text.as_str())?.as_str(), want);
    }
    let trails = "trail B\ntrail C\ntrail E\n";
    for (last, want) in [("", "ok"), ("trail G\n", "7 too many")] {
        let text = format!(in rt.alloc(); "{trails}{last}")?;
        assert_eq!(rt; behind_head(&rt, text.as_str())?.as_str(), want);
    }
    Ok(())
}

#[test]
fn lengths_of_texts(rt: HostRuntime) -> Result<(), Fail> {
    for (byte, length, want) in [
        (b' ', 4_194_304, "2 no volume"),
        (b' ', 4_194_305, "1 too long"),
        (b'\x01', 4_194_305, "1 too long"),
        (b'\n', 4_194_305, "4194305 too long"),
    ] {
        let text = vec![in rt.alloc(); byte; length]?;
        assert_eq!(rt; answer(&rt, text.as_slice())?.as_str(), want);
    }
    Ok(())
}

#[test]
fn lines_and_words(rt: HostRuntime) -> Result<(), Fail> {
    let mut shown = String::new(rt.alloc());
    let mut text = b"run \t kill 3\r\n\r\n worker".as_slice();
    for _ in 0..9u64 {
        let Some((line, after)) = next_line(text) else {
            break;
        };
        let mut rest = line;
        for _ in 0..9u64 {
            let Some((word, behind)) = next_word(rest) else {
                break;
            };
            write!(shown, "<{}>", str::from_utf8(word)?)?;
            rest = behind;
        }
        shown.push_str("|")?;
        text = after;
    }
    assert_eq!(rt; shown.as_str(), "<run><kill><3>||<worker>|");
    Ok(())
}

/// How many items each worker of the script's runs has.
fn items_of_workers(rt: &HostRuntime, script: &Script) -> Result<String, Fail> {
    let mut found = String::new(rt.alloc());
    for action in script.actions.as_slice() {
        if let Action::Run(phase) = action {
            for worker in phase.workers.as_slice() {
                write!(found, "{} ", worker.len())?;
            }
        }
    }
    Ok(found)
}

#[test]
fn bank_workload(rt: HostRuntime) -> Result<(), Fail> {
    let wanted = [
        "trail AUX1\ntrail AUX2\nvolume $DATA1 AUX1\nvolume $DATA2 AUX2\n",
        "file ACCT $DATA1 16\nfile TELLER $DATA2 4\nformat\nrun\n",
        "worker\nbegin\nput ACCT A10 1000\nput ACCT A11 1000\nput ACCT A12 1000\nput ACCT A13 1000\nput ACCT A14 1000\n",
        "put ACCT A15 1000\nput ACCT A16 1000\nput ACCT A17 1000\nput ACCT A18 1000\nput ACCT A19 1000\nput TELLER T1 0\ncommit\n",
        "begin\nadd ACCT A11 -2\nadd ACCT A10 2\nadd TELLER T1 1\ncommit\n",
        "worker\nbegin\nput ACCT A20 1000\nput ACCT A21 1000\nput ACCT A22 1000\nput ACCT A23 1000\nput ACCT A24 1000\n",
        "put ACCT A25 1000\nput ACCT A26 1000\nput ACCT A27 1000\nput ACCT A28 1000\nput ACCT A29 1000\nput TELLER T2 0\ncommit\n",
        "begin\nadd ACCT A21 -2\nadd ACCT A20 2\nadd TELLER T2 1\ncommit\n",
        "worker\nbegin\nput ACCT A30 1000\nput ACCT A31 1000\nput ACCT A32 1000\nput ACCT A33 1000\nput ACCT A34 1000\n",
        "put ACCT A35 1000\nput ACCT A36 1000\nput ACCT A37 1000\nput ACCT A38 1000\nput ACCT A39 1000\nput TELLER T3 0\ncommit\n",
        "begin\nadd ACCT A31 -2\nadd ACCT A30 2\nadd TELLER T3 1\ncommit\n",
        "worker\nbegin\nput ACCT A40 1000\nput ACCT A41 1000\nput ACCT A42 1000\nput ACCT A43 1000\nput ACCT A44 1000\n",
        "put ACCT A45 1000\nput ACCT A46 1000\nput ACCT A47 1000\nput ACCT A48 1000\nput ACCT A49 1000\nput TELLER T4 0\ncommit\n",
        "begin\nadd ACCT A41 -2\nadd ACCT A40 2\nadd TELLER T4 1\ncommit\n",
        "end\nrecover\nlist ACCT\nlist TELLER\n",
    ];
    let text = bank_text(rt.alloc(), 1)?;
    assert_eq!(rt;
        str::from_utf8(text.as_slice())?,
        text_of(&rt, "", &wanted, "")?.as_str()
    );
    let script = parse(rt.alloc(), text.as_slice()).ok().ok_or("a script")?;
    assert_eq!(rt; items_of_workers(&rt, &script)?.as_str(), "2 2 2 2 ");
    let longest = bank_text(rt.alloc(), 4095)?;
    let script = parse(rt.alloc(), longest.as_slice())
        .ok()
        .ok_or("a script")?;
    assert_eq!(rt;
        items_of_workers(&rt, &script)?.as_str(),
        "4096 4096 4096 4096 "
    );
    Ok(())
}
